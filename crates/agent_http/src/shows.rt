//! Looks at an account. They come most often, and so are read from the target at once, without its parts.
ghost use Rattle.std.specs.Prelude.{◌≡◌, ℕ, List, Option, IfSome};
ghost use Rattle.agent_events.specs.Fields as form;
ghost use Rattle.agent_events.specs.declared.request.Request.{Request};
ghost use Rattle.agent_http.specs.Calls.{target_answer};
ghost use Rattle.agent_http.specs.declared.calls.CallAsk.{CallAsk};

use agent_events::Identifier;
use money_units::read_number;
use request_fields::same_bytes;

/// The account that a request asks to show, where its target is the path of one and nothing else.
pub(crate) fn shown_account(target: &[u8], method: &[u8]) -> Option<Identifier>
    ensures { IfSome result
        (λ account. (size : Option ℕ) (body : List ℕ)
        → target_answer target.now method.now size body
        ≡ CallAsk.Request (Request.Show account)) }
{
    if target.len() < 9 {
        return None;
    }
    if same_bytes(&target[..9], b"/v1/show/") && same_bytes(method, b"GET") {
        account_of(&target[9..])
    } else {
        None
    }
}

fn account_of(text: &[u8]) -> Option<Identifier>
    ensures { result ≡ form.identifier text.now }
{
    Identifier::new(read_number(text).ok()?)
}
