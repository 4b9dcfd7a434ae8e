//! The rules on looks at the register.
ghost use Rattle.std.specs.Prelude.{◌≡◌};
ghost use Rattle.agent_events.specs.declared.request.Request.{Request};
ghost use Rattle.request_rules.specs.VerbRules.{rules_of};
ghost use Rattle.register_machine.specs.journal.Choices.{first_some};

use crate::inquiry::Inquiry;
use crate::rules::{first_absent, first_broken};
use agent_events::{Identifier, Refusal, StatementForm, TraceForm};

/// The first rule that a look at an account breaks.
pub(crate) fn broken_by_show(inquiry: &Inquiry, account: Identifier) -> Option<Refusal>
    ensures { result ≡ first_some (rules_of inquiry.now (Request.Show account)) }
{
    first_broken(&[first_absent(&[(1, inquiry.has_account(account))])])
}

/// The first rule that a look at an order breaks.
pub(crate) fn broken_by_trace(inquiry: &Inquiry, form: &TraceForm) -> Option<Refusal>
    ensures { result ≡ first_some (rules_of inquiry.now (Request.Trace form.now)) }
{
    first_broken(&[first_absent(&[
        (1, inquiry.has_account(form.account)),
        (2, inquiry.has_order(form.account, form.ref_no)),
    ])])
}

/// The first rule that a statement breaks.
pub(crate) fn broken_by_statement(inquiry: &Inquiry, form: &StatementForm) -> Option<Refusal>
    ensures { result ≡ first_some (rules_of inquiry.now (Request.Statement form.now)) }
{
    first_broken(&[first_absent(&[(1, inquiry.has_account(form.account))])])
}
