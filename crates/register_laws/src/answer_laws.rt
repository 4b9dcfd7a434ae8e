//! Laws of answers: which rule refuses a request, and that a request which no rule refuses gets what it asks for.
ghost use Rattle.agent_events.specs.declared.request.Request.{Request};
ghost use Rattle.register_machine.specs.rules.Situations.{Situation};
ghost use Rattle.register_laws.specs.Completeness.{IsRefusedByFirst, BringsItsEvent, GetsFirstReplyAgain, ShowsWhatIsAsked};

/// A request is refused only where it breaks a rule, and then by the first that it breaks: the rules on the right and on
/// terms, then, unless its content is known, those in order, and last the one on what a correction may not break.
#[tactic(auto, using(crate::proofs::RefusedByFirst::is_refused_by_first))]
pub fn requests_are_refused_by_the_first_rule_broken()
    ensures { (situation : Situation) (request : Request) → IsRefusedByFirst situation request }
{}

/// A request that breaks no rule, whose content is new and that asks for more than a look, is answered with its event
/// appended, and with no refusal.
#[tactic(auto, using(crate::proofs::RefusedByFirst::brings_its_event))]
pub fn requests_that_break_no_rule_bring_their_event()
    ensures { (situation : Situation) (request : Request) → BringsItsEvent situation request }
{}

/// A request whose content is known gets the first reply to it, which is no refusal, and appends nothing.
#[tactic(auto, using(crate::proofs::RefusedByFirst::gets_first_reply_again))]
pub fn known_requests_get_their_first_reply()
    ensures { (situation : Situation) (request : Request) → GetsFirstReplyAgain situation request }
{}

/// A look at the register that breaks no rule shows what it asks for.
#[tactic(auto, using(crate::proofs::RefusedByFirst::shows_what_is_asked))]
pub fn queries_that_break_no_rule_are_shown()
    ensures { (situation : Situation) (request : Request) → ShowsWhatIsAsked situation request }
{}
