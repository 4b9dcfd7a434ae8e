//! Laws of a full journal: an event more is refused, and looks and repeats are answered as ever.
ghost use Rattle.agent_events.specs.declared.request.Request.{Request};
ghost use Rattle.register_machine.specs.rules.Situations.{Situation};
ghost use Rattle.limit_laws.specs.FullJournals.{FullJournalsAnswer, LooksAreAnswered};

/// A look is refused where its caller has no right to it or where something that it names is absent, and is shown what it asks
/// for else, however long the journal is.
#[tactic(auto, using(crate::proofs::AnsweredWhenFull::looks_are_answered))]
pub fn looks_are_answered_whatever_the_journal()
    ensures { (situation : Situation) (request : Request) → LooksAreAnswered situation request }
{}

/// Behind a journal of 10^8 events nothing is appended: a request that would append one is refused for it, where it breaks no
/// other rule, a look is answered as ever, and a repeat gets the first reply to its event.
#[tactic(auto, using(crate::proofs::AnsweredWhenFull::full_journals_answer))]
pub fn full_journals_answer_looks_and_repeats()
    ensures { (situation : Situation) (request : Request) → FullJournalsAnswer situation request }
{}
