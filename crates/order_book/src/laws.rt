//! Laws: what the machine brings can be noted.
ghost use Rattle.std.specs.Prelude.{ℕ};
ghost use Rattle.agent_events.specs.Events.{Event as Happened};
ghost use Rattle.agent_events.specs.declared.request.Request.{Request};
ghost use Rattle.agent_events.specs.declared.verdict.Caller.{Caller};
ghost use Rattle.order_book.specs.FitsNext.{FreshFits, LawfulFits};
ghost use Rattle.register_machine.specs.journal.Journals.{Journal};

/// Whatever the verdict on a request brings behind a lawful journal can be noted there, for all kinds of events.
pub fn what_the_machine_brings_fits()
    ensures { (journal : Journal) (now : ℕ) (caller : Caller) (request : Request) (event : Happened)
        → FreshFits journal now caller request event }
{}

/// Each event of a lawful journal can be noted behind those before it.
#[tactic(auto, using(crate::proofs::BroughtFits::lawful_fits))]
pub fn events_of_lawful_journals_fit()
    ensures { (journal : Journal) (event : Happened) → LawfulFits journal event }
{}
