//! Laws of what the operator sees at the end of a load. Each function is empty: its clauses hold of the definitions.
ghost use Rattle.std.specs.List.{count_by};
ghost use Rattle.std.specs.Prelude.{◌≡◌, Bool};
ghost use Rattle.agent_events.specs.declared.reply.OrderState.{OrderState};
ghost use Rattle.load_requests.specs.Summaries.{classes_in, orders_in};
ghost use Rattle.load_runs.specs.Looks.{classes_shown, is_traced};
ghost use Rattle.load_runs.specs.OrderNames.{order_names};
ghost use Rattle.register_laws.specs.Lawful.{book_behind};
ghost use Rattle.register_machine.specs.journal.Journals.{Journal};
ghost use Rattle.register_machine.specs.journal.Lawful.{IsLawful};

/// In a lawful journal the traces of all orders, each by the name with which it was begun, show as many in a state as the book has.
pub fn orders_are_counted()
    ensures { (test : OrderState → Bool) (journal : Journal) → IsLawful journal
        → count_by (is_traced test journal) (order_names journal)
        ≡ orders_in test (book_behind journal) }
{}

/// The books that the operator sees show each class as it stands in the final register.
#[tactic(auto, using(crate::proofs::LooksShown::classes_are_shown))]
pub fn classes_are_shown()
    ensures { (journal : Journal) → classes_shown journal
        ≡ classes_in journal (book_behind journal) }
{}
