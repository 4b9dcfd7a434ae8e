//! The law of the empty journal.
ghost use Rattle.std.specs.Prelude.{◌≡◌, []};
ghost use Rattle.register_machine.specs.journal.Journals.{last_moment};

/// Before the first event the last moment is the first of all.
pub fn empty_journals_end_at_the_first_moment()
    ensures { last_moment [] ≡ 0 }
{}
