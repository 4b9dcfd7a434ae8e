//! Laws of the rows of journals.
ghost use Rattle.std.specs.Prelude.{All, ℕ};
ghost use Rattle.event_rows.specs.InForm.{InForm};
ghost use Rattle.register_desk.specs.Rows.{IsDamagedAt, rows_of};
ghost use Rattle.register_machine.specs.journal.Journals.{Journal};
ghost use Rattle.register_machine.specs.journal.Lawful.{IsLawful};

/// No row of a lawful journal is a bad one.
pub fn lawful_rows_are_not_damaged()
    ensures { (journal : Journal) → IsLawful journal → All InForm journal → (place : ℕ)
        → IsDamagedAt place (rows_of journal) → ⊥ }
{
    event_rows::laws::no_row_begins_another();
}
