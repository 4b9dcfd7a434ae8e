//! Laws of checkpoint rows.
ghost use Rattle.std.specs.Prelude.{◌≡◌, ◌++◌, ℕ, List};
ghost use Rattle.agent_events.specs.declared.checkpoint.StateRow.{StateRow};
ghost use Rattle.event_rows.specs.Exact.{IsField};
ghost use Rattle.state_rows.specs.InForm.{IsKept};
ghost use Rattle.state_rows.specs.Rows.{state_row};
ghost use Rattle.state_rows.specs.Reading.{versioned_at};

/// A row is read from its own spelling, whatever follows it, and from nothing else.
pub fn rows_are_exact()
    ensures { IsField state_row IsKept versioned_at }
{}

/// Each state has one row, and no row begins another.
pub fn no_row_begins_another()
    ensures { (first second : StateRow) (rest more : List ℕ) → IsKept first → IsKept second
        → state_row first ++ rest ≡ state_row second ++ more → (first ≡ second) × (rest ≡ more) }
{}
