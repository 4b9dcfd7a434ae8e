//! Laws of the rows of events.
ghost use Rattle.std.specs.Prelude.{◌≡◌, ◌≤◌, ◌++◌, ℕ, List, length};
ghost use Rattle.agent_events.specs.Events.{Event};
ghost use Rattle.event_rows.specs.Exact.{IsField};
ghost use Rattle.event_rows.specs.InForm.{InForm};
ghost use Rattle.event_rows.specs.Rows.{event_row};
ghost use Rattle.event_rows.specs.Reading.{event_at};
ghost use Rattle.event_rows.specs.Sizes.{content_size};

/// A row is read from its own spelling, whatever follows it, and from nothing else.
#[tactic(auto, using(crate::proofs::WholeRows::event_field))]
pub fn rows_are_exact()
    ensures { IsField event_row InForm event_at }
{}

/// Each event has one row, and no row begins another.
pub fn no_row_begins_another()
    ensures { (first second : Event) (rest more : List ℕ) → InForm first → InForm second
        → event_row first ++ rest ≡ event_row second ++ more → (first ≡ second) × (rest ≡ more) }
{}

/// An event holds no more bytes of texts and items of lists than its row has bytes: what a row claims it bears out.
#[tactic(auto, using(crate::proofs::RowSizes::row_size))]
pub fn events_are_within_their_rows()
    ensures { (event : Event) → content_size event.kind ≤ length (event_row event) }
{}
