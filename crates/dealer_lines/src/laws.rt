//! Laws of batches.
ghost use Rattle.std.specs.Prelude.{◌≡◌, List, map, true, ℕ};
ghost use Rattle.agent_events.specs.Items.{batch_line};
ghost use Rattle.dealer_lines.specs.Lines.{all_lines};

/// Whatever the records of a batch, each of them asks a line or isn't in its form.
#[tactic(auto, using(crate::proofs::LinesAsked::lines_asked))]
pub fn records_of_a_batch_are_lines()
    ensures { (rows : List (List (List ℕ))) → all_lines (map batch_line rows) ≡ true }
{}
