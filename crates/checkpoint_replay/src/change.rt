//! What a sheet or a correction makes of the households that it moves.
ghost use Rattle.std.specs.Prelude.{◌≡◌};
ghost use Rattle.checkpoint_replay.specs.Moves.{AreMoves};

use agent_events::{Changes, Trades};
use household_fold::HouseholdState;
use std::marker::Model;

/// What a household is moved to: its new positions, how many of its old trades stay, and the trades behind them.
#[derive(Drop)]
pub struct HouseholdMove {
    pub household: u32,
    pub state: HouseholdState,
    pub kept: usize,
    pub trades: Trades,
}

/// What a sheet or a correction makes of the households that it moves, each of them once, in no order of their numbers: a
/// ledger looks each up where it stands. Nothing of it shows in the ledger before it is installed.
#[derive(Drop)]
pub struct Change {
    moves: Vec<HouseholdMove>,
    changes: Changes,
}

impl Model for Change {
    ghost use Rattle.checkpoint_replay.specs.Moves.{AreMoves, Moves};

    ghost Value = { Moves };

    ghost view = { λ change. record { moves = change.moves.items; changes = change.changes } };

    ghost invariant = { λ change. AreMoves change.moves.items };
}

impl Change {
    // The change that these moves make, with what they change of the totals.
    pub(crate) fn of(moves: Vec<HouseholdMove>, changes: Changes) -> Change
        requires { AreMoves moves.items }
        ensures moves { result.moves ≡ moves.items }
        ensures changes { result.changes ≡ changes }
    {
        Change { moves, changes }
    }

    /// By how much the moves make the outstanding shares of each class and the cash of each party differ.
    pub fn changes(&self) -> &Changes
        ensures { result.now ≡ self.now.changes }
    {
        &self.changes
    }

    /// The moves, of different households.
    pub fn moves(&self) -> &[HouseholdMove]
        ensures moves { result.now ≡ self.now.moves }
        ensures apart { AreMoves self.now.moves }
    {
        &self.moves
    }

    // The moves themselves.
    pub(crate) fn into_moves(self) -> Vec<HouseholdMove>
        ensures moves { result.items ≡ self.moves }
        ensures apart { AreMoves self.moves }
    {
        self.moves
    }
}
