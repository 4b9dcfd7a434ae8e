//! A household's part of the ledger: its positions, and its trades in their order.
ghost use Rattle.std.specs.Prelude.{◌≡◌, ◌==◌, ◌≤◌, ◌+◌, None, Some, if◌then◌else◌, length, vec_capacity, vec_len};
ghost use Rattle.std.specs.Option.{option_copied};
ghost use Rattle.checkpoint_replay.specs.Moves.{HasTradeRoom, day_after_move};
ghost use Rattle.checkpoint_replay.specs.Parts.{day_of, first_day};

use crate::change::HouseholdMove;
use agent_events::Trade;
use household_fold::HouseholdState;
use std::alloc::AllocError;

/// The positions of a household as the sheets so far have left them, and all its trades.
#[derive(Drop)]
pub struct HouseholdPart {
    pub state: HouseholdState,
    pub trades: Vec<Trade>,
}

/// Moves a part on where it stands, within the room of its trades.
pub(crate) fn move_part(part: &mut HouseholdPart, change: HouseholdMove)
    requires { vec_len part.old.trades + length change.trades ≤ vec_capacity part.old.trades }
    ensures day { day_of part.new ≡ day_after_move (day_of part.old) change }
    ensures number { part.new.state.number ≡ change.state.number }
{
    let HouseholdMove {
        household: _,
        state,
        kept,
        trades,
    } = change;
    part.trades.truncate(kept);
    let appended: Result<(), AllocError> = part.trades.extend_from_slice(trades.as_slice());
    appended.unwrap();
    part.state = state;
}

/// The part of a household of which nothing was kept.
pub(crate) fn first_part(change: HouseholdMove) -> HouseholdPart
    ensures day { day_of result ≡ day_after_move first_day change }
    ensures number { result.state.number ≡ change.state.number }
{
    HouseholdPart {
        state: change.state,
        trades: change.trades.into_vec(),
    }
}

impl HouseholdPart {
    /// The state, unless nothing is kept.
    pub(crate) fn state_unless_fresh(&self) -> Option<&HouseholdState>
        ensures { option_copied result
            ≡ (if length self.now.state.register == 0 then None else Some self.now.state) }
    {
        if self.state.is_fresh() {
            None
        } else {
            Some(&self.state)
        }
    }
}
