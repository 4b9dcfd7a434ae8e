//! Where the replay of a household begins: at a state that is kept of it, behind a sheet that the correction doesn't touch, or
//! before all sheets.
ghost use Rattle.std.specs.Prelude.{◌≡◌, IfOk};
ghost use Rattle.desk_books.specs.Starts.{start_at, start_by};
ghost use Rattle.checkpoint_replay.specs.KeptStates.{last_before, states_in};

use checkpoint_replay::{KeptState, KeptStates, ReplayStart};
use household_fold::HouseholdState;
use money_units::NoMemory;
use std::alloc::Global;

/// Where the replay of a household begins, and the place in the book of orders from which on it reads them: none of the
/// household's orders before it is executed behind the start.
#[derive(Drop)]
pub(crate) struct KeptStart {
    pub(crate) replay: ReplayStart,
    pub(crate) orders: usize,
}

/// The last state of a household that is kept behind a sheet before this one, copied, or the start before all sheets.
pub(crate) fn start_of(
    alloc: Global,
    kept: &KeptStates,
    household: u32,
    before: u32,
) -> Result<KeptStart, NoMemory>
    ensures { IfOk result (λ start. start
        ≡ start_by household (last_before before (states_in kept.now household))) }
{
    match kept.before(household, before) {
        Some(state) => {
            let replay = start_at(alloc, household, state)?;
            Ok(KeptStart {
                replay,
                orders: state.orders,
            })
        }
        None => Ok(KeptStart {
            replay: ReplayStart {
                household,
                state: HouseholdState::fresh(alloc, household),
                sheet: 0,
                kept: 0,
            },
            orders: 0,
        }),
    }
}

fn start_at(alloc: Global, household: u32, kept: &KeptState) -> Result<ReplayStart, NoMemory>
    ensures { IfOk result (λ start. start ≡ start_at household kept.now) }
{
    let state = kept.state.copied(alloc)?;
    Ok(ReplayStart {
        household,
        state,
        sheet: kept.sheet,
        kept: kept.trades,
    })
}
