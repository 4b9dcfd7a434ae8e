//! The reply to a look at an account: its positions that have lots, by class.
ghost use Rattle.std.specs.Prelude.{◌≡◌, filter_map, option_and_then, IfOk};
ghost use Rattle.std.specs.Option.{option_copied};
ghost use Rattle.household_positions.specs.Register.{AreInOrder};
ghost use Rattle.holder_statements.specs.AccountPositions.{AreListedOf, AreRising, register_in, reply_of_holdings, text_in, text_of_holding};
ghost use Rattle.holder_statements.specs.Holdings.{holding_in};

use agent_events::{Identifier, PositionText, Positions, Reply};
use household_fold::HouseholdState;
use money_units::NoMemory;
use share_lots::Position;
use std::alloc::Global;

/// What an account holds by the state of its household: the class, the loose and held mils and the cost in cents of each
/// position that has lots, by class. Without a state nothing is kept of the household, and the list is empty.
///
/// The classes rise by number, and each in which the account has a position is among them: each is looked up by a search, so
/// no position of another account is read.
pub fn show_reply(
    alloc: Global,
    state: Option<&HouseholdState>,
    classes: &[Identifier],
    account: Identifier,
) -> Result<Reply, NoMemory>
    requires order { AreInOrder (register_in (option_copied state)) }
    requires rising { AreRising classes.now }
    requires listed { AreListedOf account classes.now (register_in (option_copied state)) }
    ensures { IfOk result (λ reply. reply
        ≡ reply_of_holdings (register_in (option_copied state.entry)) account) }
{
    let positions = positions_in(alloc, state, classes, account.number())?;
    Ok(Reply::Show { account, positions })
}

// The positions of an account in these classes, those that have lots.
fn positions_in(
    alloc: Global,
    state: Option<&HouseholdState>,
    classes: &[Identifier],
    account: u32,
) -> Result<Positions, NoMemory>
    ensures { IfOk result (λ positions. positions
        ≡ filter_map (text_in (register_in (option_copied state.entry)) account) classes.now) }
{
    let mut positions = Positions::new(alloc);
    for class in classes {
        if let Some(text) = text_in(state, account, *class) {
            positions.push(text)?;
        }
    }
    Ok(positions)
}

// The position of an account in a class, where it has lots.
fn text_in(state: Option<&HouseholdState>, account: u32, class: Identifier) -> Option<PositionText>
    ensures { result ≡ text_in (register_in (option_copied state.entry)) account class }
{
    match holding_in(state, account, class.number()) {
        Some(holding) => text_of_holding(class, holding),
        None => None,
    }
}

// The lots of an account in a class.
fn holding_in(state: Option<&HouseholdState>, account: u32, class: u32) -> Option<&Position>
    ensures { option_copied result
        ≡ holding_in (register_in (option_copied state.entry)) account class }
{
    match state {
        Some(state) => state.position(account, class),
        None => None,
    }
}

// The lots of a class as a look shows them.
fn text_of_holding(class: Identifier, holding: &Position) -> Option<PositionText>
    ensures { result ≡ text_of_holding class holding.now }
{
    if holding.is_empty() {
        return None;
    }
    Some(PositionText {
        class,
        loose: holding.loose(),
        held: holding.held(),
        cost: holding.cost(),
    })
}
