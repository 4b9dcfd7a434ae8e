//! An exchange on the sheet at hand: pieces go over to another class of the family, each with its own date and cost.
ghost use Rattle.std.specs.Prelude.{◌≡◌, ◌==◌, ◌+◌, ◌≤◌, ◌∷◌, [], All, IfOk, OnOk, fold, not, true};
ghost use Rattle.agent_events.specs.declared.trade.Why.TheVariants.{Ceiling, TooSmall};
ghost use Rattle.fund_exchange.specs.Exchange as moving;
ghost use Rattle.register_machine.specs.journal.Choices.{first_some, when};
ghost use Rattle.register_machine.specs.pricing.OrderClasses.{class_of};
ghost use Rattle.register_machine.specs.replay.Exchange as spec;
ghost use Rattle.register_machine.specs.replay.Positions.{has_room, mils_of};
ghost use Rattle.register_machine.specs.replay.Redemption.{loose_of};
ghost use Rattle.register_machine.specs.replay.Trades.{nav_of};
ghost use Rattle.share_lots.specs.Lots.{cost_total, loose_total, most_cost, most_mils};
ghost use Rattle.share_lots.specs.Taking.{pieces};
ghost use Rattle.household_fold.specs.Exchanges.{day_by_move, day_given, day_moved, exchange_known, moved_known, source_of, target_of};
ghost use Rattle.household_fold.specs.Facts.{FactsFit, IsListed, sheet_at_hand};
ghost use Rattle.household_fold.specs.Numbers.{AreNumbersWithin};

use crate::facts::Facts;
use crate::made_trades::{class_number, order_trade};
use crate::reads::has_room;
use crate::redemption::short_of;
use agent_events::{Order, Trade, TradeKind, Why};
use fund_exchange::{Carried, carry};
use household_positions::{HouseholdDay, HouseholdRegister};
use money_units::{Cents, Mils, NoMemory};
use share_lots::{Piece, Pieces, Position};
use std::alloc::Global;

/// Shares of an account that go from a class to another: as many mils as are asked for.
#[derive(Clone, Copy)]
pub struct Move {
    pub account: u32,
    pub class: u32,
    pub to: u32,
    pub asked: Mils,
}

/// An exchange of so many mils into another class.
pub(crate) fn exchange(
    alloc: Global,
    facts: &Facts,
    day: &mut HouseholdDay,
    order: &Order,
    to: u32,
    asked: Mils,
) -> Result<(), NoMemory>
    requires facts { FactsFit facts.now }
    requires listed { IsListed facts.now (class_of order.now.body) }
    requires target { IsListed facts.now to }
    requires lots { AreNumbersWithin
        (exchange_known facts.now day.old order.now to asked).register }
    ensures { OnOk result (day.new ≡ exchange_known facts.now day.old order.now to asked) }
{
    let trade = order_trade(facts, order, TradeKind::Exchange);
    let shares = Move {
        account: order.account.number(),
        class: class_number(&order.body),
        to,
        asked,
    };
    let moved = moved_shares(alloc, facts, day.register(), &shares)?;
    day_by_move(alloc, facts, day, &trade, &shares, &moved)?;
    Ok(())
}

/// An exchange of all loose shares into another class.
pub(crate) fn exchange_all(
    alloc: Global,
    facts: &Facts,
    day: &mut HouseholdDay,
    order: &Order,
    to: u32,
) -> Result<(), NoMemory>
    requires facts { FactsFit facts.now }
    requires listed { IsListed facts.now (class_of order.now.body) }
    requires target { IsListed facts.now to }
    requires lots { AreNumbersWithin
        (exchange_known facts.now day.old order.now to (loose_of day.old order.now)).register }
    ensures { OnOk result (day.new
        ≡ exchange_known facts.now day.old order.now to (loose_of day.old order.now)) }
{
    let loose = day
        .register()
        .loose(order.account.number(), class_number(&order.body));
    exchange(alloc, facts, day, order, to, loose)?;
    Ok(())
}

/// The pieces that the shares asked for are.
fn pieces_asked(
    alloc: Global,
    register: &HouseholdRegister,
    shares: &Move,
) -> Result<Pieces, NoMemory>
    ensures pieces { IfOk result (λ given. given
        ≡ pieces shares.now.asked (source_of register.now shares.now).holding.lots) }
    ensures few_mils { IfOk result (λ given. moving.mils_total given ≤ most_mils) }
    ensures low_cost { IfOk result (λ given. moving.cost_total given ≤ most_cost) }
{
    match register.find(shares.account, shares.class) {
        Some(position) => Ok(position.holding().pieces(alloc, shares.asked)?),
        None => Ok(Pieces::new(alloc)),
    }
}

/// What goes over by the two net asset values of the sheet.
fn moved_shares(
    alloc: Global,
    facts: &Facts,
    register: &HouseholdRegister,
    shares: &Move,
) -> Result<Carried, NoMemory>
    requires facts { FactsFit facts.now }
    requires listed { IsListed facts.now shares.now.class }
    requires target { IsListed facts.now shares.now.to }
    ensures moved { IfOk result (λ moved. moved ≡ moved_known facts.now register.now shares.now) }
    ensures with_mils { IfOk result (λ moved. All (λ piece. 1 ≤ piece.mils) moved.pieces) }
    ensures mils { IfOk result (λ moved. moved.mils ≡ moving.mils_total moved.pieces) }
    ensures cost { IfOk result (λ moved. moved.cost ≡ moving.cost_total moved.pieces) }
{
    let given = pieces_asked(alloc, register, shares)?;
    let moved = carry(
        alloc,
        given.as_slice(),
        facts.nav(shares.class),
        facts.nav(shares.to),
    )?;
    Ok(moved)
}

/// Why shares that are there can't go over: no mil would result, or the target would pass its ceiling.
fn no_place(register: &HouseholdRegister, shares: &Move, moved: &Carried) -> Option<Why>
    ensures { result ≡ first_some (when (moved.now.mils == 0) TooSmall
        ∷ when (not (has_room (target_of register.now shares.now).holding
        moved.now.mils moved.now.cost)) Ceiling ∷ []) }
{
    if moved.mils.0 == 0 {
        Some(Why::TooSmall)
    } else if has_room(register, shares.account, shares.to, moved.mils, moved.cost) {
        None
    } else {
        Some(Why::Ceiling)
    }
}

/// Why an exchange is unfilled.
fn refusal_of(day: &HouseholdDay, shares: &Move, moved: &Carried) -> Option<Why>
    ensures { result ≡ first_some (spec.exchange_reasons
        (source_of day.now.register shares.now) (target_of day.now.register shares.now)
        shares.now.asked moved.now) }
{
    match short_of(day, shares.account, shares.class, shares.asked.0) {
        Some(why) => Some(why),
        None => no_place(day.register(), shares, moved),
    }
}

/// The exchange, filled or not.
fn day_by_move(
    alloc: Global,
    facts: &Facts,
    day: &mut HouseholdDay,
    trade: &Trade,
    shares: &Move,
    moved: &Carried,
) -> Result<(), NoMemory>
    requires facts { FactsFit facts.now }
    requires listed { IsListed facts.now shares.now.class }
    requires with_mils { All (λ piece. 1 ≤ piece.mils) moved.now.pieces }
    requires mils { moved.now.mils ≡ moving.mils_total moved.now.pieces }
    requires cost { moved.now.cost ≡ moving.cost_total moved.now.pieces }
    requires lots { AreNumbersWithin
        (day_by_move facts.now day.old trade.now shares.now moved.now).register }
    ensures { OnOk result (day.new ≡ day_by_move facts.now day.old trade.now shares.now moved.now) }
{
    match refusal_of(day, shares, moved) {
        Some(why) => {
            day.add_unfilled(trade, why)?;
            Ok(())
        }
        None => {
            move_shares(alloc, facts, day, trade, shares, moved)?;
            Ok(())
        }
    }
}

/// The shares leave a position, and come into the other.
fn move_shares(
    alloc: Global,
    facts: &Facts,
    day: &mut HouseholdDay,
    trade: &Trade,
    shares: &Move,
    moved: &Carried,
) -> Result<(), NoMemory>
    requires facts { FactsFit facts.now }
    requires listed { IsListed facts.now shares.now.class }
    requires loose { shares.now.asked
        ≤ loose_total (source_of day.old.register shares.now).holding }
    requires room { has_room (target_of day.old.register shares.now).holding
        moved.now.mils moved.now.cost ≡ true }
    requires with_mils { All (λ piece. 1 ≤ piece.mils) moved.now.pieces }
    requires mils { moved.now.mils ≡ moving.mils_total moved.now.pieces }
    requires cost { moved.now.cost ≡ moving.cost_total moved.now.pieces }
    requires lots { AreNumbersWithin
        (day_moved facts.now day.old trade.now shares.now moved.now).register }
    ensures { OnOk result (day.new ≡ day_moved facts.now day.old trade.now shares.now moved.now) }
{
    let filled = exchange_trade(facts, trade, shares, moved);
    give_shares(alloc, day, shares)?;
    let mut target = day.take_out(alloc, shares.account, shares.to)?;
    add_pieces(&mut target.holding, moved.pieces.as_slice())?;
    day.close_trade(target, &filled)?;
    Ok(())
}

/// The shares leave the position of their class. Within one class the position that gets them stands in its stead.
fn give_shares(alloc: Global, day: &mut HouseholdDay, shares: &Move) -> Result<(), NoMemory>
    requires { shares.now.asked ≤ loose_total (source_of day.old.register shares.now).holding }
    ensures { OnOk result (day.new ≡ day_given day.old shares.now) }
{
    if shares.class == shares.to {
        return Ok(());
    }
    let mut source = day.take_out(alloc, shares.account, shares.class)?;
    source.holding.remove(shares.asked)?;
    day.put_back(source)?;
    Ok(())
}

/// The trade of an exchange that is filled.
fn exchange_trade(facts: &Facts, trade: &Trade, shares: &Move, moved: &Carried) -> Trade
    requires facts { FactsFit facts.now }
    requires listed { IsListed facts.now shares.now.class }
    ensures { result ≡ spec.exchange_trade trade.now
        (nav_of (sheet_at_hand facts.now) shares.now.class) shares.now.asked moved.now }
{
    let mut filled = *trade;
    filled.price = Cents(facts.nav(shares.class).cents());
    filled.mils = shares.asked;
    filled.to_mils = moved.mils;
    filled.cash = moved.value;
    filled
}

/// Pieces come into a position, each as a lot with its own date and cost or into the free lot.
fn add_pieces(holding: &mut Position, given: &[Piece]) -> Result<(), NoMemory>
    requires with_mils { All (λ piece. 1 ≤ piece.mils) given.now }
    requires few_mils { mils_of holding.old + moving.mils_total given.now ≤ most_mils }
    requires low_cost { cost_total holding.old + moving.cost_total given.now ≤ most_cost }
    requires next { (fold spec.holding_with_piece holding.old given.now).next_lot ≤ 4294967295 }
    ensures { OnOk result (holding.new ≡ fold spec.holding_with_piece holding.old given.now) }
{
    for piece in given {
        holding.add(piece.day, piece.mils, piece.cost, piece.free)?;
    }
    Ok(())
}
