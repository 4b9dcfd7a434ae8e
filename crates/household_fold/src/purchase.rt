//! A purchase: its rate, its split, its lot, and what an open letter makes of it.
ghost use Rattle.std.specs.Prelude.{◌≡◌, ◌<◌, ◌≤◌, IfOk, OnOk, false, true, ℕ};
ghost use Rattle.register_machine.specs.replay.Positions.{has_room, with_holding};
ghost use Rattle.letter_of_intent.specs.Letters.{IsLetter, note_of_purchase};
ghost use Rattle.offering_price.specs.Accumulation.{bracket};
ghost use Rattle.register_machine.specs.replay.Purchase.{amount_rated, day_after_reaching, day_if_reached, position_after_note};
ghost use Rattle.share_lots.specs.Lots.{HasLoose, shares_added};
ghost use Rattle.household_fold.specs.Facts.{FactsFit, IsListed, sheet_at_hand};
ghost use Rattle.household_fold.specs.Limits.{AreFew, AreLettersWithin, AreLotsWithin};
ghost use Rattle.household_fold.specs.Purchases.{day_by_split, day_with_purchase, lot_bought, position_in, purchase_known, rate_known, trade_of_purchase};
ghost use Rattle.register_machine.specs.pricing.OrderClasses.{class_of};

use crate::credits::credit_of;
use crate::facts::Facts;
use crate::made_trades::{class_number, order_trade, plain_trade};
use crate::reads::{has_room, letter_of};
use agent_events::{Amount, Order, Trade, TradeKind, Why};
use class_terms::Bracket;
use fund_calendar::Day;
use household_positions::{HeldPosition, HouseholdDay};
use letter_of_intent::Letter;
use money_units::{Bps, Cents, NoMemory};
use offering_price::{Split, bracket, buy_split};
use std::alloc::Global;

/// A purchase for so much money, the load within it.
pub(crate) fn day_after_purchase(
    alloc: Global,
    facts: &Facts,
    day: &mut HouseholdDay,
    order: &Order,
    gross: &Amount,
) -> Result<(), NoMemory>
    requires facts { FactsFit facts.now }
    requires listed { IsListed facts.now (class_of order.now.body) }
    requires few { AreFew day.old.register }
    requires letters { AreLettersWithin day.old.register }
    requires lots { AreLotsWithin (purchase_known facts.now day.old order.now gross.now).register }
    ensures day { OnOk result (day.new ≡ purchase_known facts.now day.old order.now gross.now) }
    ensures within { OnOk result (AreLettersWithin day.new.register) }
{
    let rate = rate_of_purchase(facts, day, order, gross);
    let nav = facts.nav(class_number(&order.body));
    match buy_split(Cents(gross.cents()), nav, rate) {
        Some(split) => {
            day_by_split(alloc, facts, day, order, gross, &split)?;
            Ok(())
        }
        None => {
            day.add_unfilled(&order_trade(facts, order, TradeKind::Buy), Why::TooSmall)?;
            Ok(())
        }
    }
}

// The rate of a purchase in basis points: that of the gross and the credit together, or of an open letter's amount.
fn rate_of_purchase(facts: &Facts, day: &HouseholdDay, order: &Order, gross: &Amount) -> Bps
    requires facts { FactsFit facts.now }
    requires listed { IsListed facts.now (class_of order.now.body) }
    requires few { AreFew day.now.register }
    ensures rate { result ≡ rate_known facts.now day.now order.now gross.now }
    ensures ceiling { result ≤ 850 }
{
    let account = order.account.number();
    let class = class_number(&order.body);
    let terms = facts.terms_of(class);
    if has_one_rate(terms.front().as_slice()) {
        return bracket(terms, u128::from(gross.cents()));
    }
    let letter = letter_of(day.register(), account, class);
    let credit = credit_of(facts, day.register().positions(), account);
    bracket(
        terms,
        amount_rated(letter, u128::from(gross.cents()) + credit),
    )
}

// Whether a table of loads has one rate for all amounts.
fn has_one_rate(rows: &[Bracket]) -> bool
    ensures { result ≡ true → (a b : ℕ) → bracket rows.now a ≡ bracket rows.now b }
{
    match rows {
        [row] => row.floor.0 == 0,
        _ => false,
    }
}

fn amount_rated(letter: Option<Letter>, amount: u128) -> u128
    ensures { result ≡ amount_rated letter amount }
{
    match letter {
        Some(letter) => u128::from(letter.amount.0).max(amount),
        None => amount,
    }
}

// The purchase at its split: unfilled where the position would pass its ceiling.
fn day_by_split(
    alloc: Global,
    facts: &Facts,
    day: &mut HouseholdDay,
    order: &Order,
    gross: &Amount,
    split: &Split,
) -> Result<(), NoMemory>
    requires facts { FactsFit facts.now }
    requires mils { 1 ≤ split.now.mils }
    requires price { 1 ≤ split.now.price }
    requires letters { AreLettersWithin day.old.register }
    requires lots { AreLotsWithin
        (day_by_split facts.now day.old order.now gross.now split.now).register }
    ensures day { OnOk result (day.new
        ≡ day_by_split facts.now day.old order.now gross.now split.now) }
    ensures within { OnOk result (AreLettersWithin day.new.register) }
{
    let account = order.account.number();
    let class = class_number(&order.body);
    if has_room(
        day.register(),
        account,
        class,
        split.mils,
        Cents(gross.cents()),
    ) {
        day_with_purchase(alloc, facts, day, order, gross, split)?;
        Ok(())
    } else {
        day.add_unfilled(&order_trade(facts, order, TradeKind::Buy), Why::Ceiling)?;
        Ok(())
    }
}

// The trade of a purchase that is filled.
fn trade_of_purchase(facts: &Facts, order: &Order, gross: &Amount, split: &Split) -> Trade
    requires { FactsFit facts.now }
    ensures { result ≡ trade_of_purchase facts.now order.now gross.now split.now }
{
    let mut trade = order_trade(facts, order, TradeKind::Buy);
    trade.price = split.price;
    trade.mils = split.mils;
    trade.cash = Cents(gross.cents());
    trade.charge = split.charge;
    trade
}

// The purchase with room for it: its lot, and what an open letter makes of it.
fn day_with_purchase(
    alloc: Global,
    facts: &Facts,
    day: &mut HouseholdDay,
    order: &Order,
    gross: &Amount,
    split: &Split,
) -> Result<(), NoMemory>
    requires facts { FactsFit facts.now }
    requires mils { 1 ≤ split.now.mils }
    requires price { 1 ≤ split.now.price }
    requires room { has_room (position_in day.old order.now).holding split.now.mils gross.now
        ≡ true }
    requires letters { AreLettersWithin day.old.register }
    requires lots { AreLotsWithin
        (day_with_purchase facts.now day.old order.now gross.now split.now).register }
    ensures day { OnOk result (day.new
        ≡ day_with_purchase facts.now day.old order.now gross.now split.now) }
    ensures within { OnOk result (AreLettersWithin day.new.register) }
{
    let account = order.account.number();
    let class = class_number(&order.body);
    let letter = letter_of(day.register(), account, class);
    let trade = trade_of_purchase(facts, order, gross, split);
    let position = day.take_out(alloc, account, class)?;
    let (bought, number) = position_with_lot(position, facts.day(), gross, split)?;
    match letter {
        Some(letter) => {
            let (kept, reached) = position_after_note(bought, number, letter, gross, split)?;
            day.close_trade(kept, &trade)?;
            day_if_reached(alloc, facts, day, order, reached)?;
            Ok(())
        }
        None => {
            day.close_trade(bought, &trade)?;
            Ok(())
        }
    }
}

// The position with the lot of a purchase, and the lot's number.
fn position_with_lot(
    position: HeldPosition,
    day: Day,
    gross: &Amount,
    split: &Split,
) -> Result<(HeldPosition, u32), NoMemory>
    requires mils { 1 ≤ split.now.mils }
    requires room { has_room position.holding split.now.mils gross.now ≡ true }
    requires next { position.holding.next_lot < 4294967295 }
    ensures lot { IfOk result (λ bought. bought.0
        ≡ with_holding position
        (shares_added position.holding day split.now.mils gross.now false).holding) }
    ensures number { IfOk result (λ bought. bought.1
        ≡ (shares_added position.holding day split.now.mils gross.now false).number) }
    ensures loose { IfOk result (λ bought. HasLoose bought.0.holding.lots bought.1 split.now.mils) }
{
    let mut position = position;
    let number = position
        .holding
        .add(day, split.mils, Cents(gross.cents()), false)?;
    Ok((position, number))
}

// The position with the new lot after an open letter noted the purchase, and whether the letter is reached.
fn position_after_note(
    position: HeldPosition,
    number: u32,
    letter: Letter,
    gross: &Amount,
    split: &Split,
) -> Result<(HeldPosition, bool), NoMemory>
    requires letter { IsLetter letter }
    requires price { 1 ≤ split.now.price }
    requires loose { HasLoose position.holding.lots number split.now.mils }
    ensures kept { IfOk result (λ noted. noted.0
        ≡ position_after_note position (record { number = number; holding = position.holding })
        letter gross.now split.now) }
    ensures reached { IfOk result (λ noted. noted.1
        ≡ (note_of_purchase letter gross.now split.now.price split.now.mils).reached) }
{
    let mut position = position;
    let mut letter = letter;
    let noted = letter.note_purchase(Cents(gross.cents()), split.price, split.mils);
    position.holding.hold(number, noted.hold)?;
    position.letter = Some(letter);
    Ok((position, noted.reached))
}

// The letter ends where it is reached.
fn day_if_reached(
    alloc: Global,
    facts: &Facts,
    day: &mut HouseholdDay,
    order: &Order,
    reached: bool,
) -> Result<(), NoMemory>
    requires { FactsFit facts.now }
    ensures { OnOk result (day.new
        ≡ day_if_reached reached (sheet_at_hand facts.now)
        (position_in day.old order.now) day.old) }
{
    if reached {
        day_after_reaching(alloc, facts, day, order)?;
        Ok(())
    } else {
        Ok(())
    }
}

// A letter that is reached ends: all held mils become loose.
fn day_after_reaching(
    alloc: Global,
    facts: &Facts,
    day: &mut HouseholdDay,
    order: &Order,
) -> Result<(), NoMemory>
    requires { FactsFit facts.now }
    ensures { OnOk result (day.new
        ≡ day_after_reaching (sheet_at_hand facts.now) (position_in day.old order.now) day.old) }
{
    let account = order.account.number();
    let class = class_number(&order.body);
    let trade = plain_trade(facts, account, class, TradeKind::LetterReached);
    let mut position = day.take_out(alloc, account, class)?;
    position.holding.release()?;
    position.letter = None;
    day.close_trade(position, &trade)?;
    Ok(())
}
