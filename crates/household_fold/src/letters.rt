//! Letters of intent on a sheet: those that end by date, and one that begins.
ghost use Rattle.std.specs.Prelude.{◌≡◌, All, IfOk, OnOk, fold};
ghost use Rattle.letter_of_intent.specs.Letters.{IsLetter};
ghost use Rattle.register_machine.specs.pricing.OrderClasses.{class_of};
ghost use Rattle.register_machine.specs.replay.Letter.{day_after_end_of, day_after_letter_end, day_after_letter_ends, keys_of_letters_over, letter_end_trade};
ghost use Rattle.register_machine.specs.replay.Positions.{fresh_position, position_at};
ghost use Rattle.household_fold.specs.Facts.{FactsFit, IsListed, book_of_facts, sheet_at_hand};
ghost use Rattle.household_fold.specs.Limits.{AreFew, AreLettersWithin};
ghost use Rattle.household_fold.specs.Purchases.{day_with_letter, letter_known};

use crate::credits::credit_of;
use crate::facts::Facts;
use crate::made_trades::{class_number, order_trade, plain_trade};
use crate::reads::letter_of;
use agent_events::{Amount, Order, Trade, TradeKind, Why};
use household_positions::{HouseholdDay, PositionKey, PositionKeys};
use letter_of_intent::{Letter, Settlement};
use money_units::{Cents, NoMemory};
use std::alloc::Global;

/// A letter of intent for so much money begins, unless one is open.
pub(crate) fn day_after_letter(
    alloc: Global,
    facts: &Facts,
    day: &mut HouseholdDay,
    order: &Order,
    amount: &Amount,
) -> Result<(), NoMemory>
    requires facts { FactsFit facts.now }
    requires listed { IsListed facts.now (class_of order.now.body) }
    requires few { AreFew day.old.register }
    requires letters { AreLettersWithin day.old.register }
    ensures day { OnOk result (day.new ≡ letter_known facts.now day.old order.now amount.now) }
    ensures within { OnOk result (AreLettersWithin day.new.register) }
{
    let letter = letter_of(
        day.register(),
        order.account.number(),
        class_number(&order.body),
    );
    if letter.is_some() {
        day.add_unfilled(
            &order_trade(facts, order, TradeKind::Letter),
            Why::LetterOpen,
        )?;
        Ok(())
    } else {
        day_with_letter(alloc, facts, day, order, amount)?;
        Ok(())
    }
}

// The letter that begins where none is open.
fn day_with_letter(
    alloc: Global,
    facts: &Facts,
    day: &mut HouseholdDay,
    order: &Order,
    amount: &Amount,
) -> Result<(), NoMemory>
    requires facts { FactsFit facts.now }
    requires listed { IsListed facts.now (class_of order.now.body) }
    requires few { AreFew day.old.register }
    requires letters { AreLettersWithin day.old.register }
    ensures day { OnOk result (day.new ≡ day_with_letter facts.now day.old order.now amount.now) }
    ensures within { OnOk result (AreLettersWithin day.new.register) }
{
    let account = order.account.number();
    let class = class_number(&order.body);
    let start = credit_of(facts, day.register().positions(), account);
    let letter = Letter::begin(
        Cents(amount.cents()),
        facts.day(),
        start,
        facts.terms_of(class),
    );
    let mut trade = order_trade(facts, order, TradeKind::Letter);
    trade.cash = Cents(amount.cents());
    let mut position = day.take_out(alloc, account, class)?;
    position.letter = Some(letter);
    day.close_trade(position, &trade)?;
    Ok(())
}

/// The letters that end by date on the sheet at hand: the load that each is short of is paid of its held mils, as far as they
/// go, and the others become loose.
pub(crate) fn day_after_letter_ends(
    alloc: Global,
    facts: &Facts,
    day: &mut HouseholdDay,
) -> Result<(), NoMemory>
    requires facts { FactsFit facts.now }
    requires letters { AreLettersWithin day.old.register }
    ensures day { OnOk result (day.new
        ≡ day_after_letter_ends (book_of_facts facts.now) (sheet_at_hand facts.now) day.old) }
    ensures within { OnOk result (AreLettersWithin day.new.register) }
{
    let keys = keys_of_letters_over(alloc, facts, day)?;
    day_after_ends_of(alloc, facts, day, keys.as_slice())?;
    Ok(())
}

// The keys of the positions whose letter is over.
fn keys_of_letters_over(
    alloc: Global,
    facts: &Facts,
    day: &HouseholdDay,
) -> Result<PositionKeys, NoMemory>
    requires { FactsFit facts.now }
    ensures keys { IfOk result (λ keys. keys
        ≡ keys_of_letters_over (sheet_at_hand facts.now) day.now.register) }
    ensures listed { IfOk result (λ keys. All (λ key. IsListed facts.now key.class) keys) }
{
    let keys = day
        .register()
        .keys_of_letters_over(alloc, facts.published())?;
    Ok(keys)
}

// The letters of these keys end.
fn day_after_ends_of(
    alloc: Global,
    facts: &Facts,
    day: &mut HouseholdDay,
    keys: &[PositionKey],
) -> Result<(), NoMemory>
    requires facts { FactsFit facts.now }
    requires listed { All (λ key. IsListed facts.now key.class) keys.now }
    requires letters { AreLettersWithin day.old.register }
    ensures day { OnOk result (day.new
        ≡ fold (day_after_letter_end (book_of_facts facts.now)
        (sheet_at_hand facts.now)) day.old keys.now) }
    ensures within { OnOk result (AreLettersWithin day.new.register) }
{
    for key in keys {
        day_after_letter_end(alloc, facts, day, key)?;
    }
    Ok(())
}

// The letter of a key's position ends, where one is open.
fn day_after_letter_end(
    alloc: Global,
    facts: &Facts,
    day: &mut HouseholdDay,
    key: &PositionKey,
) -> Result<(), NoMemory>
    requires facts { FactsFit facts.now }
    requires listed { IsListed facts.now key.now.class }
    requires letters { AreLettersWithin day.old.register }
    ensures day { OnOk result (day.new
        ≡ day_after_letter_end (book_of_facts facts.now)
        (sheet_at_hand facts.now) day.old key.now) }
    ensures within { OnOk result (AreLettersWithin day.new.register) }
{
    match letter_of(day.register(), key.account, key.class) {
        Some(letter) => {
            day_after_settlement(alloc, facts, day, key, &letter)?;
            Ok(())
        }
        None => Ok(()),
    }
}

// An open letter ends: the load that is missing is paid of the held mils, and the others become loose.
fn day_after_settlement(
    alloc: Global,
    facts: &Facts,
    day: &mut HouseholdDay,
    key: &PositionKey,
    letter: &Letter,
) -> Result<(), NoMemory>
    requires facts { FactsFit facts.now }
    requires listed { IsListed facts.now key.now.class }
    requires letter { IsLetter letter.now }
    requires letters { AreLettersWithin day.old.register }
    ensures day { OnOk result (day.new
        ≡ day_after_end_of (book_of_facts facts.now) (sheet_at_hand facts.now) day.old
        (position_at day.old.register key.now) (Some letter.now)) }
    ensures within { OnOk result (AreLettersWithin day.new.register) }
{
    let mut position = day.take_out(alloc, key.account, key.class)?;
    let held = position.holding.held();
    let settled = letter.settle(facts.terms_of(key.class), facts.nav(key.class), held);
    position.holding.pay_held(settled.paid)?;
    position.holding.release()?;
    position.letter = None;
    let trade = letter_end_trade(facts, key, &settled);
    day.close_trade(position, &trade)?;
    Ok(())
}

// The trade of a letter that ends by date.
fn letter_end_trade(facts: &Facts, key: &PositionKey, settled: &Settlement) -> Trade
    requires facts { FactsFit facts.now }
    requires listed { IsListed facts.now key.now.class }
    ensures { result ≡ letter_end_trade (sheet_at_hand facts.now)
        (fresh_position key.now.account key.now.class) settled.now }
{
    let mut trade = plain_trade(facts, key.account, key.class, TradeKind::LetterEnded);
    trade.price = Cents(facts.nav(key.class).cents());
    trade.mils = settled.paid;
    trade.cash = settled.cash;
    trade.charge = settled.waived;
    trade
}
