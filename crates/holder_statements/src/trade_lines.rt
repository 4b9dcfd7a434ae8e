//! The line of a trade, by its kind.
ghost use Rattle.std.specs.Prelude.{◌≡◌, ◌++◌, ◌∷◌, [], codes, OnOk};
ghost use Rattle.agent_events.specs.declared.trade.Outcome.{Outcome};
ghost use Rattle.agent_events.specs.declared.trade.TradeKind.{TradeKind};
ghost use Rattle.register_machine.specs.queries.Statement.{buy_words, class_words, dividend_words, exchange_words, filled_words, letter_end_words, letter_words, reference_words, sell_words, trade_line, trade_words};
ghost use Rattle.holder_statements.specs.Words.{with_words};

use crate::trade_fields::{
    add_cash, add_charge, add_class, add_due, add_order, add_paid, add_price, add_target,
    add_trade_shares, add_why,
};
use crate::words::{add_word, begin_with_day, end_line};
use agent_events::{Outcome, Trade, TradeKind, Why};
use money_units::NoMemory;

/// Appends the line of a trade: its date, its kind and its fields.
pub(crate) fn add_trade_line(out: &mut Vec<u8>, trade: &Trade) -> Result<(), NoMemory>
    ensures { OnOk result (out.new.items ≡ out.old.items ++ trade_line trade.now) }
{
    begin_with_day(out, &trade.day)?;
    add_trade(out, trade)?;
    end_line(out)?;
    Ok(())
}

// The words behind the date.
fn add_trade(out: &mut Vec<u8>, trade: &Trade) -> Result<(), NoMemory>
    ensures { OnOk result
        (out.new.items ≡ with_words out.old.items (trade_words trade.now trade.now.outcome)) }
{
    match &trade.outcome {
        Outcome::Filled => add_filled(out, trade)?,
        Outcome::Unfilled(why) => add_unfilled(out, trade, why)?,
    }
    Ok(())
}

fn add_unfilled(out: &mut Vec<u8>, trade: &Trade, why: &Why) -> Result<(), NoMemory>
    ensures { OnOk result
        (out.new.items
        ≡ with_words out.old.items (trade_words trade.now (Outcome.Unfilled why.now))) }
{
    add_word(out, b"unfilled")?;
    add_order(out, trade)?;
    add_why(out, why)?;
    Ok(())
}

fn add_filled(out: &mut Vec<u8>, trade: &Trade) -> Result<(), NoMemory>
    ensures { OnOk result
        (out.new.items ≡ with_words out.old.items (filled_words trade.now.kind trade.now)) }
{
    match trade.kind {
        TradeKind::Buy => add_buy(out, trade)?,
        TradeKind::Sell => add_sell(out, trade)?,
        TradeKind::Exchange => add_exchange(out, trade)?,
        TradeKind::Letter => add_letter(out, trade)?,
        TradeKind::LetterReached => add_letter_reached(out, trade)?,
        TradeKind::LetterEnded => add_letter_end(out, trade)?,
        TradeKind::ElectCash => add_election(out, trade, b"cash")?,
        TradeKind::ElectShares => add_election(out, trade, b"shares")?,
        TradeKind::DividendShares => add_dividend_shares(out, trade)?,
        TradeKind::DividendCash => add_dividend_cash(out, trade)?,
    }
    Ok(())
}

fn add_buy(out: &mut Vec<u8>, trade: &Trade) -> Result<(), NoMemory>
    ensures { OnOk result (out.new.items ≡ with_words out.old.items (buy_words trade.now)) }
{
    add_word(out, b"buy")?;
    add_order(out, trade)?;
    add_cash(out, b"gross", trade)?;
    add_price(out, b"price", trade)?;
    add_trade_shares(out, trade)?;
    add_charge(out, b"charge", trade)?;
    Ok(())
}

fn add_sell(out: &mut Vec<u8>, trade: &Trade) -> Result<(), NoMemory>
    ensures { OnOk result (out.new.items ≡ with_words out.old.items (sell_words trade.now)) }
{
    add_word(out, b"sell")?;
    add_order(out, trade)?;
    add_trade_shares(out, trade)?;
    add_price(out, b"nav", trade)?;
    add_cash(out, b"value", trade)?;
    add_charge(out, b"charge", trade)?;
    add_paid(out, trade)?;
    Ok(())
}

fn add_exchange(out: &mut Vec<u8>, trade: &Trade) -> Result<(), NoMemory>
    ensures { OnOk result (out.new.items ≡ with_words out.old.items (exchange_words trade.now)) }
{
    add_word(out, b"exchange")?;
    add_order(out, trade)?;
    add_trade_shares(out, trade)?;
    add_cash(out, b"value", trade)?;
    add_target(out, trade)?;
    Ok(())
}

fn add_letter(out: &mut Vec<u8>, trade: &Trade) -> Result<(), NoMemory>
    ensures { OnOk result (out.new.items ≡ with_words out.old.items (letter_words trade.now)) }
{
    add_word(out, b"letter")?;
    add_order(out, trade)?;
    add_cash(out, b"amount", trade)?;
    Ok(())
}

fn add_letter_reached(out: &mut Vec<u8>, trade: &Trade) -> Result<(), NoMemory>
    ensures { OnOk result
        (out.new.items
        ≡ with_words out.old.items (codes "letter" ∷ codes "reached" ∷ class_words trade.now)) }
{
    add_word(out, b"letter")?;
    add_word(out, b"reached")?;
    add_class(out, trade)?;
    Ok(())
}

fn add_letter_end(out: &mut Vec<u8>, trade: &Trade) -> Result<(), NoMemory>
    ensures { OnOk result (out.new.items ≡ with_words out.old.items (letter_end_words trade.now)) }
{
    add_word(out, b"letter")?;
    add_word(out, b"ended")?;
    add_class(out, trade)?;
    add_due(out, trade)?;
    add_trade_shares(out, trade)?;
    add_cash(out, b"paid", trade)?;
    add_charge(out, b"waived", trade)?;
    Ok(())
}

fn add_election(out: &mut Vec<u8>, trade: &Trade, elected: &[u8]) -> Result<(), NoMemory>
    ensures { OnOk result
        (out.new.items
        ≡ with_words out.old.items
        (codes "elect" ∷ reference_words trade.now ++ class_words trade.now ++ elected.now ∷ [])) }
{
    add_word(out, b"elect")?;
    add_order(out, trade)?;
    add_word(out, elected)?;
    Ok(())
}

fn add_dividend_shares(out: &mut Vec<u8>, trade: &Trade) -> Result<(), NoMemory>
    ensures { OnOk result (out.new.items ≡ with_words out.old.items (dividend_words trade.now)) }
{
    add_word(out, b"dividend")?;
    add_class(out, trade)?;
    add_cash(out, b"amount", trade)?;
    add_price(out, b"nav", trade)?;
    add_trade_shares(out, trade)?;
    Ok(())
}

fn add_dividend_cash(out: &mut Vec<u8>, trade: &Trade) -> Result<(), NoMemory>
    ensures { OnOk result
        (out.new.items
        ≡ with_words out.old.items (filled_words TradeKind.DividendCash trade.now)) }
{
    add_word(out, b"dividend")?;
    add_class(out, trade)?;
    add_cash(out, b"amount", trade)?;
    add_word(out, b"cash")?;
    Ok(())
}
