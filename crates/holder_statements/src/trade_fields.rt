//! The fields of a trade, as words of its line.
ghost use Rattle.std.specs.Prelude.{◌≡◌, ◌++◌, ◌+◌, ◌-◌, ◌∷◌, [], codes, OnOk};
ghost use Rattle.agent_events.specs.AnswerTexts.{state_text};
ghost use Rattle.money_units.specs.Texts.{money_text, number_text, shares_text};
ghost use Rattle.register_machine.specs.queries.Statement.{class_words, reference_words};
ghost use Rattle.register_machine.specs.queries.Trace.{state_by};
ghost use Rattle.holder_statements.specs.Words.{with_words};

use crate::words::{add_money, add_number, add_shares, add_word};
use agent_events::{Trade, Why};
use money_units::NoMemory;

/// Appends the reference of the trade's order.
pub(crate) fn add_reference(out: &mut Vec<u8>, trade: &Trade) -> Result<(), NoMemory>
    ensures { OnOk result (out.new.items ≡ with_words out.old.items (reference_words trade.now)) }
{
    add_number(out, b"ref", trade.ref_no)?;
    Ok(())
}

/// Appends its class.
pub(crate) fn add_class(out: &mut Vec<u8>, trade: &Trade) -> Result<(), NoMemory>
    ensures { OnOk result (out.new.items ≡ with_words out.old.items (class_words trade.now)) }
{
    add_number(out, b"class", u64::from(trade.class))?;
    Ok(())
}

/// Appends the reference of its order, and its class.
pub(crate) fn add_order(out: &mut Vec<u8>, trade: &Trade) -> Result<(), NoMemory>
    ensures { OnOk result
        (out.new.items
        ≡ with_words out.old.items (reference_words trade.now ++ class_words trade.now)) }
{
    add_reference(out, trade)?;
    add_class(out, trade)?;
    Ok(())
}

/// Appends its cash, under a name.
pub(crate) fn add_cash(out: &mut Vec<u8>, name: &[u8], trade: &Trade) -> Result<(), NoMemory>
    ensures { OnOk result
        (out.new.items ≡ with_words out.old.items (name.now ∷ money_text trade.now.cash ∷ [])) }
{
    add_money(out, name, u128::from(trade.cash.0))?;
    Ok(())
}

/// Appends its charge, under a name.
pub(crate) fn add_charge(out: &mut Vec<u8>, name: &[u8], trade: &Trade) -> Result<(), NoMemory>
    ensures { OnOk result
        (out.new.items ≡ with_words out.old.items (name.now ∷ money_text trade.now.charge ∷ [])) }
{
    add_money(out, name, u128::from(trade.charge.0))?;
    Ok(())
}

/// Appends what is paid: its cash less its charge.
pub(crate) fn add_paid(out: &mut Vec<u8>, trade: &Trade) -> Result<(), NoMemory>
    ensures { OnOk result
        (out.new.items
        ≡ with_words out.old.items
        (codes "paid" ∷ money_text (trade.now.cash - trade.now.charge) ∷ [])) }
{
    let paid = trade.cash.0.saturating_sub(trade.charge.0);
    add_money(out, b"paid", u128::from(paid))?;
    Ok(())
}

/// Appends what was due: what was paid and what was waived.
pub(crate) fn add_due(out: &mut Vec<u8>, trade: &Trade) -> Result<(), NoMemory>
    ensures { OnOk result
        (out.new.items
        ≡ with_words out.old.items
        (codes "due" ∷ money_text (trade.now.cash + trade.now.charge) ∷ [])) }
{
    let due = u128::from(trade.cash.0) + u128::from(trade.charge.0);
    add_money(out, b"due", due)?;
    Ok(())
}

/// Appends its price, under a name.
pub(crate) fn add_price(out: &mut Vec<u8>, name: &[u8], trade: &Trade) -> Result<(), NoMemory>
    ensures { OnOk result
        (out.new.items ≡ with_words out.old.items (name.now ∷ money_text trade.now.price ∷ [])) }
{
    add_money(out, name, u128::from(trade.price.0))?;
    Ok(())
}

/// Appends its shares.
pub(crate) fn add_trade_shares(out: &mut Vec<u8>, trade: &Trade) -> Result<(), NoMemory>
    ensures { OnOk result
        (out.new.items
        ≡ with_words out.old.items (codes "shares" ∷ shares_text trade.now.mils ∷ [])) }
{
    add_shares(out, b"shares", u128::from(trade.mils.0))?;
    Ok(())
}

/// Appends the class that an exchange goes to, and the shares got there.
pub(crate) fn add_target(out: &mut Vec<u8>, trade: &Trade) -> Result<(), NoMemory>
    ensures { OnOk result
        (out.new.items
        ≡ with_words out.old.items
        (codes "to" ∷ codes "class" ∷ number_text trade.now.to_class ∷ codes "shares"
        ∷ shares_text trade.now.to_mils ∷ [])) }
{
    add_word(out, b"to")?;
    add_number(out, b"class", u64::from(trade.to_class))?;
    add_shares(out, b"shares", u128::from(trade.to_mils.0))?;
    Ok(())
}

/// Appends the word for why an order is unfilled.
pub(crate) fn add_why(out: &mut Vec<u8>, why: &Why) -> Result<(), NoMemory>
    ensures { OnOk result
        (out.new.items ≡ with_words out.old.items (state_text (state_by why.now) ∷ [])) }
{
    match why {
        Why::Short(_) => add_word(out, b"short")?,
        Why::TooSmall => add_word(out, b"small")?,
        Why::Ceiling => add_word(out, b"ceiling")?,
        Why::LetterOpen => add_word(out, b"letter")?,
    }
    Ok(())
}
