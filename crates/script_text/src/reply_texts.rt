//! The texts of which replies are made: numbers, money, shares, dates and lists.
ghost use Rattle.std.specs.Prelude.{◌≡◌, map, IfOk};
ghost use Rattle.money_units.specs.Texts.{money_text, number_text, shares_text, signed_text};
ghost use Rattle.agent_events.specs.AnswerTexts.{class_books_text, dealer_books_text, gain_text, list_text, position_text};

use crate::rows::Fields;
use agent_events::{ClassBooks, ClassGain, DealerBooks, PositionText};
use money_units::{Bytes, NoMemory, print_cents, print_mils, print_number, print_signed};
use std::alloc::Global;

pub(crate) fn number_of(alloc: Global, number: u64) -> Result<Vec<u8>, NoMemory>
    ensures { IfOk result (λ text. text.items ≡ number_text number) }
{
    let mut text = Vec::new(alloc);
    print_number(number, &mut text)?;
    Ok(text)
}

pub(crate) fn money_of(alloc: Global, cents: u128) -> Result<Vec<u8>, NoMemory>
    ensures { IfOk result (λ text. text.items ≡ money_text cents) }
{
    let mut text = Vec::new(alloc);
    print_cents(cents, &mut text)?;
    Ok(text)
}

pub(crate) fn shares_of(alloc: Global, mils: u128) -> Result<Vec<u8>, NoMemory>
    ensures { IfOk result (λ text. text.items ≡ shares_text mils) }
{
    let mut text = Vec::new(alloc);
    print_mils(mils, &mut text)?;
    Ok(text)
}

pub(crate) fn signed_of(alloc: Global, cents: i128) -> Result<Vec<u8>, NoMemory>
    ensures { IfOk result (λ text. text.items ≡ signed_text cents) }
{
    let mut text = Vec::new(alloc);
    print_signed(cents, &mut text)?;
    Ok(text)
}

// ---- lists, their items with one space between them

fn spaced(alloc: Global, items: &Fields) -> Result<Vec<u8>, NoMemory>
    ensures { IfOk result (λ text. text.items ≡ list_text items.now) }
{
    let mut text = Vec::new(alloc);
    let texts = items.as_slice();
    for (i, item) in texts.iter().enumerate() {
        if i > 0 {
            text.push(b' ')?;
        }
        text.extend_from_slice(item.as_slice())?;
    }
    Ok(text)
}

pub(crate) fn positions_of(alloc: Global, positions: &[PositionText]) -> Result<Vec<u8>, NoMemory>
    ensures { IfOk result (λ text. text.items ≡ list_text (map position_text positions.now)) }
{
    let mut items = Fields::new(alloc);
    for position in positions {
        items.push(Bytes::from_vec(position_text(alloc, position)?))?;
    }
    spaced(alloc, &items)
}

// `class:loose:held:cost`
fn position_text(alloc: Global, position: &PositionText) -> Result<Vec<u8>, NoMemory>
    ensures { IfOk result (λ text. text.items ≡ position_text position.now) }
{
    let mut text = Vec::new(alloc);
    print_number(position.class.number() as u64, &mut text)?;
    text.push(b':')?;
    print_mils(position.loose.0 as u128, &mut text)?;
    text.push(b':')?;
    print_mils(position.held.0 as u128, &mut text)?;
    text.push(b':')?;
    print_cents(position.cost.0 as u128, &mut text)?;
    Ok(text)
}

pub(crate) fn gains_of(alloc: Global, gains: &[ClassGain]) -> Result<Vec<u8>, NoMemory>
    ensures { IfOk result (λ text. text.items ≡ list_text (map gain_text gains.now)) }
{
    let mut items = Fields::new(alloc);
    for gain in gains {
        items.push(Bytes::from_vec(gain_text(alloc, gain)?))?;
    }
    spaced(alloc, &items)
}

// `class:signed money`
fn gain_text(alloc: Global, gain: &ClassGain) -> Result<Vec<u8>, NoMemory>
    ensures { IfOk result (λ text. text.items ≡ gain_text gain.now) }
{
    let mut text = Vec::new(alloc);
    print_number(gain.class.number() as u64, &mut text)?;
    text.push(b':')?;
    print_signed(gain.cents, &mut text)?;
    Ok(text)
}

pub(crate) fn class_books_of(alloc: Global, classes: &[ClassBooks]) -> Result<Vec<u8>, NoMemory>
    ensures { IfOk result (λ text. text.items ≡ list_text (map class_books_text classes.now)) }
{
    let mut items = Fields::new(alloc);
    for class in classes {
        items.push(Bytes::from_vec(class_books_text(alloc, class)?))?;
    }
    spaced(alloc, &items)
}

// `class:outstanding:cash`
fn class_books_text(alloc: Global, class: &ClassBooks) -> Result<Vec<u8>, NoMemory>
    ensures { IfOk result (λ text. text.items ≡ class_books_text class.now) }
{
    let mut text = Vec::new(alloc);
    print_number(class.class.number() as u64, &mut text)?;
    text.push(b':')?;
    print_mils(class.outstanding, &mut text)?;
    text.push(b':')?;
    print_signed(class.cash, &mut text)?;
    Ok(text)
}

pub(crate) fn dealer_books_of(alloc: Global, dealers: &[DealerBooks]) -> Result<Vec<u8>, NoMemory>
    ensures { IfOk result (λ text. text.items ≡ list_text (map dealer_books_text dealers.now)) }
{
    let mut items = Fields::new(alloc);
    for dealer in dealers {
        items.push(Bytes::from_vec(dealer_books_text(alloc, dealer)?))?;
    }
    spaced(alloc, &items)
}

// `dealer:cash`
fn dealer_books_text(alloc: Global, dealer: &DealerBooks) -> Result<Vec<u8>, NoMemory>
    ensures { IfOk result (λ text. text.items ≡ dealer_books_text dealer.now) }
{
    let mut text = Vec::new(alloc);
    print_number(dealer.dealer.number() as u64, &mut text)?;
    text.push(b':')?;
    print_signed(dealer.cash, &mut text)?;
    Ok(text)
}
