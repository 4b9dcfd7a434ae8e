//! The holdings of an account, a line for each class in which it has lots.
ghost use Rattle.std.specs.Prelude.{◌≡◌, ◌++◌, ◌∷◌, ◌≤◌, [], OnOk};
ghost use Rattle.std.specs.List.{flat_map};
ghost use Rattle.money_units.specs.Texts.{number_text};
ghost use Rattle.register_machine.specs.corrections.Gains.{latest_nav};
ghost use Rattle.register_machine.specs.queries.Show.{positions_of};
ghost use Rattle.register_machine.specs.queries.Statement.{holding_line};
ghost use Rattle.share_lots.specs.Lots.{most_mils};
ghost use Rattle.share_lots.specs.Values.{value_at};
ghost use Rattle.holder_statements.specs.Holdings.{AreListed, book_of_tables, holding_in, line_of_class, line_of_holding, line_of_lots, lot_words, worth_words};
ghost use Rattle.holder_statements.specs.Words.{with_words};

use crate::latest_prices::latest_nav;
use crate::words::{add_money, add_shares, add_word, end_line};
use class_terms::{Terms, TermsTable};
use forward_price::{PriceBook, Sheet};
use household_fold::HouseholdState;
use money_units::{Mils, NoMemory, half, print_number};
use share_lots::Position;

/// Appends the lines of the account's holdings, by class.
pub(crate) fn add_holdings(
    out: &mut Vec<u8>,
    state: &HouseholdState,
    prices: &PriceBook,
    terms: &TermsTable,
    account: u32,
) -> Result<(), NoMemory>
    requires { AreListed terms.now account state.now.register }
    ensures { OnOk result
        (out.new.items
        ≡ out.old.items
        ++ flat_map (holding_line (book_of_tables prices.now.table terms.now))
        (positions_of state.now.register account)) }
{
    add_classes(out, state, prices.sheets(), terms.as_slice(), account)?;
    Ok(())
}

fn add_classes(
    out: &mut Vec<u8>,
    state: &HouseholdState,
    sheets: &[Sheet],
    terms: &[Terms],
    account: u32,
) -> Result<(), NoMemory>
    ensures { OnOk result
        (out.new.items
        ≡ out.old.items
        ++ flat_map
        (λ row. line_of_class sheets.now row (holding_in state.now.register account row.class))
        terms.now) }
{
    for row in terms {
        add_class(out, state, sheets, row, account)?;
    }
    Ok(())
}

fn add_class(
    out: &mut Vec<u8>,
    state: &HouseholdState,
    sheets: &[Sheet],
    terms: &Terms,
    account: u32,
) -> Result<(), NoMemory>
    ensures { OnOk result
        (out.new.items
        ≡ out.old.items
        ++ line_of_class sheets.now terms.now
        (holding_in state.now.register account terms.now.class)) }
{
    match state.position(account, terms.class()) {
        Some(position) => add_lots(out, sheets, terms, position)?,
        None => {}
    }
    Ok(())
}

fn add_lots(
    out: &mut Vec<u8>,
    sheets: &[Sheet],
    terms: &Terms,
    position: &Position,
) -> Result<(), NoMemory>
    ensures { OnOk result
        (out.new.items ≡ out.old.items ++ line_of_lots sheets.now terms.now position.now) }
{
    if !position.is_empty() {
        add_holding(out, terms, latest_nav(sheets, terms.class()), position)?;
    }
    Ok(())
}

fn add_holding(
    out: &mut Vec<u8>,
    terms: &Terms,
    nav: u64,
    position: &Position,
) -> Result<(), NoMemory>
    requires { nav ≤ 10000000 }
    ensures { OnOk result
        (out.new.items
        ≡ out.old.items ++ line_of_holding terms.now.class terms.now.name nav position.now) }
{
    out.extend_from_slice(b"class")?;
    add_name(out, terms)?;
    add_lot_words(out, position)?;
    add_worth(out, nav, position)?;
    end_line(out)?;
    Ok(())
}

// The number and the name of a class.
fn add_name(out: &mut Vec<u8>, terms: &Terms) -> Result<(), NoMemory>
    ensures { OnOk result
        (out.new.items
        ≡ with_words out.old.items (number_text terms.now.class ∷ terms.now.name ∷ [])) }
{
    out.push(b' ')?;
    print_number(u64::from(terms.class()), out)?;
    add_word(out, terms.name().as_slice())?;
    Ok(())
}

fn add_lot_words(out: &mut Vec<u8>, position: &Position) -> Result<(), NoMemory>
    ensures { OnOk result (out.new.items ≡ with_words out.old.items (lot_words position.now)) }
{
    add_shares(out, b"shares", u128::from(position.mils().0))?;
    add_shares(out, b"escrow", u128::from(position.held().0))?;
    add_money(out, b"cost", u128::from(position.cost().0))?;
    Ok(())
}

// The net asset value, and what the lots are worth at it.
fn add_worth(out: &mut Vec<u8>, nav: u64, position: &Position) -> Result<(), NoMemory>
    requires { nav ≤ 10000000 }
    ensures { OnOk result
        (out.new.items ≡ with_words out.old.items (worth_words nav position.now)) }
{
    add_money(out, b"nav", u128::from(nav))?;
    add_money(out, b"value", worth(nav, position.mils()))?;
    Ok(())
}

fn worth(nav: u64, mils: Mils) -> u128
    requires nav { nav ≤ 10000000 }
    requires mils { mils ≤ most_mils }
    ensures { result ≡ value_at nav mils }
{
    half(u128::from(mils.0) * u128::from(nav), 1000)
}
