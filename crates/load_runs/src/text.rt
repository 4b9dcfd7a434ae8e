//! A summary as text.
ghost use Rattle.std.specs.Prelude.{◌≡◌, ◌++◌, codes, flat_map, map, IfOk, OnOk};
ghost use Rattle.load_requests.specs.Summaries.{class_line, count_line, summary_text};
ghost use Rattle.money_units.specs.Texts.{number_text, shares_text, signed_text};
ghost use Rattle.load_runs.specs.Seen.{count_lines, with_line_feed, summary_seen};

use crate::summary::Summary;
use agent_events::{ClassBooks, Identifier};
use money_units::{NoMemory, print_mils, print_number, print_signed};
use std::alloc::Global;

/// Appends a line with a count.
fn put_count(name: &[u8], count: u64, text: &mut Vec<u8>) -> Result<(), NoMemory>
    ensures { OnOk result (text.new.items
        ≡ text.old.items ++ with_line_feed (count_line name.now count)) }
{
    text.extend_from_slice(name)?;
    text.push(b' ')?;
    print_number(count, text)?;
    text.push(b'\n')?;
    Ok(())
}

fn put_class_number(class: Identifier, text: &mut Vec<u8>) -> Result<(), NoMemory>
    ensures { OnOk result (text.new.items
        ≡ text.old.items ++ (codes "class " ++ number_text class)) }
{
    text.extend_from_slice(b"class ")?;
    print_number(class.number() as u64, text)?;
    Ok(())
}

fn put_class_shares(mils: u128, text: &mut Vec<u8>) -> Result<(), NoMemory>
    ensures { OnOk result (text.new.items
        ≡ text.old.items ++ (codes " shares " ++ shares_text mils)) }
{
    text.extend_from_slice(b" shares ")?;
    print_mils(mils, text)?;
    Ok(())
}

fn put_class_cash(books: &ClassBooks, text: &mut Vec<u8>) -> Result<(), NoMemory>
    ensures { OnOk result (text.new.items
        ≡ text.old.items ++ (codes " cash " ++ signed_text books.now.cash)) }
{
    text.extend_from_slice(b" cash ")?;
    print_signed(books.cash, text)?;
    Ok(())
}

/// Appends the line of a class.
fn put_class(books: &ClassBooks, text: &mut Vec<u8>) -> Result<(), NoMemory>
    ensures { OnOk result
        (text.new.items ≡ text.old.items ++ with_line_feed (class_line books.now)) }
{
    put_class_number(books.class, text)?;
    put_class_shares(books.outstanding, text)?;
    put_class_cash(books, text)?;
    text.push(b'\n')?;
    Ok(())
}

/// Appends the lines of classes.
#[tactic(auto, using(crate::proofs::LinesPut::class_lines_more))]
fn put_classes(classes: &[ClassBooks], text: &mut Vec<u8>) -> Result<(), NoMemory>
    ensures { OnOk result (text.new.items
        ≡ text.old.items ++ flat_map with_line_feed (map class_line classes.now)) }
{
    for books in classes {
        put_class(books, text)?;
    }
    Ok(())
}

/// Appends the lines of the counts.
fn put_counts(summary: &Summary, text: &mut Vec<u8>) -> Result<(), NoMemory>
    ensures { OnOk result (text.new.items
        ≡ text.old.items ++ flat_map with_line_feed (count_lines (summary_seen summary.now))) }
{
    put_count(b"events", summary.events, text)?;
    put_count(b"sheets", summary.sheets, text)?;
    put_count(b"refused", summary.refused, text)?;
    put_count(b"filled", summary.filled, text)?;
    put_count(b"unfilled", summary.unfilled, text)?;
    Ok(())
}

/// The text of a summary.
#[tactic(auto, using(crate::proofs::LinesPut::whole_text))]
pub(crate) fn text_of(alloc: Global, summary: &Summary) -> Result<Vec<u8>, NoMemory>
    ensures { IfOk result (λ text. text.items ≡ summary_text (summary_seen summary.now)) }
{
    let mut text = Vec::new(alloc);
    put_counts(summary, &mut text)?;
    put_classes(summary.classes.as_slice(), &mut text)?;
    Ok(text)
}
