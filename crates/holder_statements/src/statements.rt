//! The statement of an account.
ghost use Rattle.std.specs.Prelude.{◌≡◌, ◌++◌, ◌∷◌, [], codes, IfOk, OnOk};
ghost use Rattle.agent_events.specs.AnswerTexts.{day_text};
ghost use Rattle.money_units.specs.Texts.{number_text};
ghost use Rattle.register_machine.specs.queries.Statement.{heading, line_text, statement_text};
ghost use Rattle.holder_statements.specs.Holdings.{AreListed, book_of_tables};
ghost use Rattle.holder_statements.specs.Periods.{AreDated};

use crate::holdings::add_holdings;
use crate::periods::add_trades;
use crate::words::{add_day, add_word, end_line};
use agent_events::{StatementForm, Trade};
use class_terms::TermsTable;
use forward_price::PriceBook;
use household_fold::HouseholdState;
use money_units::{Bytes, NoMemory, print_number};
use std::alloc::Global;

/// The statement of an account over a period, for a holder with this name: its trades that are dated from the first day to
/// the last one, and its holdings after all sheets, in lines that end with a line feed.
///
/// The state is that of the account's household after all sheets, and the trades are the household's, in the order of their
/// sheets. The prices are those of the corrected book, and the terms stand by rising class. After `NoMemory` there is no text.
pub fn statement(
    alloc: Global,
    state: &HouseholdState,
    trades: &[Trade],
    prices: &PriceBook,
    terms: &TermsTable,
    form: &StatementForm,
    name: &[u8],
) -> Result<Bytes, NoMemory>
    requires listed { AreListed terms.now form.now.account state.now.register }
    requires dated { AreDated trades.now }
    ensures text { IfOk result (λ text. text
        ≡ statement_text (book_of_tables prices.now.table terms.now) form.now name.now
        (record { register = state.now.register; trades = trades.now })) }
{
    let mut out = Vec::new(alloc);
    add_heading(&mut out, form, name)?;
    add_trades(&mut out, trades, form)?;
    add_plain_line(&mut out, b"HOLDINGS")?;
    add_holdings(&mut out, state, prices, terms, form.account.number())?;
    add_plain_line(&mut out, b"END")?;
    Ok(Bytes::from_vec(out))
}

fn add_heading(out: &mut Vec<u8>, form: &StatementForm, name: &[u8]) -> Result<(), NoMemory>
    ensures { OnOk result (out.new.items ≡ out.old.items ++ heading form.now name.now) }
{
    add_title(out, form, name)?;
    add_period(out, form)?;
    Ok(())
}

#[tactic(auto, using(crate::proofs::WordLines::line_of))]
fn add_title(out: &mut Vec<u8>, form: &StatementForm, name: &[u8]) -> Result<(), NoMemory>
    ensures { OnOk result
        (out.new.items
        ≡ out.old.items
        ++ line_text (codes "STATEMENT" ∷ number_text form.now.account ∷ name.now ∷ [])) }
{
    out.extend_from_slice(b"STATEMENT ")?;
    print_number(u64::from(form.account.number()), out)?;
    add_word(out, name)?;
    end_line(out)?;
    Ok(())
}

fn add_period(out: &mut Vec<u8>, form: &StatementForm) -> Result<(), NoMemory>
    ensures { OnOk result
        (out.new.items
        ≡ out.old.items
        ++ line_text (codes "PERIOD" ∷ day_text form.now.first ∷ day_text form.now.last ∷ [])) }
{
    out.extend_from_slice(b"PERIOD")?;
    add_day(out, &form.first)?;
    add_day(out, &form.last)?;
    end_line(out)?;
    Ok(())
}

fn add_plain_line(out: &mut Vec<u8>, word: &[u8]) -> Result<(), NoMemory>
    ensures { OnOk result (out.new.items ≡ out.old.items ++ line_text (word.now ∷ [])) }
{
    out.extend_from_slice(word)?;
    end_line(out)?;
    Ok(())
}
