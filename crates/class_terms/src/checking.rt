//! What terms are taken, and why others are refused.
ghost use Rattle.std.specs.Prelude.{◌≡◌, None, Some};
ghost use Rattle.class_terms.specs.Tables.{first_broken, breaks_table, front_fault, breaks_schedule, deferred_fault};
ghost use Rattle.class_terms.specs.Checking.{differs_in_family, lesser, family_fault, form_or_fault};

use crate::faults::TermFault;
use crate::form::TermsForm;
use crate::lists::Bracket;
use crate::terms::Terms;
use money_units::Bps;

/// The greatest load, in basis points.
pub const MAX_RATE: u16 = 850;

/// The most rows of a table of front-end loads.
pub const MAX_BRACKETS: usize = 16;

/// The most rows of a schedule of deferred loads.
pub const MAX_SCHEDULE_ROWS: usize = 10;

/// Takes the terms of a class, where `others` are the terms of the classes that are known, or says the first fault in the
/// order front-end loads, deferred loads, family.
pub fn check(form: TermsForm, others: &[Terms]) -> Result<Terms, TermFault>
    ensures { result ≡ form_or_fault form others.now }
{
    if let Some(position) = front_fault(form.front.as_slice()) {
        return Err(TermFault::BadFront(position));
    }
    if let Some(position) = deferred_fault(form.deferred.as_slice()) {
        return Err(TermFault::BadDeferred(position));
    }
    if let Some(class) = family_fault(&form, others) {
        return Err(TermFault::FamilyDiffers(class));
    }
    Ok(Terms::new(form))
}

fn front_fault(rows: &[Bracket]) -> Option<usize>
    ensures { result ≡ front_fault rows.now }
{
    if rows.is_empty() || rows.len() > MAX_BRACKETS {
        return Some(0);
    }
    broken_row(rows)
}

fn broken_row(rows: &[Bracket]) -> Option<usize>
    ensures { result ≡ first_broken breaks_table 0 None rows.now }
{
    let mut before = None;
    for (index, row) in rows.iter().enumerate() {
        if breaks_table(before, *row) {
            return Some(index + 1);
        }
        before = Some(*row);
    }
    None
}

fn breaks_table(before: Option<Bracket>, row: Bracket) -> bool
    ensures { result ≡ breaks_table before row }
{
    match before {
        None => row.floor.0 != 0 || row.rate.0 > MAX_RATE,
        Some(before) => {
            row.floor <= before.floor || row.rate.0 > MAX_RATE || row.rate > before.rate
        }
    }
}

fn deferred_fault(rates: &[Bps]) -> Option<usize>
    ensures { result ≡ deferred_fault rates.now }
{
    if rates.len() > MAX_SCHEDULE_ROWS {
        return Some(0);
    }
    broken_rate(rates)
}

fn broken_rate(rates: &[Bps]) -> Option<usize>
    ensures { result ≡ first_broken breaks_schedule 0 None rates.now }
{
    let mut before = None;
    for (index, rate) in rates.iter().enumerate() {
        if breaks_schedule(before, *rate) {
            return Some(index + 1);
        }
        before = Some(*rate);
    }
    None
}

fn breaks_schedule(before: Option<Bps>, rate: Bps) -> bool
    ensures { result ≡ breaks_schedule before rate }
{
    match before {
        None => rate.0 > MAX_RATE,
        Some(before) => rate.0 > MAX_RATE || rate > before,
    }
}

fn family_fault(form: &TermsForm, others: &[Terms]) -> Option<u32>
    ensures { result ≡ family_fault form.now others.now }
{
    let mut least = None;
    for other in others {
        if differs_in_family(form, other) {
            least = Some(lesser(least, other.class()));
        }
    }
    least
}

fn lesser(least: Option<u32>, class: u32) -> u32
    ensures { lesser least class ≡ Some result }
{
    match least {
        None => class,
        Some(least) => least.min(class),
    }
}

fn differs_in_family(form: &TermsForm, other: &Terms) -> bool
    ensures { result ≡ differs_in_family form.now other.now }
{
    form.family != 0
        && other.family() == form.family
        && other.class() != form.class
        && (other.calendar() != form.calendar
            || other.deferred().as_slice() != form.deferred.as_slice())
}
