//! Terms of a class: they carry the numbers and lists of their form.
use class_terms::{Bracket, Brackets, Label, Schedule, Terms, TermsForm, check};
use money_units::{Bps, Cents, NoMemory};
use std::alloc::Global;
use std::test::Fail;

fn brackets(alloc: Global, rows: &[(u64, u16)]) -> Result<Brackets, NoMemory> {
    let mut brackets = Brackets::new(alloc);
    for row in rows {
        brackets.push(Bracket {
            floor: Cents(row.0),
            rate: Bps(row.1),
        })?;
    }
    Ok(brackets)
}

fn schedule(alloc: Global, rates: &[u16]) -> Result<Schedule, NoMemory> {
    let mut schedule = Schedule::new(alloc);
    for rate in rates {
        schedule.push(Bps(*rate))?;
    }
    Ok(schedule)
}

// A growth fund's class of calendar 1 in a family of exchange.
fn form(alloc: Global) -> Result<TermsForm, NoMemory> {
    Ok(TermsForm {
        class: 11,
        calendar: 1,
        fund: 3,
        name: Label::from_slice(alloc, b"GROWTH-A")?,
        family: 7,
        counts: true,
        first_min: Cents(25000),
        later_min: Cents(5000),
        front: brackets(alloc, &[(0, 575), (2_500_000, 500)])?,
        deferred: schedule(alloc, &[500, 400])?,
    })
}

fn growth(alloc: Global) -> Result<Terms, Fail> {
    Ok(check(form(alloc)?, &[])?)
}

// The class, the calendar, the fund and the family, whether it counts, and the least first and later purchases.
fn numbers_of(terms: &Terms) -> ([u32; 4], bool, [Cents; 2]) {
    let numbers = [
        terms.class(),
        terms.calendar(),
        terms.fund(),
        terms.family(),
    ];
    (
        numbers,
        terms.counts(),
        [terms.first_min(), terms.later_min()],
    )
}

// Whether the name, the last row of the table of front-end loads and the schedule of deferred loads are those of its form.
fn lists_hold(terms: &Terms) -> (bool, bool, bool) {
    let row = Bracket {
        floor: Cents(2_500_000),
        rate: Bps(500),
    };
    let schedule = [Bps(500), Bps(400)];
    (
        terms.name().as_slice() == b"GROWTH-A".as_slice(),
        terms.front().as_slice().last().copied() == Some(row),
        terms.deferred().as_slice() == schedule.as_slice(),
    )
}

#[test]
fn good_terms_carry_their_numbers_and_lists(rt: HostRuntime) -> Result<(), Fail> {
    let terms = growth(rt.alloc())?;
    let wanted = ([11, 1, 3, 7], true, [Cents(25000), Cents(5000)]);
    assert_eq!(rt; numbers_of(&terms), wanted);
    assert_eq!(rt; lists_hold(&terms), (true, true, true));
    Ok(())
}
