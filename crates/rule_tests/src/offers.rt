//! Offering prices: breakpoints, the greatest price, and the credit of a household.
use crate::fixtures::nav;
use class_terms::{Bracket, Brackets, Label, Schedule, Terms, TermsForm, check};
use money_units::{Bps, Cents, Mils, NoMemory};
use offering_price::{Holding, bracket, credit, price_of};
use std::alloc::Global;
use std::test::Fail;

const GROWTH: [(u64, u16); 7] = [
    (0, 575),
    (2_500_000, 500),
    (5_000_000, 450),
    (10_000_000, 350),
    (25_000_000, 250),
    (50_000_000, 200),
    (100_000_000, 0),
];

fn brackets(alloc: Global) -> Result<Brackets, NoMemory> {
    let mut front = Brackets::new(alloc);
    for row in GROWTH {
        front.push(Bracket {
            floor: Cents(row.0),
            rate: Bps(row.1),
        })?;
    }
    Ok(front)
}

// The terms of a growth fund's load class, whose table has seven rows.
fn growth(alloc: Global) -> Result<Terms, Fail> {
    let form = TermsForm {
        class: 11,
        calendar: 1,
        fund: 1,
        name: Label::from_slice(alloc, b"GROWTH-A")?,
        family: 0,
        counts: true,
        first_min: Cents(25000),
        later_min: Cents(5000),
        front: brackets(alloc)?,
        deferred: Schedule::new(alloc),
    };
    Ok(check(form, &[])?)
}

// An amount in cents and the rate in basis points that it reaches.
const RATES: [(u128, u16); 6] = [
    (1, 575),
    (2_499_999, 575),
    (2_500_000, 500),
    // A position that counts $25,000.00, and a purchase of as much.
    (2_500_000 + 2_500_000, 450),
    (99_999_999, 200),
    (100_000_000, 0),
];

// The first amount with another rate, and this rate.
fn first_other_rate(terms: &Terms) -> Option<(u128, Bps)> {
    for (amount, rate) in RATES {
        let found = bracket(terms, amount);
        if found != Bps(rate) {
            return Some((amount, found));
        }
    }
    None
}

fn first_other_rate_of_growth(alloc: Global) -> Result<Option<(u128, Bps)>, Fail> {
    let terms = growth(alloc)?;
    Ok(first_other_rate(&terms))
}

#[test]
fn a_breakpoint_lowers_the_rate_from_its_floor_on(rt: HostRuntime) -> Result<(), Fail> {
    assert_eq!(rt; first_other_rate_of_growth(rt.alloc())?, None);
    Ok(())
}

#[test]
fn the_greatest_price_has_the_greatest_load(rt: HostRuntime) -> Result<(), Fail> {
    let greatest = nav(10_000_000)?;
    assert_eq!(rt; price_of(greatest, Bps(850)), Cents(10_928_962));
    Ok(())
}

#[test]
fn credit_is_the_sum_over_positions(rt: HostRuntime) -> Result<(), Fail> {
    let risen = Holding {
        mils: Mils(100_000),
        cost: Cents(100_000),
        nav: Some(nav(2000)?),
    };
    let unpriced = Holding {
        mils: Mils(5_000),
        cost: Cents(7_000),
        nav: None,
    };
    assert_eq!(rt; credit([risen, unpriced].as_slice()), 207_000);
    assert_eq!(rt; credit(&[]), 0);
    Ok(())
}
