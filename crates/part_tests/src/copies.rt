//! Copies: each list of rows is copied, item by item, and a request is.
use agent_events::{
    Amount, Body, Copied, Identifier, LotRow, LotRows, Order, OrderRow, PositionRow, PositionRows,
    RateRow, Rates, Reference, Request, same_request,
};
use fund_calendar::Day;
use money_units::{Cents, Mils, Moment, NoMemory};
use std::alloc::Global;
use std::test::Fail;

fn purchase() -> Result<Order, Fail> {
    Ok(Order {
        account: Identifier::new(101).ok_or("no account")?,
        ref_no: Reference::new(1).ok_or("no reference")?,
        body: Body::Buy {
            class: Identifier::new(11).ok_or("no class")?,
            gross: Amount::new(Cents(1_000_000)).ok_or("no amount")?,
        },
    })
}

fn lot() -> Result<LotRow, Fail> {
    Ok(LotRow {
        number: 1,
        day: Day::from_number(19_905).ok_or("no date")?,
        loose: Mils(942_507),
        held: Mils(0),
        cost: Cents(1_000_000),
        free: false,
    })
}

// Whether the copy of a list of one rate has this rate alone.
fn are_rates_copied(alloc: Global, list: &Rates, row: &RateRow) -> Result<bool, NoMemory> {
    let copy = list.copy(alloc)?;
    Ok(copy.as_slice() == [*row].as_slice())
}

fn is_rate_copied(alloc: Global, row: &RateRow) -> Result<bool, NoMemory> {
    let mut rates = Rates::new(alloc);
    rates.push(*row)?;
    are_rates_copied(alloc, &rates, row)
}

#[test]
fn lists_of_rows_are_copied(rt: HostRuntime) -> Result<(), Fail> {
    let rate = RateRow {
        class: 11,
        moment: Moment::start(),
        rate: 120_000,
    };
    assert!(rt; is_rate_copied(rt.alloc(), &rate)?);
    Ok(())
}

// Whether the copy of a list of one lot has this lot alone.
fn are_lots_copied(alloc: Global, list: &LotRows, lot: &LotRow) -> Result<bool, NoMemory> {
    let copy = list.copy(alloc)?;
    Ok(copy.as_slice() == [*lot].as_slice())
}

fn is_lot_copied(alloc: Global, lot: &LotRow) -> Result<bool, NoMemory> {
    let mut lots = LotRows::new(alloc);
    lots.push(*lot)?;
    are_lots_copied(alloc, &lots, lot)
}

// A position of one lot.
fn position(alloc: Global, lot: &LotRow) -> Result<PositionRow, NoMemory> {
    let mut lots = LotRows::new(alloc);
    lots.push(*lot)?;
    Ok(PositionRow {
        account: 101,
        class: 11,
        in_cash: false,
        next_lot: 2,
        letter: None,
        lots,
    })
}

// Whether these are one position of this lot alone.
fn is_position_of(positions: &[PositionRow], lot: &LotRow) -> bool {
    match positions {
        [position] => position.lots.as_slice() == [*lot].as_slice(),
        _ => false,
    }
}

// Whether a list of one position of this lot gives it back.
fn is_position_read_back(alloc: Global, lot: &LotRow) -> Result<bool, NoMemory> {
    let mut positions = PositionRows::new(alloc);
    positions.push(position(alloc, lot)?)?;
    Ok(is_position_of(positions.as_slice(), lot))
}

#[test]
fn lots_and_positions_are_read_back(rt: HostRuntime) -> Result<(), Fail> {
    let lot = lot()?;
    assert!(rt; is_lot_copied(rt.alloc(), &lot)?);
    assert!(rt; is_position_read_back(rt.alloc(), &lot)?);
    Ok(())
}

// Whether the request has the content of its copy, and that of the request for the books.
fn contents(alloc: Global, request: &Request) -> Result<(bool, bool), NoMemory> {
    let copy = request.copy(alloc)?;
    Ok((
        same_request(request, &copy),
        same_request(request, &Request::Books),
    ))
}

fn contents_of_purchase(alloc: Global) -> Result<(bool, bool), Fail> {
    let request = Request::Order(purchase()?);
    Ok(contents(alloc, &request)?)
}

#[test]
fn a_request_has_the_content_of_its_copy(rt: HostRuntime) -> Result<(), Fail> {
    assert_eq!(rt; contents_of_purchase(rt.alloc())?, (true, false));
    Ok(())
}
