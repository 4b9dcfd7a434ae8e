//! The requests of a day.
ghost use Rattle.std.specs.Prelude.{◌≡◌, ◌≤◌, ◌<◌, ◌+◌, ◌-◌, ◌∷◌, [], IfOk};
ghost use Rattle.load_requests.specs.Days as spec;

use crate::draws::draw_of;
use crate::numbers::{amount, identifier, nav, quantity, reference};
use agent_events::{Bearer, Body, FixPriceForm, Order, RisingPrices, SheetForm, SheetPrices};
use fund_calendar::Calendar;
use money_units::{List, Moment, Nav, NoMemory};
use std::alloc::Global;

/// The class with a front-end load, and that with deferred loads.
const FRONT_CLASS: u32 = 11;

const DEFERRED_CLASS: u32 = 12;

/// The first pricing moment after a moment, or this one where none is left.
pub(crate) fn pricing_after(calendar: &Calendar, from: Moment) -> Moment
    ensures { result ≡ spec.pricing_after calendar.now from }
{
    calendar.next_after(from).unwrap_or(from)
}

/// An hour before a moment.
pub(crate) fn hour_before(from: Moment) -> Moment
    ensures { result ≡ from - 3600 }
{
    from.earlier(3_600)
}

/// An hour behind a moment.
pub(crate) fn hour_behind(from: Moment) -> Moment
    requires { from ≤ 7258114799 }
    ensures { result ≡ from + 3600 }
{
    from.later(3_600)
}

/// The part of a draw that says how much.
fn size_of(draw: u64) -> u64
    ensures value { result ≡ spec.size_of draw }
    ensures most { result < 1000 }
{
    draw / 4 % 1_000
}

/// A purchase of a class for 100 to 1,099 dollars.
fn purchase(class: u32, draw: u64) -> Body
    requires { 1 ≤ class }
    ensures { result ≡ spec.purchase_of class draw }
{
    Body::Buy {
        class: identifier(class),
        gross: amount(100 * (100 + size_of(draw))),
    }
}

/// A sale of hundreds of mils of the class with a front-end load.
fn sale(draw: u64) -> Body
    ensures { result ≡ spec.sale_of draw }
{
    Body::Sell {
        class: identifier(FRONT_CLASS),
        mils: quantity(100 * (size_of(draw) + 1)),
    }
}

/// What a draw orders.
fn body_of(draw: u64) -> Body
    ensures { result ≡ spec.body_of draw }
{
    if draw % 4 == 2 {
        purchase(DEFERRED_CLASS, draw)
    } else if draw % 4 == 3 {
        sale(draw)
    } else {
        purchase(FRONT_CLASS, draw)
    }
}

/// The order of a household on a day, by the state after its draw.
pub(crate) fn order_by(day: u32, household: u32, state: u64) -> Order
    requires day { 1 ≤ day }
    requires household { 1 ≤ household }
    ensures { result ≡ spec.order_by day household state }
{
    Order {
        account: identifier(household),
        ref_no: reference(day),
        body: body_of(draw_of(state)),
    }
}

/// The net asset value of the class with a front-end load on a day.
fn front_nav(day: u32) -> Nav
    ensures value { result ≡ spec.front_nav day }
    ensures most { result ≤ 1099 }
{
    nav(1_000 + 7 * (day as u64) % 100)
}

/// That of the class with deferred loads.
fn deferred_nav(day: u32) -> Nav
    ensures { result ≡ spec.deferred_nav day }
{
    nav(2_000 + 11 * (day as u64) % 100)
}

/// One cent more.
fn one_cent_more(from: Nav) -> Nav
    requires { from ≤ 1099 }
    ensures { result ≡ from + 1 }
{
    nav(from.cents() + 1)
}

fn prices_on(alloc: Global, day: u32) -> Result<SheetPrices, NoMemory>
    ensures { IfOk result (λ prices. prices ≡ spec.prices_on day) }
{
    let prices = [
        (FRONT_CLASS, front_nav(day)),
        (DEFERRED_CLASS, deferred_nav(day)),
    ];
    List::from_slice(alloc, &prices)
}

fn rising_prices(alloc: Global, day: u32) -> Result<RisingPrices, NoMemory>
    ensures { IfOk result (λ prices. prices ≡ spec.prices_on day) }
{
    match RisingPrices::new(prices_on(alloc, day)?) {
        Some(prices) => Ok(prices),
        None => unreachable!(),
    }
}

/// The sheet of a day at its pricing moment.
pub(crate) fn sheet_at(alloc: Global, day: u32, pricing: Moment) -> Result<SheetForm, NoMemory>
    ensures { IfOk result (λ form. form ≡ spec.sheet_at day pricing) }
{
    Ok(SheetForm {
        calendar: identifier(1),
        moment: pricing,
        prices: rising_prices(alloc, day)?,
    })
}

/// The correction of a tenth day, at the pricing moment of five days before.
pub(crate) fn correction_at(day: u32, corrected: Moment) -> FixPriceForm
    requires { 5 ≤ day }
    ensures { result ≡ spec.correction_at day corrected }
{
    FixPriceForm {
        fix: reference(day),
        bearer: Bearer::Agent,
        class: identifier(FRONT_CLASS),
        moment: corrected,
        nav: one_cent_more(front_nav(day - 5)),
    }
}
