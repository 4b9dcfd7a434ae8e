//! Parts of the content of requests, side by side.
ghost use Rattle.std.specs.Prelude.{◌≡◌, bytes_eq, nat_eq};
ghost use Rattle.std.specs.Cmp.Lexicographic.{pointwise};
ghost use Rattle.agent_events.specs.ContentFields.{same_bracket, same_price};
ghost use Rattle.agent_events.specs.Contents as content;
ghost use Rattle.agent_events.specs.Parts as part;

use crate::order::{Bearer, Body, Order};
use class_terms::Bracket;
use fund_calendar::Day;
use money_units::{Bps, Nav};

/// A list of dates.
pub(crate) fn same_days(first: &[Day], second: &[Day]) -> bool
    ensures { result ≡ bytes_eq first.now second.now }
{
    first == second
}

/// A list of rates.
pub(crate) fn same_rates(first: &[Bps], second: &[Bps]) -> bool
    ensures { result ≡ bytes_eq first.now second.now }
{
    first == second
}

fn equal_brackets(first: &[Bracket], second: &[Bracket]) -> bool
    ensures { result ≡ pointwise same_bracket first.now second.now }
{
    first == second
}

/// A table of front-end loads.
#[tactic(auto, using(crate::proofs::SameParts::brackets_same))]
pub(crate) fn same_brackets(first: &[Bracket], second: &[Bracket]) -> bool
    ensures { result ≡ bytes_eq (content.brackets_content first.now)
        (content.brackets_content second.now) }
{
    equal_brackets(first, second)
}

fn equal_prices(first: &[(u32, Nav)], second: &[(u32, Nav)]) -> bool
    ensures { result ≡ pointwise same_price first.now second.now }
{
    first == second
}

/// The list of a sheet.
#[tactic(auto, using(crate::proofs::SameParts::prices_same))]
pub fn same_prices(first: &[(u32, Nav)], second: &[(u32, Nav)]) -> bool
    ensures { result ≡ bytes_eq (content.prices_content first.now)
        (content.prices_content second.now) }
{
    equal_prices(first, second)
}

fn flag_number(flag: bool) -> u64
    ensures { result ≡ content.flag_number flag }
{
    if flag { 1 } else { 0 }
}

/// A flag.
pub(crate) fn same_flag(first: bool, second: bool) -> bool
    ensures { result ≡ nat_eq (content.flag_number first) (content.flag_number second) }
{
    flag_number(first) == flag_number(second)
}

fn bearer_numbers(bearer: Bearer) -> [u64; 2]
    ensures { result ≡ part.bearer_numbers bearer }
{
    match bearer {
        Bearer::Fund => [0, 0],
        Bearer::Agent => [1, 0],
        Bearer::Dealer(dealer) => [2, dealer.number() as u64],
    }
}

fn same_two(first: &[u64], second: &[u64]) -> bool
    ensures { result ≡ bytes_eq first.now second.now }
{
    first == second
}

/// Who bears a loss.
#[tactic(auto, using(crate::proofs::SameParts::bearer_same))]
pub(crate) fn same_bearer(first: Bearer, second: Bearer) -> bool
    ensures { result ≡ bytes_eq (content.bearer_content first) (content.bearer_content second) }
{
    same_two(&bearer_numbers(first), &bearer_numbers(second))
}

fn body_numbers(body: &Body) -> [u64; 4]
    ensures { result ≡ part.body_numbers body.now }
{
    match body {
        Body::Buy { class, gross } => [1, class.number() as u64, gross.cents(), 0],
        Body::Sell { class, mils } => [2, class.number() as u64, mils.mils(), 0],
        Body::SellCash { class, amount } => [3, class.number() as u64, amount.cents(), 0],
        Body::SellAll { class } => [4, class.number() as u64, 0, 0],
        Body::Exchange { class, to, mils } => [
            5,
            class.number() as u64,
            to.number() as u64,
            mils.mils(),
        ],
        Body::ExchangeAll { class, to } => [6, class.number() as u64, to.number() as u64, 0],
        Body::Letter { class, amount } => [7, class.number() as u64, amount.cents(), 0],
        Body::Elect { class, in_cash } => [8, class.number() as u64, flag_number(*in_cash), 0],
    }
}

/// What an order does.
#[tactic(auto, using(crate::proofs::SameParts::body_same))]
pub(crate) fn same_body(first: &Body, second: &Body) -> bool
    ensures { result ≡ bytes_eq (content.body_content first.now) (content.body_content second.now) }
{
    same_two(&body_numbers(first), &body_numbers(second))
}

/// An order.
pub(crate) fn same_order(first: &Order, second: &Order) -> bool
    ensures { result
        ≡ pointwise bytes_eq (content.order_content first.now) (content.order_content second.now) }
{
    first.account.number() == second.account.number()
        && first.ref_no.number() == second.ref_no.number()
        && same_body(&first.body, &second.body)
}
