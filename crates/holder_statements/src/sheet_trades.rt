//! The trade of an order among trades that never fall by sheet.
ghost use Rattle.std.specs.Prelude.{◌≡◌, ◌≤◌, drop, find, length};
ghost use Rattle.std.specs.Option.{option_copied};
ghost use Rattle.agent_events.specs.declared.trade.Trade.{Trade as AnyTrade};
ghost use Rattle.register_machine.specs.rules.Breaks.{is_trade_of};
ghost use Rattle.holder_statements.specs.OrderTraces.{NeverFall};
ghost use Rattle.holder_statements.specs.SheetPlaces.{IsPlaceOf, IsTradedOn, follows_earlier, is_earlier_at, parts_at};

use agent_events::Trade;

/// The first trade of an order, which is on this sheet: those from the first of the sheet on are compared in turn. That one is
/// found by its likely place, which is right where each sheet has as many, and else by a search.
pub fn trade_on(trades: &[Trade], sheet: u32, account: u32, ref_no: u64) -> Option<&Trade>
    requires fall { NeverFall trades.now }
    requires sheet { IsTradedOn sheet account ref_no trades.now }
    ensures { option_copied result ≡ find (is_trade_of account ref_no) trades.now }
{
    let place = place_of(trades, sheet);
    first_of(trades_from(trades, place), account, ref_no)
}

fn trades_from(trades: &[Trade], place: usize) -> &[Trade]
    requires { place ≤ length trades.now }
    ensures { result.now ≡ drop place trades.now }
{
    &trades[place..]
}

fn first_of(trades: &[Trade], account: u32, ref_no: u64) -> Option<&Trade>
    ensures { option_copied result ≡ find (is_trade_of account ref_no) trades.now }
{
    trades
        .iter()
        .find(|trade| trade.account == account && trade.ref_no == ref_no)
}

// How many trades are on earlier sheets. Who trades on each sheet as often as on another has them at a known place, which two
// looks confirm; any other place is searched for.
fn place_of(trades: &[Trade], sheet: u32) -> usize
    requires { NeverFall trades.now }
    ensures point { IsPlaceOf sheet trades.now result }
    ensures bound { result ≤ length trades.now }
{
    let likely = likely_place(trades, sheet);
    if parts_at(trades, sheet, likely) {
        return likely;
    }
    place_searched(trades, sheet)
}

// How many trades would be on earlier sheets if there were as many on each sheet up to the last one.
fn likely_place(trades: &[Trade], sheet: u32) -> usize {
    match trades.last() {
        Some(last) => share_of(trades.len() as u64, sheet, last.sheet),
        None => 0,
    }
}

fn share_of(trades: u64, sheet: u32, last: u32) -> usize {
    let earlier = u64::from(sheet.saturating_sub(1));
    (trades.saturating_mul(earlier) / u64::from(last.max(1))) as usize
}

// Whether the trade before a place, where there is one, is on an earlier sheet, and the one at the place isn't.
fn parts_at(trades: &[Trade], sheet: u32, place: usize) -> bool
    ensures { result ≡ parts_at sheet trades.now place }
{
    follows_earlier(trades, sheet, place) && !is_earlier_at(trades, sheet, place)
}

fn follows_earlier(trades: &[Trade], sheet: u32, place: usize) -> bool
    ensures { result ≡ follows_earlier sheet trades.now place }
{
    place == 0 || is_earlier_at(trades, sheet, place - 1)
}

// Whether there is a trade at a place, and on an earlier sheet.
fn is_earlier_at(trades: &[Trade], sheet: u32, place: usize) -> bool
    ensures { result ≡ is_earlier_at sheet trades.now place }
{
    match trades.get(place) {
        Some(trade) => trade.sheet < sheet,
        None => false,
    }
}

fn place_searched(trades: &[Trade], sheet: u32) -> usize
    requires { NeverFall trades.now }
    ensures point { IsPlaceOf sheet trades.now result }
    ensures bound { result ≤ length trades.now }
{
    trades.partition_point(|trade| trade.sheet < sheet)
}
