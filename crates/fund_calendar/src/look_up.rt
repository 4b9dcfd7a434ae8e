//! Look-ups among pricing days, which rise by day and by moment.
ghost use Rattle.std.specs.Prelude.{◌≡◌, ◌+◌, ◌≤◌, ◌<◌, length, nat_le, ◌==◌, slice_get, find, option_and_then, IfSome};
ghost use Rattle.std.specs.List.Sorted.{IsPartitionPoint};
ghost use Rattle.fund_calendar.specs.PricingDays as spec;

use crate::Day;
use crate::pricing_day::PricingDay;
use money_units::Moment;

/// The first moment above one.
pub(crate) fn next_moment(listed: &[PricingDay], moment: Moment) -> Option<Moment>
    requires { spec.IsListing listed.now }
    ensures { result ≡ spec.first_above listed.now moment }
{
    let place = first_place_from(listed, moment.seconds() + 1);
    let next = entry_at(listed, place)?;
    Some(next.moment)
}

/// The place of the first day whose moment is at least so many seconds, or the number of days without one.
fn first_place_from(listed: &[PricingDay], least: u64) -> usize
    requires { spec.IsListing listed.now }
    ensures value { slice_get listed.now result ≡ find (λ e. nat_le least e.moment) listed.now }
    ensures bound { result ≤ length listed.now }
{
    listed.partition_point(|entry| entry.moment.seconds() < least)
}

/// The place of a day.
pub(crate) fn place_of_day(listed: &[PricingDay], day: Day) -> Option<usize>
    requires { spec.IsListing listed.now }
    ensures value { option_and_then (slice_get listed.now) result ≡ find
        (λ e. e.day == day) listed.now }
    ensures bound { IfSome result (λ place. place < length listed.now) }
{
    let place = first_place_on(listed, day);
    match entry_at(listed, place) {
        Some(entry) => { if entry.day == day { Some(place) } else { None } }
        None => None,
    }
}

/// The pricing day that is priced at a moment.
pub(crate) fn entry_of_moment(listed: &[PricingDay], moment: Moment) -> Option<PricingDay>
    requires { spec.IsListing listed.now }
    ensures { result ≡ find (λ e. e.moment == moment) listed.now }
{
    let place = first_place_from(listed, moment.seconds());
    match entry_at(listed, place) {
        Some(entry) => {
            if entry.moment == moment {
                Some(entry)
            } else {
                None
            }
        }
        None => None,
    }
}

/// The pricing day at a place.
pub(crate) fn entry_at(listed: &[PricingDay], place: usize) -> Option<PricingDay>
    ensures value { result ≡ slice_get listed.now place }
    ensures within { IfSome result (λ _. place < length listed.now) }
{
    if place < listed.len() {
        Some(listed[place])
    } else {
        None
    }
}

/// The place of the first day that isn't earlier, or the number of days without one.
fn first_place_on(listed: &[PricingDay], day: Day) -> usize
    requires { spec.IsListing listed.now }
    ensures point { IsPartitionPoint (λ e. e.day < day) (λ e. day ≤ e.day) listed.now result }
    ensures bound { result ≤ length listed.now }
{
    listed.partition_point(|entry| entry.day < day)
}
