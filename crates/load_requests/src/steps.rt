//! The steps of a load, from each request to the next.
ghost use Rattle.std.specs.Prelude.{◌≡◌, ◌≤◌, ◌<◌, ◌+◌, ◌-◌, ◌*◌};
ghost use Rattle.load_requests.specs.Days as days;
ghost use Rattle.load_requests.specs.Draws.{next_state, state_after};
ghost use Rattle.load_requests.specs.Opening.{load_listing};
ghost use Rattle.load_requests.specs.Requests.{days_after};
ghost use Rattle.load_requests.specs.ToCome as spec;
ghost use Rattle.load_requests.specs.declared.progress.Stage.TheVariants as stage_of;

use crate::day::pricing_after;
use crate::draws::next_state;
use crate::load::Load;
use crate::opening::opening_moment;
use crate::progress::{Progress, Stage};
use fund_calendar::Calendar;
use money_units::Moment;

/// The progress at the beginning.
pub(crate) fn first_progress(load: &Load) -> Progress
    requires { 1 ≤ load.now.households }
    ensures fits { spec.IsProgress load.now result }
    ensures day { result.day ≡ 0 }
    ensures stage { result.stage ≡ stage_of.Calendar }
{
    Progress {
        stage: Stage::Calendar,
        day: 0,
        pricing: opening_moment(),
        corrected: opening_moment(),
        drawn: load.number as u64,
    }
}

/// Another stage of the same day.
fn at_stage(progress: &Progress, stage: Stage) -> Progress
    ensures { result ≡ spec.with_stage progress.now stage }
{
    Progress {
        stage,
        day: progress.day,
        pricing: progress.pricing,
        corrected: progress.corrected,
        drawn: progress.drawn,
    }
}

/// Another order of the same day, with its draw.
fn at_order(progress: &Progress, household: u32) -> Progress
    ensures { result ≡ spec.with_draw progress.now (stage_of.Order household) }
{
    Progress {
        stage: Stage::Order(household),
        day: progress.day,
        pricing: progress.pricing,
        corrected: progress.corrected,
        drawn: next_state(progress.drawn),
    }
}

/// The moment of five days before the next day.
#[tactic(auto, using(crate::proofs::ProgressFacts::early_correction, crate::proofs::ProgressFacts::later_correction))]
fn corrected_next(load: &Load, calendar: &Calendar, progress: &Progress) -> Moment
    requires progress { spec.IsProgress load.now progress.now }
    requires calendar { calendar.now ≡ load_listing }
    ensures { result ≡ days.pricing_moment (progress.now.day + 1 - 5) }
{
    if progress.day < 5 {
        progress.corrected
    } else {
        pricing_after(calendar, progress.corrected)
    }
}

/// The pricing moment of the next day.
#[tactic(auto, using(crate::proofs::ProgressFacts::next_pricing))]
fn pricing_next(load: &Load, calendar: &Calendar, progress: &Progress) -> Moment
    requires progress { spec.IsProgress load.now progress.now }
    requires calendar { calendar.now ≡ load_listing }
    ensures { result ≡ days.pricing_moment (progress.now.day + 1) }
{
    pricing_after(calendar, progress.pricing)
}

/// The first order of the next day.
fn at_next_day(load: &Load, calendar: &Calendar, progress: &Progress) -> Progress
    requires progress { spec.IsProgress load.now progress.now }
    requires calendar { calendar.now ≡ load_listing }
    requires more { progress.now.day < load.now.days }
    ensures { result ≡ spec.day_behind progress.now }
{
    Progress {
        stage: Stage::Order(1),
        day: progress.day + 1,
        pricing: pricing_next(load, calendar, progress),
        corrected: corrected_next(load, calendar, progress),
        drawn: next_state(progress.drawn),
    }
}

/// The next day, or the end.
#[tactic(auto, using(crate::proofs::ProgressFacts::day_next, crate::proofs::ProgressFacts::end_next, crate::proofs::StageFacts::behind_day, crate::proofs::StageFacts::behind_last_day))]
fn behind_day(load: &Load, calendar: &Calendar, progress: &Progress) -> Progress
    requires some { 1 ≤ load.now.households }
    requires progress { spec.IsProgress load.now progress.now }
    requires calendar { calendar.now ≡ load_listing }
    requires drawn { progress.now.drawn
        ≡ state_after load.now.number (progress.now.day * load.now.households) }
    ensures fits { spec.IsProgress load.now result }
    ensures rest { spec.to_come load.now result ≡ days_after load.now progress.now.day }
{
    if progress.day < load.days {
        at_next_day(load, calendar, progress)
    } else {
        at_stage(progress, Stage::End)
    }
}

/// The next household, or the first account.
#[tactic(auto, using(crate::proofs::ProgressFacts::household_next, crate::proofs::ProgressFacts::first_account_next, crate::proofs::StageFacts::behind_households))]
fn behind_household(load: &Load, progress: &Progress, number: u32) -> Progress
    requires some { 1 ≤ load.now.households }
    requires progress { spec.IsProgress load.now progress.now }
    requires stage { progress.now.stage ≡ stage_of.Household number }
    ensures fits { spec.IsProgress load.now result }
    ensures rest { spec.to_come load.now result
        ≡ spec.rest_at load.now progress.now.day (stage_of.Household number) }
{
    if number < load.households {
        at_stage(progress, Stage::Household(number + 1))
    } else {
        at_stage(progress, Stage::Account(1))
    }
}

/// The next account, or the first day.
#[tactic(auto, using(crate::proofs::ProgressFacts::account_next, crate::proofs::ProgressFacts::drawn_behind_account, crate::proofs::StageFacts::behind_accounts))]
fn behind_account(load: &Load, calendar: &Calendar, progress: &Progress, number: u32) -> Progress
    requires some { 1 ≤ load.now.households }
    requires progress { spec.IsProgress load.now progress.now }
    requires calendar { calendar.now ≡ load_listing }
    requires stage { progress.now.stage ≡ stage_of.Account number }
    ensures fits { spec.IsProgress load.now result }
    ensures rest { spec.to_come load.now result
        ≡ spec.rest_at load.now progress.now.day (stage_of.Account number) }
{
    if number < load.households {
        at_stage(progress, Stage::Account(number + 1))
    } else {
        behind_day(load, calendar, progress)
    }
}

/// The order of the next household, or the sheet.
#[tactic(auto, using(crate::proofs::ProgressFacts::order_next, crate::proofs::ProgressFacts::sheet_next, crate::proofs::StageFacts::behind_orders))]
fn behind_order(load: &Load, progress: &Progress, household: u32) -> Progress
    requires progress { spec.IsProgress load.now progress.now }
    requires stage { progress.now.stage ≡ stage_of.Order household }
    ensures fits { spec.IsProgress load.now result }
    ensures rest { spec.to_come load.now result
        ≡ spec.rest_at load.now progress.now.day (stage_of.Order household) }
{
    if household < load.households {
        at_order(progress, household + 1)
    } else {
        at_stage(progress, Stage::Sheet)
    }
}

/// Whether the day has a correction.
fn is_corrected(day: u32) -> bool
    ensures { result ≡ days.is_corrected day }
{
    day % 10 == 0
}

/// The correction of a tenth day, or the next day.
#[tactic(auto, using(crate::proofs::ProgressFacts::correction_next, crate::proofs::ProgressFacts::drawn_behind_sheet, crate::proofs::StageFacts::behind_corrected, crate::proofs::StageFacts::behind_uncorrected))]
fn behind_sheet(load: &Load, calendar: &Calendar, progress: &Progress) -> Progress
    requires some { 1 ≤ load.now.households }
    requires progress { spec.IsProgress load.now progress.now }
    requires calendar { calendar.now ≡ load_listing }
    requires stage { progress.now.stage ≡ stage_of.Sheet }
    ensures fits { spec.IsProgress load.now result }
    ensures rest { spec.to_come load.now result
        ≡ spec.rest_at load.now progress.now.day stage_of.Sheet }
{
    if is_corrected(progress.day) {
        at_stage(progress, Stage::Correction)
    } else {
        behind_day(load, calendar, progress)
    }
}

/// The progress behind the next request; the end stays the end.
#[tactic(auto, using(crate::proofs::ProgressFacts::front_class_next, crate::proofs::ProgressFacts::deferred_class_next, crate::proofs::ProgressFacts::first_household_next, crate::proofs::ProgressFacts::drawn_behind_correction))]
pub(crate) fn following(load: &Load, calendar: &Calendar, progress: &Progress) -> Progress
    requires some { 1 ≤ load.now.households }
    requires progress { spec.IsProgress load.now progress.now }
    requires calendar { calendar.now ≡ load_listing }
    ensures fits { spec.IsProgress load.now result }
    ensures rest { spec.to_come load.now result
        ≡ spec.rest_at load.now progress.now.day progress.now.stage }
{
    match progress.stage {
        Stage::Calendar => at_stage(progress, Stage::FrontClass),
        Stage::FrontClass => at_stage(progress, Stage::DeferredClass),
        Stage::DeferredClass => at_stage(progress, Stage::Household(1)),
        Stage::Household(number) => behind_household(load, progress, number),
        Stage::Account(number) => behind_account(load, calendar, progress, number),
        Stage::Order(household) => behind_order(load, progress, household),
        Stage::Sheet => behind_sheet(load, calendar, progress),
        Stage::Correction => behind_day(load, calendar, progress),
        Stage::End => at_stage(progress, Stage::End),
    }
}
