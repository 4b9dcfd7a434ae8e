//! The request that is next.
ghost use Rattle.std.specs.Prelude.{◌≡◌, ◌≤◌, ◌+◌, ◌-◌, IfOk, Some};
ghost use Rattle.load_requests.specs.Requests as requests;
ghost use Rattle.load_requests.specs.ToCome as spec;
ghost use Rattle.load_requests.specs.declared.progress.Stage.TheVariants as stage_of;

use crate::day::{correction_at, hour_before, hour_behind, order_by, sheet_at};
use crate::load::{Load, Sent};
use crate::opening::{
    account_form, calendar_form, deferred_class, front_class, household_form, sent_at_opening,
};
use crate::progress::{Progress, Stage};
use agent_events::Request;
use money_units::NoMemory;
use std::alloc::Global;

fn calendar_sent(alloc: Global) -> Result<Sent, NoMemory>
    ensures { IfOk result (λ sent. sent ≡ requests.calendar_sent) }
{
    Ok(sent_at_opening(Request::Calendar(calendar_form(alloc)?)))
}

fn front_class_sent(alloc: Global) -> Result<Sent, NoMemory>
    ensures { IfOk result (λ sent. sent ≡ requests.front_class_sent) }
{
    Ok(sent_at_opening(Request::Class(front_class(alloc)?)))
}

fn deferred_class_sent(alloc: Global) -> Result<Sent, NoMemory>
    ensures { IfOk result (λ sent. sent ≡ requests.deferred_class_sent) }
{
    Ok(sent_at_opening(Request::Class(deferred_class(alloc)?)))
}

fn household_sent(alloc: Global, household: u32) -> Result<Sent, NoMemory>
    requires { 1 ≤ household }
    ensures { IfOk result (λ sent. sent ≡ requests.household_sent household) }
{
    Ok(sent_at_opening(Request::Household(household_form(alloc, household)?)))
}

fn account_sent(alloc: Global, household: u32) -> Result<Sent, NoMemory>
    requires { 1 ≤ household }
    ensures { IfOk result (λ sent. sent ≡ requests.account_sent household) }
{
    Ok(sent_at_opening(Request::Account(account_form(alloc, household)?)))
}

/// The order of a household, an hour before the pricing moment of the day.
#[tactic(auto, using(crate::proofs::ProgressFacts::order_is))]
fn order_sent(load: &Load, progress: &Progress, household: u32) -> Sent
    requires progress { spec.IsProgress load.now progress.now }
    requires stage { progress.now.stage ≡ stage_of.Order household }
    requires day { 1 ≤ progress.now.day }
    requires household { 1 ≤ household }
    ensures { result ≡ requests.order_sent load.now progress.now.day household }
{
    Sent {
        moment: hour_before(progress.pricing),
        request: Request::Order(order_by(progress.day, household, progress.drawn)),
    }
}

/// The sheet of the day, an hour behind its pricing moment.
#[tactic(auto, using(crate::proofs::CalendarFacts::pricing_within))]
fn sheet_sent(alloc: Global, load: &Load, progress: &Progress) -> Result<Sent, NoMemory>
    requires { spec.IsProgress load.now progress.now }
    ensures { IfOk result (λ sent. sent ≡ requests.sheet_sent progress.now.day) }
{
    let form = sheet_at(alloc, progress.day, progress.pricing)?;
    Ok(Sent {
        moment: hour_behind(progress.pricing),
        request: Request::Sheet(form),
    })
}

/// The correction of the day, at the moment of its sheet.
#[tactic(auto, using(crate::proofs::CalendarFacts::pricing_within))]
fn correction_sent(load: &Load, progress: &Progress) -> Sent
    requires progress { spec.IsProgress load.now progress.now }
    requires day { 5 ≤ progress.now.day }
    ensures { result ≡ requests.correction_sent progress.now.day }
{
    Sent {
        moment: hour_behind(progress.pricing),
        request: Request::FixPrice(correction_at(progress.day, progress.corrected)),
    }
}

/// The request that is next, or `None` exactly at the end.
#[tactic(auto, using(crate::proofs::ProgressFacts::household_fits, crate::proofs::ProgressFacts::account_fits, crate::proofs::ProgressFacts::order_fits, crate::proofs::ProgressFacts::correction_fits))]
pub(crate) fn present(
    alloc: Global,
    load: &Load,
    progress: &Progress,
) -> Result<Option<Sent>, NoMemory>
    requires { spec.IsProgress load.now progress.now }
    ensures { IfOk result (λ next.
        next ≡ spec.first_at load.now progress.now.day progress.now.stage) }
{
    match progress.stage {
        Stage::Calendar => Ok(Some(calendar_sent(alloc)?)),
        Stage::FrontClass => Ok(Some(front_class_sent(alloc)?)),
        Stage::DeferredClass => Ok(Some(deferred_class_sent(alloc)?)),
        Stage::Household(number) => Ok(Some(household_sent(alloc, number)?)),
        Stage::Account(number) => Ok(Some(account_sent(alloc, number)?)),
        Stage::Order(household) => Ok(Some(order_sent(load, progress, household))),
        Stage::Sheet => Ok(Some(sheet_sent(alloc, load, progress)?)),
        Stage::Correction => Ok(Some(correction_sent(load, progress))),
        Stage::End => Ok(None),
    }
}
