//! Runs each case that lies beside it, and says which differ from what they want: the words behind the program's name are the cases to
//! run, all where there are none.
#![tactic(auto)]

mod cases;
mod clocks;
mod cuts;
mod faults;
mod files;
mod reading;
mod runs;
mod sections;
mod stores;
mod texts;
mod trouble;
mod trying;
mod wants;

ghost use Rattle.std.specs.Prelude.{◌≡◌, ◌<◌};

use crate::cases::Case;
use crate::faults::Tried;
use crate::files::{all_cases, text_of};
use crate::reading::case_of;
use crate::stores::{Store, no_store};
use crate::trouble::Trouble;
use crate::trying::{begun, store_of_case, tried_case};
use household_fold::Steps;
use std::marker::Brand;
use std::process::ExitCode;
use std::sync::ledger::{Blank, Ledger};
use std::{env, io};

// So many cases can stand behind one another.
const MOST_BEHIND: usize = 16;

/// What came of cases.
#[derive(Clone, Copy)]
struct Counts {
    cases: u64,
    runs: u64,
    differ: u64,
}

// The case of a name; what is wrong with its file is printed.
fn read_case(rt: &HostRuntime, name: &str) -> Result<Case, Trouble> {
    let text = text_of(rt, name)?;
    match case_of(rt.alloc(), text.as_str()) {
        Ok(case) => Ok(case),
        Err(misread) => {
            let words = misread.why.words();
            let line = misread.line;
            println!(rt; "{name}, line {line}: {words}")?;
            Err(misread.why)
        }
    }
}

// The cases that one stands behind, the first one last.
fn cases_behind(rt: &HostRuntime, case: &Case) -> Result<Vec<Case>, Trouble> {
    let mut cases: Vec<Case> = Vec::new(rt.alloc());
    let mut name = case.behind.clone()?;
    for _ in 0..MOST_BEHIND {
        let Some(before) = name else {
            return Ok(cases);
        };
        let earlier = read_case(rt, before.as_str())?;
        name = earlier.behind.clone()?;
        cases.push(earlier)?;
    }
    Err(Trouble::Unreadable("too many cases behind one another"))
}

// The store that stands before a case.
fn store_before<L: Ledger>(
    rt: &HostRuntime,
    case: &Case,
    steps: &mut Steps<L>,
) -> Result<Store, Trouble> {
    let mut store = no_store(rt.alloc());
    let mut earlier = cases_behind(rt, case)?;
    for _ in 0..MOST_BEHIND {
        let Some(mut case) = earlier.pop() else {
            break;
        };
        store = begun(&mut case, store)?;
        store = store_of_case(rt.alloc(), &case, store, steps)?;
    }
    Ok(store)
}

fn tried<L: Ledger>(rt: &HostRuntime, name: &str, steps: &mut Steps<L>) -> Result<Tried, Trouble> {
    let mut case = read_case(rt, name)?;
    let store = store_before(rt, &case, steps)?;
    let store = begun(&mut case, store)?;
    let (tried, _) = tried_case(rt.alloc(), &case, store, steps)?;
    Ok(tried)
}

// Tries a case, and prints how it differs.
fn count_case<L: Ledger>(
    rt: &HostRuntime,
    name: &str,
    counts: Counts,
    steps: &mut Steps<L>,
) -> io::Result<Counts> {
    let (runs, told) = match tried(rt, name, steps) {
        Ok(tried) => (tried.runs, tried.told),
        Err(trouble) => {
            let words = trouble.words();
            (
                0,
                Some(format!(in rt.alloc(); "  it can't be run: {words}\n")?),
            )
        }
    };
    let differs = told.is_some();
    if let Some(told) = told {
        print!(rt; "{name} differs\n{told}")?;
    }
    Ok(Counts {
        cases: counts.cases.saturating_add(1),
        runs: counts.runs.saturating_add(runs),
        differ: counts.differ.saturating_add(if differs { 1 } else { 0 }),
    })
}

fn count_cases<L: Ledger>(
    rt: &HostRuntime,
    names: &[String],
    steps: &mut Steps<L>,
) -> io::Result<Counts> {
    let mut counts = Counts {
        cases: 0,
        runs: 0,
        differ: 0,
    };
    for name in names {
        counts = count_case(rt, name.as_str(), counts, steps)?;
    }
    Ok(counts)
}

fn print_counts(rt: &HostRuntime, counts: Counts) -> io::Result<ExitCode> {
    let Counts {
        cases,
        runs,
        differ,
    } = counts;
    println!(rt; "{cases} cases in {runs} runs: {differ} differ")?;
    Ok(if differ == 0 && cases > 0 {
        ExitCode::SUCCESS
    } else {
        ExitCode::FAILURE
    })
}

// The cases that the words name; all where there are none.
fn asked(rt: &HostRuntime) -> Result<Vec<String>, Trouble> {
    let mut names = Vec::new(rt.alloc());
    for word in env::args(rt)?.skip(1) {
        names.push(word)?;
    }
    if names.is_empty() {
        return all_cases(rt);
    }
    Ok(names)
}

// Tries the cases, whose steps count on this ledger.
fn run_on<L: Ledger>(rt: &HostRuntime, blank: Blank) -> io::Result<ExitCode>
    requires name { blank.name ≡ L.name }
    requires parts { blank.parts ≡ L.parts }
    requires some { 0 < blank.parts }
{
    let mut steps = Steps::<L>::new(blank);
    match asked(rt) {
        Ok(names) => {
            let counts = count_cases(rt, &names, &mut steps)?;
            print_counts(rt, counts)
        }
        Err(trouble) => {
            let words = trouble.words();
            println!(rt; "the cases can't be listed: {words}")?;
            Ok(ExitCode::FAILURE)
        }
    }
}

fn main(rt: HostRuntime) -> ExitCode {
    match run_on::<Brand>(&rt, Blank::new(1)) {
        Ok(code) => code,
        Err(_) => ExitCode::FAILURE,
    }
}
