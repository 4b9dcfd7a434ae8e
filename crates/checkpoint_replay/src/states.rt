//! The states that are kept of each household.
ghost use Rattle.std.specs.Prelude.{◌≡◌, ◌<◌, ◌≤◌, ◌+◌, ◌∷◌, ◌⊎◌, ℕ, [], All, Contains, IfOk, IfSome, OnErr, OnOk, false, filter, nat_eq, nat_le, nat_lt};
ghost use Rattle.checkpoint_replay.specs.KeptStates.{is_due, last_before, states_in, without_second, with_one_more};
ghost use Rattle.std.specs.Option.{option_copied};

use household_fold::HouseholdState;
use money_units::{List, NoMemory};
use number_hashing::{NumberMap, number_map};
use std::alloc::Global;
use std::marker::Model;
use std::mem;

/// What a household came to behind a sheet: its positions, and how many trades it had by then. None of its orders among the first
/// of the book, so many, is executed behind the sheet.
#[derive(Drop)]
pub struct KeptState {
    pub sheet: u32,
    pub state: HouseholdState,
    pub trades: usize,
    pub orders: usize,
}

/// The states that are kept of one household, by rising sheet.
pub type HouseholdStates = List<KeptState>;

/// So many sheets at least lie between two states of a household.
const SHEETS_BETWEEN: u32 = 4;

/// So many states at most are kept of a household: the first one, and the last ones.
const MOST_STATES: usize = 6;

/// The states that are kept of each household, which contracts see by their households.
#[derive(Drop)]
pub struct KeptStates {
    alloc: Global,
    rows: NumberMap<u32, HouseholdStates>,
}

impl Model for KeptStates {
    ghost use Rattle.std.specs.Prelude.{ℕ, List};
    ghost use Rattle.checkpoint_replay.specs.declared.states.KeptState.{KeptState};

    ghost Value = { List (ℕ × List KeptState) };

    ghost view = { λ kept. kept.rows.entries };
}

impl KeptStates {
    /// No state of any household.
    pub fn new(alloc: Global) -> KeptStates
        ensures { result ≡ [] }
    {
        KeptStates {
            alloc,
            rows: number_map(alloc),
        }
    }

    /// The last state of a household behind a sheet before this one; `None` where none is kept. It costs a look at the few
    /// states of the household.
    pub fn before(&self, household: u32, sheet: u32) -> Option<&KeptState>
        ensures { option_copied result
            ≡ last_before sheet (states_in self.now household) }
    {
        match self.rows.get(&household) {
            Some(own) => last_before(own.as_slice(), sheet),
            None => None,
        }
    }

    /// Whether the last state of a household is so old, or missing, that one behind this sheet is to be kept.
    pub fn is_due(&self, household: u32, sheet: u32) -> bool
        ensures { result ≡ is_due (states_in self.now household) sheet }
    {
        match self.rows.get(&household) {
            Some(own) => is_due(own.as_slice(), sheet),
            None => true,
        }
    }

    /// Keeps one state more of a household, behind a later sheet than its others. Others of its states may be forgotten, and
    /// after `NoMemory` all of them.
    pub fn keep(&mut self, household: u32, state: KeptState) -> Result<(), NoMemory>
        ensures own { All (λ kept. Contains (states_in self.old household) kept ⊎ (kept ≡ state))
            (states_in self.new household) }
        ensures more { OnOk result (states_in self.new household
            ≡ with_one_more (states_in self.old household) state) }
        ensures others { (other : ℕ) → nat_eq household other ≡ false
            → states_in self.new other ≡ states_in self.old other }
    {
        keep_state(&mut self.rows, self.alloc, household, state)
    }

    /// Forgets the states of a household behind this sheet and later ones.
    pub fn forget_from(&mut self, household: u32, sheet: u32)
        ensures own { states_in self.new household
            ≡ filter (λ kept. nat_lt kept.sheet sheet) (states_in self.old household) }
        ensures others { (other : ℕ) → nat_eq household other ≡ false
            → states_in self.new other ≡ states_in self.old other }
    {
        if let Some(own) = self.rows.get_mut(&household) {
            leave_before(self.alloc, own, sheet);
        }
    }
}

// The last of these states that is behind a sheet before this one.
fn last_before(states: &[KeptState], sheet: u32) -> Option<&KeptState>
    ensures { option_copied result ≡ last_before sheet states.now }
{
    let mut found = None;
    for kept in states {
        if kept.sheet < sheet {
            found = Some(kept);
        }
    }
    found
}

fn is_due(states: &[KeptState], sheet: u32) -> bool
    ensures { result ≡ is_due states.now sheet }
{
    match states.last() {
        Some(last) => is_far(last, sheet),
        None => true,
    }
}

fn is_far(last: &KeptState, sheet: u32) -> bool
    ensures { result ≡ nat_le (last.now.sheet + 4) sheet }
{
    SHEETS_BETWEEN <= sheet && last.sheet <= sheet - SHEETS_BETWEEN
}

// Keeps a state more of a household, beside those that are there.
fn keep_state(
    rows: &mut NumberMap<u32, HouseholdStates>,
    alloc: Global,
    household: u32,
    state: KeptState,
) -> Result<(), NoMemory>
    ensures ok { OnOk result (states_in rows.new.entries household
        ≡ with_one_more (states_in rows.old.entries household) state) }
    ensures err { OnErr result (states_in rows.new.entries household
        ≡ without_second (states_in rows.old.entries household)) }
    ensures others { (other : ℕ) → nat_eq household other ≡ false
        → states_in rows.new.entries other ≡ states_in rows.old.entries other }
{
    if let Some(own) = rows.get_mut(&household) {
        return add_to(alloc, own, state);
    }
    put_first(rows, alloc, household, state)
}

// Keeps the first state of a household.
fn put_first(
    rows: &mut NumberMap<u32, HouseholdStates>,
    alloc: Global,
    household: u32,
    state: KeptState,
) -> Result<(), NoMemory>
    requires { states_in rows.old.entries household ≡ [] }
    ensures ok { OnOk result (states_in rows.new.entries household ≡ state ∷ []) }
    ensures err { OnErr result (states_in rows.new.entries household ≡ []) }
    ensures others { (other : ℕ) → nat_eq household other ≡ false
        → states_in rows.new.entries other ≡ states_in rows.old.entries other }
{
    let mut states = Vec::new(alloc);
    states.push(state)?;
    rows.insert(household, List::from_vec(states))?;
    Ok(())
}

// Adds a state to those of a household.
fn add_to(alloc: Global, own: &mut HouseholdStates, state: KeptState) -> Result<(), NoMemory>
    ensures ok { OnOk result (own.new ≡ with_one_more own.old state) }
    ensures err { OnErr result (own.new ≡ without_second own.old) }
{
    let mut states = mem::replace(own, List::new(alloc)).into_vec();
    let added = add_state(&mut states, state);
    *own = List::from_vec(states);
    added
}

// Adds a state, in the place of the second one where there is no place for one more.
fn add_state(states: &mut Vec<KeptState>, state: KeptState) -> Result<(), NoMemory>
    ensures ok { OnOk result (states.new.items ≡ with_one_more states.old.items state) }
    ensures err { OnErr result (states.new.items ≡ without_second states.old.items) }
{
    thin(states);
    states.push(state)?;
    Ok(())
}

// Forgets the second state where there is no place for one more.
fn thin(states: &mut Vec<KeptState>)
    ensures { states.new.items ≡ without_second states.old.items }
{
    if MOST_STATES <= states.len() {
        let _second = states.remove(1);
    }
}

// Leaves the states of a household behind the sheets before this one.
fn leave_before(alloc: Global, own: &mut HouseholdStates, sheet: u32)
    ensures { own.new ≡ filter (λ kept. nat_lt kept.sheet sheet) own.old }
{
    let mut states = mem::replace(own, List::new(alloc)).into_vec();
    keep_before(&mut states, sheet);
    *own = List::from_vec(states);
}

// The same, of the states alone.
fn keep_before(states: &mut Vec<KeptState>, sheet: u32)
    ensures { states.new.items ≡ filter (λ kept. nat_lt kept.sheet sheet) states.old.items }
{
    states.retain(|kept| kept.sheet < sheet);
}
