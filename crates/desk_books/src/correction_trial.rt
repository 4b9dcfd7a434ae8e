//! The trial of a correction.
ghost use Rattle.std.specs.Prelude.{◌≡◌, ◌≤◌, ◌+◌, ◌*◌, IfOk, OnOk, is_some, true, length, ℕ, List};
ghost use Rattle.std.specs.List.{sum_by};
ghost use Rattle.std.specs.List.Sorted.{IsStrictlyIncreasing};
ghost use Rattle.agent_events.specs.declared.event.EventKind.{EventKind as Kind};
ghost use Rattle.agent_events.specs.declared.reply.Refusal.{Refusal as AnyRefusal};
ghost use Rattle.checkpoint_replay.specs.Moves.{AreMoves};
ghost use Rattle.desk_books.specs.HouseholdsReopened.{AreReached};
ghost use Rattle.desk_books.specs.Changed.{AreMovesOf, IsMovedWith};
ghost use Rattle.desk_books.specs.Reopened.{IsReopenedWhole, IsTriedOver, TakesFewSteps};
ghost use Rattle.desk_books.specs.Served.{known_in};
ghost use Rattle.desk_books.specs.Settled.{AreForgotten, AreForgottenBy, IsTrialOf, KeepsStates};
ghost use Rattle.desk_books.specs.Starts.{LeavesBefore, first_touched, number_listed, sheets_replayed};
ghost use Rattle.desk_books.specs.CorrectionTrials.{IsFresh, Says};
ghost use Rattle.desk_books.specs.declared.correction_trial.Tried.{Tried as AnyTried};
ghost use Rattle.desk_books.specs.BooksOfJournals.{AreBooksOf, ShowTheSame};
ghost use Rattle.register_laws.specs.EventReplays.{is_correction};
ghost use Rattle.forward_price.specs.PriceTables.{sheets_on_trial};
ghost use Rattle.household_fold.specs.Facts.{FactsFit, sheets_known};
ghost use Rattle.register_laws.specs.CorrectionReach.{order_changed};
ghost use Rattle.register_laws.specs.Lawful.{book_behind};

use crate::books::DeskBooks;
use crate::change::LedgerChange;
use crate::forgetting::forget_all;
use crate::index::sheets_published;
use crate::least::{BrokenTrade, FirstBroken};
use crate::moving::{bearer_of, with_gains};
use crate::reach::households_reached;
use crate::references::references_in;
use crate::reopening::{Reopened, reopen_all};
use agent_events::{
    Bearer, Event, EventKind, FixPriceForm, FixRateForm, Identifier, Rates, Reference, Refusal,
    Trade,
};
use checkpoint_replay::{Change, HouseholdMove, KeptStates};
use forward_price::{Patch, PriceBook};
use household_fold::{Facts, Steps};
use money_units::NoMemory;
use reference_tables::{patch_of, sheet_priced};
use std::alloc::Global;
use std::sync::ledger::Ledger as StepLedger;

/// What the trial of a correction says.
#[derive(Drop)]
pub enum Tried {
    /// It breaks an order, the first in the order of execution.
    Breaks(Refusal),
    /// It breaks none, and makes this of the ledger.
    Moves(LedgerChange),
}

/// What the trial of a correction says, with the households that it reaches; it touches no sheet before this one.
#[derive(Drop)]
pub(crate) struct Trial {
    pub(crate) tried: Tried,
    pub(crate) households: Vec<u32>,
    pub(crate) before: u32,
}

/// Tries a correction that no rule before the last one refuses: the households that it can reach are replayed with it, by at most
/// as many steps each as there are sheets, and for a corrected price or rate as there are sheets behind the last state of it that
/// is kept before that sheet; and no others. Past the limits of a post it is `NoMemory`. Where it breaks no order, the
/// states that are kept of those households behind the sheets that it touches are forgotten. The books show what they showed before.
pub fn try_correction<L: StepLedger>(
    alloc: Global,
    books: &mut DeskBooks,
    event: &Event,
    steps: &mut Steps<L>,
) -> Result<Tried, NoMemory>
    requires books { AreBooksOf books.old.book.journal books.old }
    requires correction { is_correction event.now.kind ≡ true }
    requires fresh { IsFresh books.old.book.journal event.now }
    ensures same { ShowTheSame books.old books.new }
    ensures journal { books.new.book ≡ books.old.book }
    ensures ledger { books.new.ledger ≡ books.old.ledger }
    ensures says { IfOk result (Says books.old.book.journal event.now books.old.ledger.parts) }
    ensures kept { IfOk result (KeepsStates books.old.book.journal event.now books.new.kept) }
    ensures steps { OnOk result ((households : List ℕ)
        × IsStrictlyIncreasing households
        × AreReached books.old.book.journal event.now.kind households
        × (steps.new ≤ steps.old
        + length households * length (book_behind books.old.book.journal).table.sheets)) }
    ensures behind { OnOk result ((households : List ℕ)
        × IsStrictlyIncreasing households
        × AreReached books.old.book.journal event.now.kind households
        × (steps.new ≤ steps.old
        + sum_by (sheets_replayed books.old.kept
        (first_touched books.old.prices.table.sheets event.now.kind)
        (length books.old.prices.table.sheets)) households)) }
{
    let trial = try_kind(alloc, books, event, steps)?;
    Ok(settle(&mut books.kept, trial))
}

// What the trial says. Where it breaks no order, the kept states that the correction touches are forgotten.
fn settle(kept: &mut KeptStates, trial: Trial) -> Tried
    ensures tried { result ≡ trial.tried }
    ensures states { AreForgotten trial kept.old kept.new }
{
    let Trial {
        tried,
        households,
        before,
    } = trial;
    forget_touched(kept, &tried, &households, before);
    tried
}

fn forget_touched(kept: &mut KeptStates, tried: &Tried, households: &[u32], before: u32)
    ensures { AreForgottenBy tried.now households.now before kept.old kept.new }
{
    match tried {
        Tried::Moves(_) => forget_all(kept, households, before),
        Tried::Breaks(_) => {}
    }
}

// The trial, by the kind of the correction.
fn try_kind<L: StepLedger>(
    alloc: Global,
    books: &DeskBooks,
    event: &Event,
    steps: &mut Steps<L>,
) -> Result<Trial, NoMemory>
    requires books { AreBooksOf books.now.book.journal books.now }
    requires correction { is_correction event.now.kind ≡ true }
    requires fresh { IsFresh books.now.book.journal event.now }
    ensures trial { IfOk result (IsTrialOf books.now event.now) }
    ensures steps { OnOk result (TakesFewSteps books.now event.now
        (first_touched books.now.prices.table.sheets event.now.kind) steps.old steps.new) }
{
    match event.kind() {
        EventKind::FixPrice(form) => try_price(alloc, books, event, form, steps),
        EventKind::FixRate(form) => try_rate(alloc, books, event, form, steps),
        EventKind::Enter(_) => try_order(alloc, books, event, steps),
        EventKind::Replace(_) => try_order(alloc, books, event, steps),
        EventKind::Void(_) => try_order(alloc, books, event, steps),
        _ => unreachable!(),
    }
}

// A corrected price is tried as a patch of the sheet that it fixes.
fn try_price<L: StepLedger>(
    alloc: Global,
    books: &DeskBooks,
    event: &Event,
    form: &FixPriceForm,
    steps: &mut Steps<L>,
) -> Result<Trial, NoMemory>
    requires books { AreBooksOf books.now.book.journal books.now }
    requires correction { is_correction event.now.kind ≡ true }
    requires fresh { IsFresh books.now.book.journal event.now }
    requires kind { event.now.kind ≡ Kind.FixPrice form.now }
    ensures trial { IfOk result (IsTrialOf books.now event.now) }
    ensures steps { OnOk result (TakesFewSteps books.now event.now
        (first_touched books.now.prices.table.sheets event.now.kind) steps.old steps.new) }
{
    match patch_of(&books.prices, form) {
        Some(patch) => {
            let before = patch.sheet;
            try_with(
                alloc,
                books,
                event,
                books.tables.rates(),
                Some(patch),
                before,
                steps,
            )
        }
        None => unreachable!(),
    }
}

// A corrected rate is tried among the others.
fn try_rate<L: StepLedger>(
    alloc: Global,
    books: &DeskBooks,
    event: &Event,
    form: &FixRateForm,
    steps: &mut Steps<L>,
) -> Result<Trial, NoMemory>
    requires books { AreBooksOf books.now.book.journal books.now }
    requires correction { is_correction event.now.kind ≡ true }
    requires fresh { IsFresh books.now.book.journal event.now }
    requires kind { event.now.kind ≡ Kind.FixRate form.now }
    ensures trial { IfOk result (IsTrialOf books.now event.now) }
    ensures steps { OnOk result (TakesFewSteps books.now event.now
        (first_touched books.now.prices.table.sheets event.now.kind) steps.old steps.new) }
{
    let _rate = form.rate.millionths();
    let rates = books.tables.rates_with(alloc, form)?;
    let before = sheet_touched(&books.prices, form);
    try_with(alloc, books, event, &rates, None, before, steps)
}

// The number of the sheet that pays the corrected rate, 0 where none is published.
fn sheet_touched(prices: &PriceBook, form: &FixRateForm) -> u32
    ensures { result ≡ number_listed form.now.class form.now.moment prices.now.table.sheets }
{
    match sheet_priced(prices.sheets(), form.class.number(), form.moment) {
        Some(sheet) => sheet.number,
        None => 0,
    }
}

// A corrected order is tried by what is kept.
fn try_order<L: StepLedger>(
    alloc: Global,
    books: &DeskBooks,
    event: &Event,
    steps: &mut Steps<L>,
) -> Result<Trial, NoMemory>
    requires books { AreBooksOf books.now.book.journal books.now }
    requires correction { is_correction event.now.kind ≡ true }
    requires fresh { IsFresh books.now.book.journal event.now }
    requires order { is_some (order_changed event.now.kind) ≡ true }
    ensures trial { IfOk result (IsTrialOf books.now event.now) }
    ensures steps { OnOk result (TakesFewSteps books.now event.now
        (first_touched books.now.prices.table.sheets event.now.kind) steps.old steps.new) }
{
    try_with(alloc, books, event, books.tables.rates(), None, 0, steps)
}

// By the rates and under the patch of the trial, which touches no sheet before this one.
fn try_with<L: StepLedger>(
    alloc: Global,
    books: &DeskBooks,
    event: &Event,
    rates: &Rates,
    patch: Option<Patch>,
    before: u32,
    steps: &mut Steps<L>,
) -> Result<Trial, NoMemory>
    requires tried { IsTriedOver books.now event.now (known_in books.now rates.now patch) }
    requires before { LeavesBefore books.now.book.journal event.now before }
    ensures trial { IfOk result (IsTrialOf books.now event.now) }
    ensures steps { OnOk result (TakesFewSteps books.now event.now before steps.old steps.new) }
{
    let facts = Facts {
        prices: &books.prices,
        terms: books.tables.terms(),
        accounts: books.tables.accounts(),
        rates,
        patch,
        sheet: sheets_published(&books.prices)?,
    };
    let households = reached(alloc, books, event)?;
    let reopened = reopen_all(alloc, books, event, &facts, &households, before, steps)?;
    let tried = said(alloc, books, event, &facts, patch, reopened)?;
    Ok(Trial {
        tried,
        households,
        before,
    })
}

// The households that the correction can reach.
fn reached(alloc: Global, books: &DeskBooks, event: &Event) -> Result<Vec<u32>, NoMemory>
    requires { AreBooksOf books.now.book.journal books.now }
    ensures reached { IfOk result (λ households.
        AreReached books.now.book.journal event.now.kind households.items) }
    ensures rising { IfOk result (λ households. IsStrictlyIncreasing households.items) }
{
    let orders = books.book.orders();
    households_reached(alloc, orders, &books.orders, &books.classes, event.kind())
}

// What the households that were reopened say.
fn said(
    alloc: Global,
    books: &DeskBooks,
    event: &Event,
    facts: &Facts,
    patch: Option<Patch>,
    reopened: Reopened,
) -> Result<Tried, NoMemory>
    requires tried { IsTriedOver books.now event.now facts.now }
    requires sheets { sheets_on_trial patch books.now.prices.table.sheets ≡ sheets_known facts.now }
    requires reached { IsReopenedWhole books.now event.now facts.now reopened.moves.items
        reopened.first.least }
    ensures { IfOk result (Says books.now.book.journal event.now books.now.ledger.parts) }
{
    references_in(books);
    let Reopened { moves, first } = reopened;
    match least_of(&first) {
        Some(broken) => breaks(broken),
        None => moved(alloc, books, event, patch, moves),
    }
}

fn least_of(first: &FirstBroken) -> Option<BrokenTrade>
    ensures { result ≡ first.now.least }
{
    first.least
}

// The refusal that names the order which is broken first.
fn breaks(broken: BrokenTrade) -> Result<Tried, NoMemory>
    ensures { IfOk result (λ tried. tried
        ≡ AnyTried.Breaks (AnyRefusal.Breaks broken.trade.account broken.trade.ref_no)) }
{
    let refusal = refusal_of(&broken.trade)?;
    Ok(Tried::Breaks(refusal))
}

// The change that these moves make, with its gains.
fn moved(
    alloc: Global,
    books: &DeskBooks,
    event: &Event,
    patch: Option<Patch>,
    moves: Vec<HouseholdMove>,
) -> Result<Tried, NoMemory>
    requires moves { AreMoves moves.items }
    requires correction { is_correction event.now.kind ≡ true }
    ensures { IfOk result (AreMovesOf event.now
        (sheets_on_trial patch books.now.prices.table.sheets)
        books.now.ledger.parts moves.items) }
{
    let made = books.ledger.change_of(alloc, moves)?;
    match bearer_of(event.kind()) {
        Some(bearer) => moved_with(alloc, made, bearer, &books.prices, patch),
        None => unreachable!(),
    }
}

fn moved_with(
    alloc: Global,
    made: Change,
    bearer: Bearer,
    prices: &PriceBook,
    patch: Option<Patch>,
) -> Result<Tried, NoMemory>
    ensures { IfOk result
        (IsMovedWith made bearer (sheets_on_trial patch prices.now.table.sheets)) }
{
    let moved = with_gains(alloc, made, bearer, prices, patch)?;
    Ok(Tried::Moves(moved))
}

// The refusal that names the order of a trade.
fn refusal_of(trade: &Trade) -> Result<Refusal, NoMemory>
    ensures { IfOk result (λ refusal. refusal
        ≡ AnyRefusal.Breaks trade.now.account trade.now.ref_no) }
{
    let account = Identifier::new(trade.account as u64).ok_or(NoMemory)?;
    let ref_no = Reference::new(trade.ref_no).ok_or(NoMemory)?;
    Ok(Refusal::Breaks(account, ref_no))
}
