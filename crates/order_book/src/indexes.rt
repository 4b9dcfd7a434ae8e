//! All indexes of a book.
ghost use Rattle.std.specs.Prelude.{◌≡◌, ◌≤◌, ◌<◌, ◌+◌, ◌==◌, ℕ, [], OnOk, length, if◌then◌else◌};
ghost use Rattle.std.specs.Option.{option_map_or};
ghost use Rattle.order_book.specs.AllIndexes.{account_counted, household_counted, CountsAreLow, HasAllRoom, KeepsAll};
ghost use Rattle.order_book.specs.Books.{Fits};
ghost use Rattle.order_book.specs.Indexes.{count_of, HasTallyRoom};
ghost use Rattle.order_book.specs.Kept.{CountsAccounts, CountsOrders};
ghost use Rattle.register_machine.specs.journal.Journals.{Journal, with_event};

use crate::identities::Identities;
use crate::keys::Keys;
use crate::numbers::Numbers;
use crate::orders::Orders;
use crate::rates::FixedRates;
use crate::tally::Tally;
use agent_events::EventKind;
use money_units::NoMemory;
use std::alloc::Global;

/// What is looked up in a journal.
#[derive(Drop)]
pub struct Indexes {
    pub identities: Identities,
    pub household_keys: Keys,
    pub dealer_keys: Keys,
    pub numbers: Numbers,
    pub order_counts: Tally,
    pub account_counts: Tally,
    pub rates: FixedRates,
    pub orders: Orders,
}

impl Indexes {
    pub fn new(alloc: Global) -> Indexes
        ensures { KeepsAll result [] }
    {
        Indexes {
            identities: Identities::new(alloc),
            household_keys: Keys::new(alloc),
            dealer_keys: Keys::new(alloc),
            numbers: Numbers::new(alloc),
            order_counts: Tally::new(alloc),
            account_counts: Tally::new(alloc),
            rates: FixedRates::new(alloc),
            orders: Orders::new(alloc),
        }
    }

    /// Takes the memory for so many events.
    pub fn reserve(&mut self, events: usize) -> Result<(), NoMemory>
        ensures same { (journal : Journal) → KeepsAll self.old journal → KeepsAll self.new journal }
        ensures room { OnOk result (HasAllRoom self.new events) }
        ensures kept { (n : ℕ) → HasAllRoom self.old n → HasAllRoom self.new n }
    {
        self.identities.reserve(events)?;
        self.household_keys.reserve(events)?;
        self.dealer_keys.reserve(events)?;
        self.numbers.reserve(events)?;
        self.order_counts.reserve(events)?;
        self.account_counts.reserve(events)?;
        self.rates.reserve(events)?;
        self.orders.reserve(events)
    }

    /// Takes in an event at this place.
    pub fn take(&mut self, kind: &EventKind, place: u64)
        requires room { HasAllRoom self.old 1 }
        requires low { CountsAreLow self.old }
        ensures kept { (journal : Journal) (moment : ℕ) → place ≡ length journal
            → KeepsAll self.old journal
            → Fits journal (record { moment = moment; kind = kind.now })
            → KeepsAll self.new (with_event journal (record { moment = moment; kind = kind.now })) }
        ensures room { (n : ℕ) → HasAllRoom self.old (n + 1) → HasAllRoom self.new n }
    {
        let at = place as usize;
        self.identities.take(kind, at);
        self.household_keys.take_household(kind, at);
        self.dealer_keys.take_dealer(kind, at);
        self.numbers.take(kind, at);
        count_order(&mut self.order_counts, kind);
        count_account(&mut self.account_counts, kind);
        self.rates.take(kind);
        self.orders.take(kind, place);
    }
}

// Counts an order or a cancel of an account.
fn count_order(tally: &mut Tally, kind: &EventKind)
    requires room { HasTallyRoom tally.old 1 }
    requires low { (account : ℕ) → count_of tally.old account < 100000000 }
    ensures counts { (account : ℕ) → count_of tally.new account
        ≡ count_of tally.old account
        + option_map_or (λ own. if own == account then 1 else 0) (account_counted kind.now) 0 }
    ensures room { (n : ℕ) → HasTallyRoom tally.old (n + 1) → HasTallyRoom tally.new n }
{
    match kind {
        EventKind::Order(placed) => tally.add(placed.order.account.number()),
        EventKind::Cancel(form) => tally.add(form.account.number()),
        EventKind::Enter(form) => tally.add(form.order.account.number()),
        _ => {}
    }
}

// Counts an account of a household.
fn count_account(tally: &mut Tally, kind: &EventKind)
    requires room { HasTallyRoom tally.old 1 }
    requires low { (household : ℕ) → count_of tally.old household < 100000000 }
    ensures counts { (household : ℕ) → count_of tally.new household
        ≡ count_of tally.old household
        + option_map_or (λ own. if own == household then 1 else 0) (household_counted kind.now) 0 }
    ensures room { (n : ℕ) → HasTallyRoom tally.old (n + 1) → HasTallyRoom tally.new n }
{
    if let EventKind::Account(form) = kind {
        tally.add(form.household.number());
    }
}
