//! The cash book: the cash that each party holds by all events so far, and the gains of each correction.
ghost use Rattle.std.specs.Prelude.{◌≡◌, ℕ, ◌+◌, ◌+ℤ◌, ◌*◌, ◌<◌, ◌≤◌, ◌^◌, ◌==◌, if◌then◌else◌, [], length, None, nat_eq, pos, OnOk, IfOk};
ghost use Rattle.std.specs.Option.{option_copied};
ghost use Rattle.std.specs.HashMap.{get, spare};
ghost use Rattle.std.specs.List.{IsDistinct};
ghost use Rattle.std.specs.Map.{keys_of};
ghost use Rattle.agent_events.specs.declared.order.Party.{Party as AnyParty};
ghost use Rattle.register_machine.specs.corrections.Cash.{balance};
ghost use Rattle.register_machine.specs.corrections.Payments.{payer, loss_payment, loss_payments};
ghost use Rattle.gain_loss_book.specs.Flows.{fall, net, with_flow, whole_flow};
ghost use Rattle.gain_loss_book.specs.PartyAccounts.{all_flows, flow_in, room_in};
ghost use Rattle.gain_loss_book.specs.Posted.{all_changes, cash_held, cash_of_holders, cash_posted, cash_together, changes_flow, gains_by, gains_kept, most_cash, most_gains, most_posts, movements_flow, payments_by, rows_of_correction, rows_posted, size_of_cash, size_of_correction, size_of_gains};

use crate::party_accounts::Accounts;
use crate::posting::{self, Correction};
use agent_events::{Changes, ClassGains, Party};
use money_units::NoMemory;
use std::alloc::Global;
use std::collections::HashMap;
use std::marker::Model;

/// The cash of every party by all events that were posted, and the gains of each correction among them.
///
/// Contracts see the rows of the parties' cash, the gains by the place of their event, how many events were posted, and how
/// many more rows there is room for.
#[derive(Drop)]
pub struct CashBook {
    accounts: Accounts,
    corrections: HashMap<u64, ClassGains>,
    posts: u64,
}

impl Model for CashBook {
    ghost use Rattle.std.specs.Prelude.{◌*◌, ◌≤◌, min};
    ghost use Rattle.std.specs.HashMap.{spare};
    ghost use Rattle.gain_loss_book.specs.PartyAccounts.{room_in};
    ghost use Rattle.gain_loss_book.specs.Posted.{Books, KeepsWithin};

    ghost Value = { Books };

    ghost view = { λ book. record {
      accounts = book.accounts;
      corrections = book.corrections.entries;
      posts = book.posts;
      room = min (room_in book.accounts) (spare book.corrections);
    } };

    ghost invariant = { λ book. KeepsWithin book.accounts book.posts };
}

impl CashBook {
    /// Nothing is posted, and there is no room for a post.
    pub fn new(alloc: Global) -> CashBook
        ensures balances { (party : AnyParty) → cash_held result party ≡ pos 0 }
        ensures together { cash_together result ≡ pos 0 }
        ensures gains { (seq : ℕ) → gains_kept result seq ≡ None }
        ensures posts { result.posts ≡ 0 }
    {
        CashBook {
            accounts: Accounts::new(alloc),
            corrections: HashMap::new(alloc),
            posts: 0,
        }
    }

    /// Makes room for a post with these. After `NoMemory` the book shows what it showed before.
    pub fn reserve(
        &mut self,
        changes: &Changes,
        correction: Option<&Correction>,
    ) -> Result<(), NoMemory>
        ensures ok { OnOk result (rows_posted changes.now.cash (option_copied correction.entry)
            ≤ self.new.room) }
        ensures room { self.old.room ≤ self.new.room }
        ensures balances { (party : AnyParty)
            → cash_held self.new party ≡ cash_held self.old party }
        ensures holders { cash_of_holders self.new ≡ cash_of_holders self.old }
        ensures together { cash_together self.new ≡ cash_together self.old }
        ensures gains { (seq : ℕ) → gains_kept self.new seq ≡ gains_kept self.old seq }
        ensures posts { self.new.posts ≡ self.old.posts }
    {
        let rows = room_for(changes, correction)?;
        self.accounts.reserve(rows)?;
        self.corrections.reserve(rows)?;
        Ok(())
    }

    /// Books an event: the changes of cash that it brings, and for a correction the payments of its losses and its gains. A loss
    /// that a dealer or the agent bears is paid to the class; one that the fund bears and every gain move nothing.
    ///
    /// `seq` is the event's place in the journal, at which no correction was posted yet. It takes no memory.
    pub fn post(&mut self, seq: u64, changes: &Changes, correction: Option<Correction>)
        requires room { rows_posted changes.now.cash correction ≤ self.old.room }
        requires new { gains_kept self.old seq ≡ None }
        requires cash { size_of_cash changes.now.cash ≤ most_cash }
        requires gains { size_of_correction correction ≤ most_gains }
        requires posts { self.old.posts < most_posts }
        ensures balances { (party : AnyParty) → cash_held self.new party
            ≡ cash_held self.old party +ℤ cash_posted changes.now.cash correction party }
        ensures together { cash_together self.new
            ≡ cash_together self.old +ℤ net (all_changes changes.now.cash) }
        ensures gains { (q : ℕ) → gains_kept self.new q
            ≡ (if seq == q then gains_by correction else gains_kept self.old q) }
        ensures posts { self.new.posts ≡ self.old.posts + 1 }
        ensures room { self.old.room ≤ self.new.room + rows_posted changes.now.cash correction }
    {
        posting::add_changes(&mut self.accounts, changes.cash.as_slice());
        posting::pay(&mut self.accounts, correction.as_ref());
        keep_gains(&mut self.corrections, seq, correction);
        self.posts += 1;
    }

    /// How many events were posted.
    pub fn posts(&self) -> u64
        ensures { result ≡ self.now.posts }
    {
        self.posts
    }

    /// The cash of a party in cents; what it owes is negative.
    pub fn balance(&self, party: Party) -> i128
        ensures { result ≡ cash_held self.now party }
    {
        self.accounts.flow(party).net()
    }

    /// The cash of all holders together, which is kept and not added up. Each holder has one row at most.
    pub fn holders_cash(&self) -> i128
        ensures cash { result ≡ cash_of_holders self.now }
        ensures once { IsDistinct nat_eq (keys_of self.now.accounts.holders.rows) }
    {
        self.accounts.holders.whole().net()
    }

    /// The gains of the correction at this place of the journal; `None` exactly where that event is no correction.
    pub fn gains_of(&self, seq: u64) -> Option<&ClassGains>
        ensures { option_copied result ≡ gains_kept self.now seq }
    {
        self.corrections.get(&seq)
    }
}

// How many rows a post takes at most.
fn room_for(changes: &Changes, correction: Option<&Correction>) -> Result<usize, NoMemory>
    ensures { IfOk result (λ rows. rows
        ≡ rows_posted changes.now.cash (option_copied correction.entry)) }
{
    let rows = changes.cash.len();
    match correction {
        None => Ok(rows),
        Some(correction) => {
            let gains = correction.gains.len();
            let taken = gains.checked_mul(2).ok_or(NoMemory)?;
            let taken = taken.checked_add(1).ok_or(NoMemory)?;
            Ok(rows.checked_add(taken).ok_or(NoMemory)?)
        }
    }
}

// Keeps the gains of a correction at its place.
fn keep_gains(corrections: &mut HashMap<u64, ClassGains>, seq: u64, correction: Option<Correction>)
    requires room { rows_of_correction correction ≤ spare corrections.old }
    requires new { get nat_eq corrections.old seq ≡ None }
    ensures gains { (q : ℕ) → get nat_eq corrections.new q
        ≡ (if seq == q then gains_by correction else get nat_eq corrections.old q) }
    ensures room { spare corrections.old ≤ spare corrections.new + rows_of_correction correction }
{
    if let Some(correction) = correction {
        let Correction { bearer: _, gains } = correction;
        let kept: Result<_, _> = corrections.insert(seq, gains);
        let _none = kept.unwrap();
    }
}
