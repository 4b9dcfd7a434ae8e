//! Refusals 4, 16, 17 and 19: what is known by name, an account's orders, how many of a kind there may be, and a full journal.
ghost use Rattle.std.specs.Prelude.{◌≡◌, ◌||◌, count_by, false, length, nat_le};
ghost use Rattle.register_machine.specs.journal.Choices.{when};
ghost use Rattle.register_machine.specs.rules.Identities.{has_fix, has_reference};
ghost use Rattle.register_machine.specs.rules.Limits.{is_of_account};

use crate::inquiry::Inquiry;
use crate::rules::refused_when;
use agent_events::{Identifier, Reference, Refusal};

/// The most orders and cancels of an account.
const MAX_ORDERS: u32 = 4_096;

/// The most events of a journal.
const MAX_EVENTS: u64 = 100_000_000;

/// The reference of the account is known.
pub(crate) fn reference_used(
    inquiry: &Inquiry,
    account: Identifier,
    ref_no: Reference,
) -> Option<Refusal>
    ensures { result ≡ when (has_reference inquiry.now (account, ref_no) || false) Refusal.RefUsed }
{
    refused_when(inquiry.has_reference(account, ref_no), Refusal::RefUsed)
}

/// The number of the correction is known.
pub(crate) fn fix_used(inquiry: &Inquiry, fix: Reference) -> Option<Refusal>
    ensures { result ≡ when (has_fix inquiry.now fix) Refusal.RefUsed }
{
    refused_when(inquiry.has_fix(fix), Refusal::RefUsed)
}

/// The account has as many orders and cancels as it may have, struck ones too.
pub(crate) fn orders_full(inquiry: &Inquiry, account: Identifier) -> Option<Refusal>
    ensures { result ≡ when (nat_le 4096 (count_by (is_of_account account) inquiry.now.journal))
        (Refusal.OrdersFull 4096) }
{
    refused_when(
        inquiry.orders_in(account) >= MAX_ORDERS as usize,
        Refusal::OrdersFull(MAX_ORDERS),
    )
}

/// There are as many of a kind as there may be.
pub(crate) fn too_many(count: usize, limit: u32) -> Option<Refusal>
    ensures { result ≡ when (nat_le limit count) (Refusal.TooMany limit) }
{
    refused_when(count >= limit as usize, Refusal::TooMany(limit))
}

/// The journal is full.
pub(crate) fn journal_full(inquiry: &Inquiry) -> Option<Refusal>
    ensures { result ≡ when (nat_le 100000000 (length inquiry.now.journal)) Refusal.JournalFull }
{
    refused_when(inquiry.len() >= MAX_EVENTS, Refusal::JournalFull)
}
