//! What a post adds to the accounts of the parties: changes of cash, and the payments of losses.
ghost use Rattle.std.specs.Prelude.{◌≡◌, ℕ, ◌+◌, ◌*◌, ◌<◌, ◌≤◌, ◌^◌, ◌∷◌, [], length, Some};
ghost use Rattle.std.specs.Option.{option_copied};
ghost use Rattle.agent_events.specs.declared.order.Party.{Party as AnyParty};
ghost use Rattle.register_machine.specs.corrections.Cash.{cash_movement};
ghost use Rattle.register_machine.specs.corrections.Payments.{payer, loss_payment, loss_payments};
ghost use Rattle.gain_loss_book.specs.Flows.{fall, flow_by, rise, with_flow};
ghost use Rattle.gain_loss_book.specs.PartyAccounts.{all_flows, flow_in, room_in};
ghost use Rattle.gain_loss_book.specs.Posted.{all_changes, change_flow, changes_flow, cents_moved, flow_of_movements, movements_flow, payments_by, rows_of_correction};

use crate::flows::Flow;
use crate::party_accounts::Accounts;
use agent_events::{Bearer, CashChange, ClassGain, ClassGains, Party};

/// What a correction brings besides its changes: who bears its losses, and the gain or loss of each class that changes.
#[derive(Debug, Drop)]
pub struct Correction {
    pub bearer: Bearer,
    pub gains: ClassGains,
}

// Adds a change of cash.
fn add_change(accounts: &mut Accounts, change: &CashChange)
    requires room { 1 ≤ room_in accounts.old }
    requires inflow { (all_flows accounts.old).inflow + rise change.now.cents < 2 ^ 128 }
    requires outflow { (all_flows accounts.old).outflow + fall change.now.cents < 2 ^ 128 }
    ensures flows { (q : AnyParty) → flow_in accounts.new q
        ≡ with_flow (flow_in accounts.old q) (change_flow change.now q) }
    ensures all { all_flows accounts.new
        ≡ with_flow (all_flows accounts.old) (flow_by change.now.cents) }
    ensures room { room_in accounts.old ≤ room_in accounts.new + 1 }
{
    accounts.add(change.party, Flow::by(change.cents));
}

/// Adds changes of cash.
pub fn add_changes(accounts: &mut Accounts, changes: &[CashChange])
    requires room { length changes.now ≤ room_in accounts.old }
    requires inflow { (all_flows accounts.old).inflow + (all_changes changes.now).inflow < 2 ^ 128 }
    requires outflow { (all_flows accounts.old).outflow
        + (all_changes changes.now).outflow < 2 ^ 128 }
    ensures flows { (q : AnyParty) → flow_in accounts.new q
        ≡ with_flow (flow_in accounts.old q) (changes_flow changes.now q) }
    ensures all { all_flows accounts.new
        ≡ with_flow (all_flows accounts.old) (all_changes changes.now) }
    ensures room { room_in accounts.old ≤ room_in accounts.new + length changes.now }
{
    for change in changes {
        add_change(accounts, change);
    }
}

// The party that pays a loss, where it isn't the fund's own.
fn payer(bearer: Bearer) -> Option<Party>
    ensures { result ≡ payer bearer }
{
    match bearer {
        Bearer::Fund => None,
        Bearer::Agent => Some(Party::Agent),
        Bearer::Dealer(dealer) => Some(Party::Dealer(dealer.number())),
    }
}

// Moves cents from one party to another.
fn move_cash(accounts: &mut Accounts, giver: Party, taker: Party, cents: u128)
    requires room { 2 ≤ room_in accounts.old }
    requires inflow { (all_flows accounts.old).inflow + cents < 2 ^ 128 }
    requires outflow { (all_flows accounts.old).outflow + cents < 2 ^ 128 }
    ensures flows { (q : AnyParty) → flow_in accounts.new q
        ≡ with_flow (flow_in accounts.old q)
        (movements_flow (cash_movement giver taker cents ∷ []) q) }
    ensures all { all_flows accounts.new
        ≡ with_flow (all_flows accounts.old)
        (flow_of_movements (cash_movement giver taker cents ∷ [])) }
    ensures room { room_in accounts.old ≤ room_in accounts.new + 2 }
{
    accounts.add(
        giver,
        Flow {
            inflow: 0,
            outflow: cents,
        },
    );
    accounts.add(
        taker,
        Flow {
            inflow: cents,
            outflow: 0,
        },
    );
}

// A loss is paid to its class; a gain moves nothing.
fn pay_loss(accounts: &mut Accounts, payer: Party, gain: &ClassGain)
    requires room { 2 ≤ room_in accounts.old }
    requires inflow { (all_flows accounts.old).inflow
        + cents_moved (loss_payment payer gain.now.class gain.now.cents) < 2 ^ 128 }
    requires outflow { (all_flows accounts.old).outflow
        + cents_moved (loss_payment payer gain.now.class gain.now.cents) < 2 ^ 128 }
    ensures flows { (q : AnyParty) → flow_in accounts.new q
        ≡ with_flow (flow_in accounts.old q)
        (movements_flow (loss_payment payer gain.now.class gain.now.cents) q) }
    ensures all { all_flows accounts.new
        ≡ with_flow (all_flows accounts.old)
        (flow_of_movements (loss_payment payer gain.now.class gain.now.cents)) }
    ensures room { room_in accounts.old ≤ room_in accounts.new + 2 }
{
    if gain.cents < 0 {
        let class = Party::Class(gain.class.number());
        move_cash(accounts, payer, class, gain.cents.unsigned_abs());
    }
}

// The party pays the losses among the gains.
fn pay_losses(accounts: &mut Accounts, payer: Party, gains: &[ClassGain])
    requires room { 2 * length gains.now ≤ room_in accounts.old }
    requires inflow { (all_flows accounts.old).inflow
        + cents_moved (loss_payments (Some payer) gains.now) < 2 ^ 128 }
    requires outflow { (all_flows accounts.old).outflow
        + cents_moved (loss_payments (Some payer) gains.now) < 2 ^ 128 }
    ensures flows { (q : AnyParty) → flow_in accounts.new q
        ≡ with_flow (flow_in accounts.old q)
        (movements_flow (loss_payments (Some payer) gains.now) q) }
    ensures all { all_flows accounts.new
        ≡ with_flow (all_flows accounts.old)
        (flow_of_movements (loss_payments (Some payer) gains.now)) }
    ensures room { room_in accounts.old ≤ room_in accounts.new + 2 * length gains.now }
{
    for gain in gains {
        pay_loss(accounts, payer, gain);
    }
}

/// Whoever bears the losses of a correction pays them.
pub fn pay(accounts: &mut Accounts, correction: Option<&Correction>)
    requires room { rows_of_correction (option_copied correction) ≤ room_in accounts.old }
    requires inflow { (all_flows accounts.old).inflow
        + cents_moved (payments_by (option_copied correction)) < 2 ^ 128 }
    requires outflow { (all_flows accounts.old).outflow
        + cents_moved (payments_by (option_copied correction)) < 2 ^ 128 }
    ensures flows { (q : AnyParty) → flow_in accounts.new q
        ≡ with_flow (flow_in accounts.old q)
        (movements_flow (payments_by (option_copied correction.entry)) q) }
    ensures all { all_flows accounts.new
        ≡ with_flow (all_flows accounts.old)
        (flow_of_movements (payments_by (option_copied correction.entry))) }
    ensures room { room_in accounts.old
        ≤ room_in accounts.new + rows_of_correction (option_copied correction.entry) }
{
    let Some(correction) = correction else {
        return;
    };
    let Some(payer) = payer(correction.bearer) else {
        return;
    };
    pay_losses(accounts, payer, correction.gains.as_slice());
}
