//! What a trade brings and takes, each party and each class once.
ghost use Rattle.std.specs.Prelude.{◌≡◌, ◌+◌, ◌<◌, ◌^◌};
ghost use Rattle.gain_loss_book.specs.ClassFlows.{no_flows};
ghost use Rattle.gain_loss_book.specs.Flows.{no_flow, reverse_flow};
ghost use Rattle.gain_loss_book.specs.TradeFlows.{AreSmall, IsSmall, coming, flows_by, flows_of_trade, going, no_trade_flows, reverse_flows, reverse_trade_flows, trade_flows};

use crate::class_flows::ClassFlows;
use crate::flows::Flow;
use agent_events::{Outcome, Trade, TradeKind};

/// What a trade brings and takes: the cash of its holder and of the underwriter, and cash and shares
/// of its class and of the class that it goes to.
#[derive(Clone, Copy, Debug, PartialEq, Eq)]
pub struct TradeFlows {
    pub account: u32,
    pub class: u32,
    pub to_class: u32,
    pub holder: Flow,
    pub own: ClassFlows,
    pub other: ClassFlows,
    pub underwriter: Flow,
}

impl TradeFlows {
    /// What a trade brings and takes. An unfilled order does neither.
    pub fn of(trade: &Trade) -> TradeFlows
        ensures flows { result ≡ flows_of_trade trade.now }
        ensures small { AreSmall result }
    {
        match trade.outcome {
            Outcome::Filled => flows_by(trade),
            Outcome::Unfilled(_) => nothing(trade),
        }
    }

    /// What is taken back.
    pub fn reversed(self) -> TradeFlows
        ensures flows { result ≡ reverse_trade_flows self }
        ensures small { AreSmall self → AreSmall result }
    {
        TradeFlows {
            account: self.account,
            class: self.class,
            to_class: self.to_class,
            holder: reversed(self.holder),
            own: both_reversed(self.own),
            other: both_reversed(self.other),
            underwriter: reversed(self.underwriter),
        }
    }
}

// A purchase pays its class and the underwriter, a redemption comes from the class, an exchange goes
// from class to class, a dividend goes to the holder and comes back where it is reinvested, and a
// letter's shortfall goes to the underwriter.
fn flows_by(trade: &Trade) -> TradeFlows
    ensures flows { result ≡ flows_by trade.now.kind trade.now }
    ensures small { AreSmall result }
{
    let cash = trade.cash.0;
    let charge = trade.charge.0;
    let rest = cash.saturating_sub(charge);
    let whole = rest + charge;
    let mils = trade.mils.0;
    let none = ClassFlows::none();
    match trade.kind {
        TradeKind::Buy => parts(
            trade,
            going(whole),
            class_flows(coming(rest), coming(mils)),
            none,
            coming(charge),
        ),
        TradeKind::Sell => parts(
            trade,
            coming(rest),
            class_flows(going(whole), going(mils)),
            none,
            coming(charge),
        ),
        TradeKind::Exchange => parts(
            trade,
            Flow::none(),
            class_flows(going(cash), going(mils)),
            class_flows(coming(cash), coming(trade.to_mils.0)),
            Flow::none(),
        ),
        TradeKind::LetterEnded => letter_ended(trade, cash, mils),
        TradeKind::DividendShares => parts(
            trade,
            through(cash),
            class_flows(through(cash), coming(mils)),
            none,
            Flow::none(),
        ),
        TradeKind::DividendCash => parts(
            trade,
            coming(cash),
            class_flows(going(cash), Flow::none()),
            none,
            Flow::none(),
        ),
        TradeKind::Letter => nothing(trade),
        TradeKind::LetterReached => nothing(trade),
        TradeKind::ElectCash => nothing(trade),
        TradeKind::ElectShares => nothing(trade),
    }
}

// What a letter falls short of goes from its class to the underwriter.
fn letter_ended(trade: &Trade, cents: u64, mils: u64) -> TradeFlows
    ensures flows { result
        ≡ trade_flows trade.now no_flow (record { cash = going cents; mils = going mils }) no_flows
        (coming cents) }
    ensures small { AreSmall result }
{
    let own = class_flows(going(cents), going(mils));
    parts(trade, Flow::none(), own, ClassFlows::none(), coming(cents))
}

fn parts(
    trade: &Trade,
    holder: Flow,
    own: ClassFlows,
    other: ClassFlows,
    underwriter: Flow,
) -> TradeFlows
    requires holder { IsSmall holder }
    requires own_cash { IsSmall own.cash }
    requires own_mils { IsSmall own.mils }
    requires other_cash { IsSmall other.cash }
    requires other_mils { IsSmall other.mils }
    requires underwriter { IsSmall underwriter }
    ensures flows { result ≡ trade_flows trade.now holder own other underwriter }
    ensures small { AreSmall result }
{
    TradeFlows {
        account: trade.account,
        class: trade.class,
        to_class: trade.to_class,
        holder,
        own,
        other,
        underwriter,
    }
}

fn nothing(trade: &Trade) -> TradeFlows
    ensures flows { result ≡ no_trade_flows trade.now }
    ensures small { AreSmall result }
{
    let none = ClassFlows::none();
    parts(trade, Flow::none(), none, none, Flow::none())
}

fn class_flows(cash: Flow, mils: Flow) -> ClassFlows
    ensures { result ≡ record { cash = cash; mils = mils } }
{
    ClassFlows { cash, mils }
}

fn coming(amount: u64) -> Flow
    ensures flow { result ≡ coming amount }
    ensures small { IsSmall result }
{
    Flow {
        inflow: u128::from(amount),
        outflow: 0,
    }
}

fn going(amount: u64) -> Flow
    ensures flow { result ≡ going amount }
    ensures small { IsSmall result }
{
    Flow {
        inflow: 0,
        outflow: u128::from(amount),
    }
}

fn through(amount: u64) -> Flow
    ensures flow { result ≡ record { inflow = amount; outflow = amount } }
    ensures small { IsSmall result }
{
    let amount = u128::from(amount);
    Flow {
        inflow: amount,
        outflow: amount,
    }
}

fn reversed(flow: Flow) -> Flow
    ensures { result ≡ reverse_flow flow }
{
    Flow {
        inflow: flow.outflow,
        outflow: flow.inflow,
    }
}

fn both_reversed(flows: ClassFlows) -> ClassFlows
    ensures { result ≡ reverse_flows flows }
{
    ClassFlows {
        cash: reversed(flows.cash),
        mils: reversed(flows.mils),
    }
}
