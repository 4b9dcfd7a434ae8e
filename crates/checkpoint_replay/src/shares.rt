//! What changes add to the outstanding shares of classes.
ghost use Rattle.std.specs.Prelude.{◌≡◌, ◌+◌, ◌<◌, ◌≤◌, ◌^◌, ℕ, length};
ghost use Rattle.gain_loss_book.specs.ClassGains.{all_mils, mils_change_flow, mils_flow};
ghost use Rattle.gain_loss_book.specs.Flows.{fall, flow_at, flow_by, inflows, outflows, rise, whole_flow, with_flow};

use agent_events::MilsChange;
use gain_loss_book::{Flow, FlowRows};

// Adds a change of a class's shares.
fn add_share(shares: &mut FlowRows, change: &MilsChange)
    requires room { 1 ≤ shares.old.room }
    requires inflow { inflows shares.old.rows + rise change.now.mils < 2 ^ 128 }
    requires outflow { outflows shares.old.rows + fall change.now.mils < 2 ^ 128 }
    ensures flows { (class : ℕ) → flow_at shares.new.rows class
        ≡ with_flow (flow_at shares.old.rows class) (mils_change_flow change.now class) }
    ensures whole { whole_flow shares.new.rows
        ≡ with_flow (whole_flow shares.old.rows) (flow_by change.now.mils) }
    ensures room { shares.old.room ≤ shares.new.room + 1 }
{
    shares.add(change.class, Flow::by(change.mils));
}

/// Adds changes of shares. It takes no memory.
pub(crate) fn add_shares(shares: &mut FlowRows, changes: &[MilsChange])
    requires room { length changes.now ≤ shares.old.room }
    requires inflow { inflows shares.old.rows + (all_mils changes.now).inflow < 2 ^ 128 }
    requires outflow { outflows shares.old.rows + (all_mils changes.now).outflow < 2 ^ 128 }
    ensures flows { (class : ℕ) → flow_at shares.new.rows class
        ≡ with_flow (flow_at shares.old.rows class) (mils_flow changes.now class) }
    ensures whole { whole_flow shares.new.rows
        ≡ with_flow (whole_flow shares.old.rows) (all_mils changes.now) }
{
    for change in changes {
        add_share(shares, change);
    }
}
