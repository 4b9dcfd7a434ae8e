//! Flows: what came in and what went out, the one kept beside the other, and their rows by number.
ghost use Rattle.std.specs.Prelude.{◌≡◌, ℕ, ◌+◌, ◌<◌, ◌≤◌, ◌^◌, ◌==◌, if◌then◌else◌, [], OnOk, nat_eq};
ghost use Rattle.std.specs.List.{IsDistinct};
ghost use Rattle.std.specs.HashMap.{spare};
ghost use Rattle.std.specs.Map.{keys_of};
ghost use Rattle.gain_loss_book.specs.Flows.{no_flow, with_flow, net, flow_by, flow_at, inflows, outflows, whole_flow};

use money_units::NoMemory;
use number_hashing::{NumberMap, number_map};
use std::alloc::Global;
use std::marker::Model;

/// What came in and what went out, of cents or of mils.
#[derive(Clone, Copy, Debug, PartialEq, Eq)]
pub struct Flow {
    pub inflow: u128,
    pub outflow: u128,
}

impl Flow {
    /// Nothing came in or went out.
    pub fn none() -> Flow
        ensures { result ≡ no_flow }
    {
        Flow {
            inflow: 0,
            outflow: 0,
        }
    }

    /// The flow of a change: a rise comes in, and a fall goes out.
    pub fn by(change: i128) -> Flow
        ensures { result ≡ flow_by change }
    {
        if change < 0 {
            Flow {
                inflow: 0,
                outflow: change.unsigned_abs(),
            }
        } else {
            Flow {
                inflow: change.unsigned_abs(),
                outflow: 0,
            }
        }
    }

    /// Two flows together.
    pub fn and(self, other: Flow) -> Flow
        requires inflow { self.inflow + other.inflow < 2 ^ 128 }
        requires outflow { self.outflow + other.outflow < 2 ^ 128 }
        ensures { result ≡ with_flow self other }
    {
        Flow {
            inflow: self.inflow + other.inflow,
            outflow: self.outflow + other.outflow,
        }
    }

    /// What came in less what went out.
    pub fn net(self) -> i128
        requires inflow { self.inflow < 2 ^ 127 }
        requires outflow { self.outflow < 2 ^ 127 }
        ensures { result ≡ net self }
    {
        self.inflow as i128 - self.outflow as i128
    }
}

/// Flows by number, with their sum, which is kept. Contracts see the rows, each number once, and how many more there is
/// room for.
#[derive(Drop)]
pub struct FlowRows {
    rows: NumberMap<u32, Flow>,
    whole: Flow,
}

impl Model for FlowRows {
    ghost use Rattle.std.specs.Prelude.{◌≡◌, nat_eq};
    ghost use Rattle.std.specs.HashMap.{spare};
    ghost use Rattle.gain_loss_book.specs.Flows.{FlowTable, whole_flow};

    ghost Value = { FlowTable };

    ghost view = { λ flows. record { rows = flows.rows.entries; room = spare flows.rows } };

    ghost invariant = { λ flows. flows.whole ≡ whole_flow flows.rows.entries };
}

impl FlowRows {
    /// No rows, and no room for any.
    pub fn new(alloc: Global) -> FlowRows
        ensures { result.rows ≡ [] }
    {
        FlowRows {
            rows: number_map(alloc),
            whole: Flow::none(),
        }
    }

    /// Makes room for so many rows more. After `NoMemory` no flow is changed.
    pub fn reserve(&mut self, count: usize) -> Result<(), NoMemory>
        ensures ok { OnOk result (count ≤ self.new.room) }
        ensures room { self.old.room ≤ self.new.room }
        ensures flows { (number : ℕ) → flow_at self.new.rows number ≡ flow_at self.old.rows number }
        ensures whole { whole_flow self.new.rows ≡ whole_flow self.old.rows }
    {
        self.rows.reserve(count)?;
        Ok(())
    }

    /// Adds a flow to that of a number. It takes no memory.
    pub fn add(&mut self, number: u32, flow: Flow)
        requires room { 1 ≤ self.old.room }
        requires inflow { inflows self.old.rows + flow.inflow < 2 ^ 128 }
        requires outflow { outflows self.old.rows + flow.outflow < 2 ^ 128 }
        ensures flows { (q : ℕ) → flow_at self.new.rows q
            ≡ (if number == q then with_flow (flow_at self.old.rows q) flow
            else flow_at self.old.rows q) }
        ensures whole { whole_flow self.new.rows ≡ with_flow (whole_flow self.old.rows) flow }
        ensures room { self.old.room ≤ self.new.room + 1 }
    {
        put(&mut self.rows, number, flow);
        self.whole = self.whole.and(flow);
    }

    /// The flow of a number.
    pub fn flow(&self, number: u32) -> Flow
        ensures flow { result ≡ flow_at self.now.rows number }
        ensures inflow { result.inflow ≤ inflows self.now.rows }
        ensures outflow { result.outflow ≤ outflows self.now.rows }
    {
        self.rows.get(&number).copied().unwrap_or(Flow::none())
    }

    /// All flows together, which are kept and not added up.
    pub fn whole(&self) -> Flow
        ensures whole { result ≡ whole_flow self.now.rows }
        ensures once { IsDistinct nat_eq (keys_of self.now.rows) }
    {
        let _numbers = self.rows.keys();
        self.whole
    }
}

// Adds a flow to that of a number, within the room that there is.
fn put(rows: &mut NumberMap<u32, Flow>, number: u32, flow: Flow)
    requires room { 1 ≤ spare rows.old }
    requires inflow { inflows rows.old.entries + flow.inflow < 2 ^ 128 }
    requires outflow { outflows rows.old.entries + flow.outflow < 2 ^ 128 }
    ensures flows { (q : ℕ) → flow_at rows.new.entries q
        ≡ (if number == q then with_flow (flow_at rows.old.entries q) flow
        else flow_at rows.old.entries q) }
    ensures whole { whole_flow rows.new.entries ≡ with_flow (whole_flow rows.old.entries) flow }
    ensures room { spare rows.old ≤ spare rows.new + 1 }
{
    if let Some(own) = rows.get_mut(&number) {
        *own = own.and(flow);
        return;
    }
    let first: Result<_, _> = rows.insert(number, Flow::none().and(flow));
    let _none = first.unwrap();
}
