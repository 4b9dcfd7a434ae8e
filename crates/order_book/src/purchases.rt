//! Whether an account has bought before.
ghost use Rattle.std.specs.Prelude.{◌≡◌, ◌==◌, ◌&&◌, false, nat_lt};
ghost use Rattle.std.specs.List.{list_any};
ghost use Rattle.std.specs.Option.{option_copied, option_map_or};
ghost use Rattle.register_machine.specs.pricing.CorrectedOrders.{orders_of, stands};
ghost use Rattle.register_machine.specs.rules.Orders.{buys_class, ordered_before};

use crate::book::OrderBook;
use crate::room::item_at;
use agent_events::{Body, OrderRow};

impl OrderBook {
    /// Whether another order of the account to buy the class stands whose first event is earlier. It looks at the orders of
    /// the account alone.
    pub fn has_bought(&self, row: &OrderRow, class: u32) -> bool
        ensures { result ≡ list_any (ordered_before row.now class) (orders_of self.now.journal) }
    {
        let mut at = self.last_order(row.order.account.number());
        'orders: while let Some(index) = at {
            if is_before(row, class, item_at(self.orders(), index)) {
                return true;
            }
            at = self.earlier_order(index);
        }
        false
    }
}

fn is_before(row: &OrderRow, class: u32, other: Option<&OrderRow>) -> bool
    ensures { result ≡ option_map_or (ordered_before row.now class) (option_copied other.entry)
        false }
{
    match other {
        Some(other) => is_ordered_before(row, class, other),
        None => false,
    }
}

fn is_ordered_before(row: &OrderRow, class: u32, other: &OrderRow) -> bool
    ensures { result ≡ ordered_before row.now class other.now }
{
    other.order.account == row.order.account
        && other.place < row.place
        && !other.struck
        && buys_class(class, &other.order.body)
}

/// Whether the order is a purchase of this class.
pub fn buys_class(class: u32, body: &Body) -> bool
    ensures { result ≡ buys_class class body.now }
{
    match body {
        Body::Buy { class: own, .. } => own.number() == class,
        _ => false,
    }
}
