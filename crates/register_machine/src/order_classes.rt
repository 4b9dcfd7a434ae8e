//! The classes of an order, read once for all crates above.
ghost use Rattle.std.specs.Prelude.{◌≡◌};
ghost use Rattle.register_machine.specs.pricing.OrderClasses.{class_of, target_of};

use agent_events::{Body, Identifier};

/// The class of an order.
pub fn class_of(body: &Body) -> Identifier
    ensures { result ≡ class_of body.now }
{
    match body {
        Body::Buy { class, gross: _ } => *class,
        Body::Sell { class, mils: _ } => *class,
        Body::SellCash { class, amount: _ } => *class,
        Body::SellAll { class } => *class,
        Body::Exchange {
            class,
            to: _,
            mils: _,
        } => *class,
        Body::ExchangeAll { class, to: _ } => *class,
        Body::Letter { class, amount: _ } => *class,
        Body::Elect { class, in_cash: _ } => *class,
    }
}

/// The class that an exchange goes to.
pub fn target_of(body: &Body) -> Option<Identifier>
    ensures { result ≡ target_of body.now }
{
    match body {
        Body::Exchange {
            class: _,
            to,
            mils: _,
        } => Some(*to),
        Body::ExchangeAll { class: _, to } => Some(*to),
        _ => None,
    }
}
