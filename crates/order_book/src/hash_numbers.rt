//! The numbers from which the tables of the book find a key: one number a key, where a derived
//! hash takes each field by itself.
ghost use Rattle.std.specs.Prelude.{◌≡◌, ◌<◌};
ghost use Rattle.order_book.specs.HashNumbers.{identity_number, mixed_number};

use crate::identity::Identity;

/// One number of a kind below 16, a number and a further one. Different ones seldom have the same.
pub(crate) fn mixed_number(kind: u8, first: u32, second: u64) -> u64
    requires { kind < 16 }
    ensures { result ≡ mixed_number kind first second }
{
    (first as u64 * 4_294_967_296 + kind as u64 * 268_435_456) ^ second
}

/// The number of an identity.
pub(crate) fn identity_number(identity: Identity) -> u64
    ensures { result ≡ identity_number identity }
{
    match identity {
        Identity::Reference { account, ref_no } => mixed_number(0, account, ref_no),
        Identity::Fix(fix) => mixed_number(1, 0, fix),
        Identity::Calendar(number) => mixed_number(2, number, 0),
        Identity::Closure { calendar, day } => mixed_number(3, calendar, day.number() as u64),
        Identity::Class(number) => mixed_number(4, number, 0),
        Identity::Dealer(number) => mixed_number(5, number, 0),
        Identity::Household(number) => mixed_number(6, number, 0),
        Identity::Account(number) => mixed_number(7, number, 0),
        Identity::Sheet { calendar, moment } => mixed_number(8, calendar, moment.seconds()),
        Identity::Dividend { class, moment } => mixed_number(9, class, moment.seconds()),
    }
}
