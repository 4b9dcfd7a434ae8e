//! Equal content.
ghost use Rattle.std.specs.Prelude.{◌≡◌};
ghost use Rattle.agent_events.specs.Contents.{same_request};

use crate::request::Request;
use crate::verbs::{
    same_account, same_asked, same_calendar, same_cancel, same_class, same_close, same_dealer,
    same_dividend, same_enter, same_fix_price, same_fix_rate, same_household, same_line,
    same_replace, same_sheet, same_show, same_statement, same_trace, same_void,
};

/// Whether two requests have the same content: the verb and all fields as they were first sent, for a dealer's line its
/// receipt too. Who sent them isn't part of it.
pub fn same_request(first: &Request, second: &Request) -> bool
    ensures { result ≡ same_request first.now second.now }
{
    match first {
        Request::Calendar(first) => match second {
            Request::Calendar(second) => same_calendar(first, second),
            _ => false,
        },
        Request::Close(first) => match second {
            Request::Close(second) => same_close(first, second),
            _ => false,
        },
        Request::Class(first) => match second {
            Request::Class(second) => same_class(first, second),
            _ => false,
        },
        Request::Dealer(first) => match second {
            Request::Dealer(second) => same_dealer(first, second),
            _ => false,
        },
        Request::Household(first) => match second {
            Request::Household(second) => same_household(first, second),
            _ => false,
        },
        Request::Account(first) => match second {
            Request::Account(second) => same_account(first, second),
            _ => false,
        },
        Request::Sheet(first) => match second {
            Request::Sheet(second) => same_sheet(first, second),
            _ => false,
        },
        Request::Dividend(first) => match second {
            Request::Dividend(second) => same_dividend(first, second),
            _ => false,
        },
        Request::FixPrice(first) => match second {
            Request::FixPrice(second) => same_fix_price(first, second),
            _ => false,
        },
        Request::FixRate(first) => match second {
            Request::FixRate(second) => same_fix_rate(first, second),
            _ => false,
        },
        Request::Enter(first) => match second {
            Request::Enter(second) => same_enter(first, second),
            _ => false,
        },
        Request::Replace(first) => match second {
            Request::Replace(second) => same_replace(first, second),
            _ => false,
        },
        Request::Void(first) => match second {
            Request::Void(second) => same_void(first, second),
            _ => false,
        },
        Request::Order(first) => match second {
            Request::Order(second) => same_asked(first, second),
            _ => false,
        },
        Request::Cancel(first) => match second {
            Request::Cancel(second) => same_cancel(first, second),
            _ => false,
        },
        Request::Show(first) => match second {
            Request::Show(second) => same_show(first, second),
            _ => false,
        },
        Request::Trace(first) => match second {
            Request::Trace(second) => same_trace(first, second),
            _ => false,
        },
        Request::Statement(first) => match second {
            Request::Statement(second) => same_statement(first, second),
            _ => false,
        },
        Request::Line(first) => match second {
            Request::Line(second) => same_line(first, second),
            _ => false,
        },
        Request::Books => match second {
            Request::Books => true,
            _ => false,
        },
    }
}
