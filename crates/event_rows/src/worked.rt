//! A row of each kind, of each body and of each bearer, byte for byte.
ghost use Rattle.std.specs.Prelude.{◌≡◌};
ghost use Rattle.event_rows.specs.Rows.{event_row};
ghost use Rattle.event_rows.specs.Worked as example;

/// The kinds but orders.
pub fn rows_of_kinds()
    ensures calendar { event_row example.calendar_event ≡ example.calendar_row }
    ensures close { event_row example.close_event ≡ example.close_row }
    ensures class { event_row example.class_event ≡ example.class_row }
    ensures dealer { event_row example.dealer_event ≡ example.dealer_row }
    ensures household { event_row example.household_event ≡ example.household_row }
    ensures account { event_row example.account_event ≡ example.account_row }
    ensures cancel { event_row example.cancel_event ≡ example.cancel_row }
    ensures sheet { event_row example.sheet_event ≡ example.sheet_row }
    ensures dividend { event_row example.dividend_event ≡ example.dividend_row }
    ensures fix_price { event_row example.fix_price_event ≡ example.fix_price_row }
    ensures fix_rate { event_row example.fix_rate_event ≡ example.fix_rate_row }
    ensures enter { event_row example.enter_event ≡ example.enter_row }
    ensures replace { event_row example.replace_event ≡ example.replace_row }
    ensures void { event_row example.void_event ≡ example.void_row }
{}

/// An order with each body, and a dealer's line.
pub fn rows_of_orders()
    ensures buy { event_row example.buy_event ≡ example.buy_row }
    ensures sell { event_row example.sell_event ≡ example.sell_row }
    ensures sell_cash { event_row example.sell_cash_event ≡ example.sell_cash_row }
    ensures sell_all { event_row example.sell_all_event ≡ example.sell_all_row }
    ensures exchange { event_row example.exchange_event ≡ example.exchange_row }
    ensures exchange_all { event_row example.exchange_all_event ≡ example.exchange_all_row }
    ensures letter { event_row example.letter_event ≡ example.letter_row }
    ensures elect { event_row example.elect_event ≡ example.elect_row }
    ensures dealers_line { event_row example.dealers_line_event ≡ example.dealers_line_row }
{}
