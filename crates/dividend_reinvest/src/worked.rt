//! Worked dividends, as laws: the checker computes each.
ghost use Rattle.std.specs.Prelude.{◌≡◌, true, false};
ghost use Rattle.dividend_reinvest.specs.Dividend.{cash_of, mils_of, payment};
ghost use Rattle.dividend_reinvest.specs.declared.payment.Payment.TheVariants.{Nothing, Cash, Shares};

/// A dividend of $0.12 per share on 942.507 shares is $113.10, which buys 11.424 shares at 9.90.
pub fn reinvested()
    ensures cash { cash_of 942507 120000 ≡ 11310 }
    ensures mils { mils_of 11310 990 ≡ 11424 }
    ensures payment { payment 942507 120000 990 false 1000000 1000000 ≡ Shares 11310 11424 }
{}

/// The same dividend is paid in cash: by the holder's election, or where 0.001 shares or $0.01 of cost are too much. Room
/// for exactly these shares and this cost is enough.
pub fn paid_in_cash()
    ensures elected { payment 942507 120000 990 true 1000000 1000000 ≡ Cash 11310 }
    ensures exact_room { payment 942507 120000 990 false 11424 11310 ≡ Shares 11310 11424 }
    ensures no_room { payment 942507 120000 990 false 11423 1000000 ≡ Cash 11310 }
    ensures no_cost_room { payment 942507 120000 990 false 1000000 11309 ≡ Cash 11310 }
{}

/// Half a cent is a cent, which buys no mil at $100,000.00, nor at $20.01; less than half a cent is nothing.
pub fn small_dividends()
    ensures nothing { payment 4999 1000 990 false 1000000 1000000 ≡ Nothing }
    ensures a_cent { payment 5000 1000 2000 false 1000000 1000000 ≡ Shares 1 1 }
    ensures no_mil { payment 5000 1000 2001 false 1000000 1000000 ≡ Cash 1 }
    ensures dear { payment 5000 1000 10000000 false 1000000 1000000 ≡ Cash 1 }
{}
