//! Worked scripts of the ceiling of a position.
ghost use Rattle.std.specs.Prelude.{◌≡◌, [], ◌∷◌, ◌++◌, codes, false, true};
ghost use Rattle.dividend_reinvest.specs.declared.payment.Payment.TheVariants as pays;
ghost use Rattle.register_machine.specs.replay.Dividend.{payment_on};
ghost use Rattle.register_machine.specs.replay.Positions.{has_room};
ghost use Rattle.register_worked.specs.WorkedRuns.{AnswersAlone, AnswersInJuly, calendar_over, days_of_july, holding_of, position_with, statement_of};

/// A purchase fills up to the last share of the ceiling and is unfilled one share past it. What was sold makes room, and
/// an account without room doesn't hinder another.
pub fn purchases_up_to_the_ceiling()
    ensures { AnswersInJuly (
        codes "1719842400,h-mary000001,buy,101,1,14,10000000.01"
        ∷ codes "1719842460,h-mary000001,buy,101,2,14,10000000.00"
        ∷ codes "1719842520,h-mary000001,buy,101,3,14,0.01"
        ∷ codes "1719842580,h-mary000001,buy,102,1,14,5000000.00"
        ∷ codes "1719842640,h-mary000001,buy,102,2,14,0.01"
        ∷ codes "1719842700,h-mary000001,buy,102,3,14,5000000.00"
        ∷ codes "1719865800,op-desk000001,sheet,1,1719864000,11:20.00 12:10.00 13:15.00 14:0.01"
        ∷ codes "1719867600,h-mary000001,trace,101,1"
        ∷ codes "1719867600,h-mary000001,trace,101,2"
        ∷ codes "1719867600,h-mary000001,trace,101,3"
        ∷ codes "1719867600,h-mary000001,trace,102,2"
        ∷ codes "1719867600,h-mary000001,trace,102,3"
        ∷ codes "1719867600,h-mary000001,show,101"
        ∷ codes "1719928800,h-mary000001,sell,101,4,14,1.000"
        ∷ codes "1719928860,h-mary000001,buy,101,5,14,0.02"
        ∷ codes "1719928920,h-mary000001,buy,101,6,14,0.01"
        ∷ codes "1719952200,op-desk000001,sheet,1,1719950400,11:20.00 12:10.00 13:15.00 14:0.01"
        ∷ codes "1719954000,h-mary000001,trace,101,5"
        ∷ codes "1719954000,h-mary000001,trace,101,6"
        ∷ codes "1719954000,h-mary000001,show,101"
        ∷ codes "1719954000,op-desk000001,books"
        ∷ []
        ) (
        codes "ok,order,101,1,1719842400,1719864000"
        ∷ codes "ok,order,101,2,1719842460,1719864000"
        ∷ codes "ok,order,101,3,1719842520,1719864000"
        ∷ codes "ok,order,102,1,1719842580,1719864000"
        ∷ codes "ok,order,102,2,1719842640,1719864000"
        ∷ codes "ok,order,102,3,1719842700,1719864000"
        ∷ codes "ok,sheet,1"
        ∷ codes "ok,trace,101,1,ceiling,1719842400,1719864000,0.00,0.000,0.00,0.00,0.000"
        ∷ (codes "ok,trace,101,2,filled,1719842460,1719864000,0.01,1000000000.000,10000000.00,"
        ++ codes "0.00,0.000")
        ∷ codes "ok,trace,101,3,ceiling,1719842520,1719864000,0.00,0.000,0.00,0.00,0.000"
        ∷ codes "ok,trace,102,2,filled,1719842640,1719864000,0.01,1.000,0.01,0.00,0.000"
        ∷ codes "ok,trace,102,3,ceiling,1719842700,1719864000,0.00,0.000,0.00,0.00,0.000"
        ∷ codes "ok,show,101,14:1000000000.000:0.000:10000000.00"
        ∷ codes "ok,order,101,4,1719928800,1719950400"
        ∷ codes "ok,order,101,5,1719928860,1719950400"
        ∷ codes "ok,order,101,6,1719928920,1719950400"
        ∷ codes "ok,sheet,2"
        ∷ codes "ok,trace,101,5,ceiling,1719928860,1719950400,0.00,0.000,0.00,0.00,0.000"
        ∷ codes "ok,trace,101,6,filled,1719928920,1719950400,0.01,1.000,0.01,0.00,0.000"
        ∷ codes "ok,show,101,14:1000000000.000:0.000:10000000.00"
        ∷ (codes "ok,books,11:0.000:0.00 12:0.000:0.00 13:0.000:0.00 "
        ++ codes "14:1500000001.000:15000000.01,0.00,0.00,5:0.00,-15000000.01")
        ∷ []
        ) }
{}

/// An exchange is unfilled where its new shares and their cost pass the ceiling of the target. A piece without new shares
/// brings no cost either, so it doesn't count.
pub fn exchanges_up_to_the_ceiling()
    ensures { AnswersAlone (
        calendar_over (codes "1") days_of_july
        ∷ codes "1719835200,op-desk000001,class,12,1,1,GROWTH-B,7,1,0.01,0.01,0.00:0,"
        ∷ codes "1719835200,op-desk000001,class,13,1,2,INCOME-B,7,1,0.01,0.01,0.00:0,"
        ∷ codes "1719835200,op-desk000001,class,14,1,3,MICRO-B,7,1,0.01,0.01,0.00:0,"
        ∷ codes "1719835200,op-desk000001,household,1,h-mary000001"
        ∷ codes "1719835200,op-desk000001,account,101,1,0,MARY DOE"
        ∷ codes "1719842400,h-mary000001,buy,101,1,12,9500000.00"
        ∷ codes "1719842460,h-mary000001,buy,101,2,13,9400000.00"
        ∷ codes "1719846000,op-desk000001,dividend,12,1719950400,1000.000000"
        ∷ codes "1719846000,op-desk000001,dividend,13,1719950400,1000.000000"
        ∷ codes "1719846000,op-desk000001,dividend,12,1720036800,1000.000000"
        ∷ codes "1719846000,op-desk000001,dividend,13,1720036800,1000.000000"
        ∷ codes "1719846000,op-desk000001,dividend,12,1720209600,1000.000000"
        ∷ codes "1719846000,op-desk000001,dividend,13,1720209600,1000.000000"
        ∷ codes "1719846000,op-desk000001,dividend,12,1720468800,1000.000000"
        ∷ codes "1719846000,op-desk000001,dividend,13,1720468800,1000.000000"
        ∷ codes "1719846000,op-desk000001,dividend,12,1720555200,1000.000000"
        ∷ codes "1719846000,op-desk000001,dividend,13,1720555200,1000.000000"
        ∷ codes "1719846000,op-desk000001,dividend,13,1720641600,1000.000000"
        ∷ codes "1719865800,op-desk000001,sheet,1,1719864000,12:0.01 13:0.01 14:100000.00"
        ∷ (codes "1719952200,op-desk000001,sheet,1,1719950400,12:100000.00 13:100000.00 "
        ++ codes "14:100000.00")
        ∷ (codes "1720038600,op-desk000001,sheet,1,1720036800,12:100000.00 13:100000.00 "
        ++ codes "14:100000.00")
        ∷ (codes "1720211400,op-desk000001,sheet,1,1720209600,12:100000.00 13:100000.00 "
        ++ codes "14:100000.00")
        ∷ (codes "1720470600,op-desk000001,sheet,1,1720468800,12:100000.00 13:100000.00 "
        ++ codes "14:100000.00")
        ∷ (codes "1720557000,op-desk000001,sheet,1,1720555200,12:100000.00 13:100000.00 "
        ++ codes "14:100000.00")
        ∷ (codes "1720643400,op-desk000001,sheet,1,1720641600,12:100000.00 13:100000.00 "
        ++ codes "14:100000.00")
        ∷ codes "1720645200,h-mary000001,exchangeall,101,3,12,13"
        ∷ codes "1720645260,h-mary000001,exchangeall,101,4,12,14"
        ∷ codes "1720729800,op-desk000001,sheet,1,1720728000,12:0.01 13:100000.00 14:100000.00"
        ∷ codes "1720731600,h-mary000001,show,101"
        ∷ codes "1720731660,h-mary000001,exchangeall,101,5,14,13"
        ∷ codes "1720816200,op-desk000001,sheet,1,1720814400,12:0.01 13:100000.00 14:5.00"
        ∷ codes "1720818000,h-mary000001,trace,101,5"
        ∷ codes "1720818000,h-mary000001,show,101"
        ∷ codes "1720818000,h-mary000001,statement,101,2024-07-11,2024-07-12"
        ∷ []
        ) (
        codes "ok,calendar,1"
        ∷ codes "ok,class,12"
        ∷ codes "ok,class,13"
        ∷ codes "ok,class,14"
        ∷ codes "ok,household,1"
        ∷ codes "ok,account,101"
        ∷ codes "ok,order,101,1,1719842400,1719864000"
        ∷ codes "ok,order,101,2,1719842460,1719864000"
        ∷ codes "ok,dividend,12,1719950400"
        ∷ codes "ok,dividend,13,1719950400"
        ∷ codes "ok,dividend,12,1720036800"
        ∷ codes "ok,dividend,13,1720036800"
        ∷ codes "ok,dividend,12,1720209600"
        ∷ codes "ok,dividend,13,1720209600"
        ∷ codes "ok,dividend,12,1720468800"
        ∷ codes "ok,dividend,13,1720468800"
        ∷ codes "ok,dividend,12,1720555200"
        ∷ codes "ok,dividend,13,1720555200"
        ∷ codes "ok,dividend,13,1720641600"
        ∷ codes "ok,sheet,1"
        ∷ codes "ok,sheet,2"
        ∷ codes "ok,sheet,3"
        ∷ codes "ok,sheet,4"
        ∷ codes "ok,sheet,5"
        ∷ codes "ok,sheet,6"
        ∷ codes "ok,sheet,7"
        ∷ codes "ok,order,101,3,1720645200,1720728000"
        ∷ codes "ok,order,101,4,1720645260,1720728000"
        ∷ codes "ok,sheet,8"
        ∷ (codes "ok,show,101,13:997828941.565:0.000:5782903556494.00 "
        ++ codes "14:99.846:0.000:4845964259500.00")
        ∷ codes "ok,order,101,5,1720731660,1720814400"
        ∷ codes "ok,sheet,9"
        ∷ codes "ok,trace,101,5,filled,1720731660,1720814400,5.00,99.846,499.23,0.00,0.000"
        ∷ codes "ok,show,101,13:997828941.570:0.000:5782913056494.00"
        ∷ statement_of (codes "101") (
        codes "STATEMENT 101 MARY DOE"
        ∷ codes "PERIOD 2024-07-11 2024-07-12"
        ∷ codes "2024-07-11 unfilled ref 3 class 12 ceiling"
        ∷ (codes "2024-07-11 exchange ref 4 class 12 shares 998459547.595 value 9984595.48 "
        ++ codes "to class 14 shares 99.846")
        ∷ (codes "2024-07-12 exchange ref 5 class 14 shares 99.846 value 499.23 "
        ++ codes "to class 13 shares 0.005")
        ∷ codes "HOLDINGS"
        ∷ (codes "class 13 INCOME-B shares 997828941.570 escrow 0.000 "
        ++ codes "cost 5782913056494.00 nav 100000.00 value 99782894157000.00")
        ∷ codes "END"
        ∷ [])
        ∷ []
        ) }
{}

/// A dividend that would bring a position past its ceiling is paid in cash, and one that stays below it is reinvested.
pub fn dividend_at_the_ceiling()
    ensures { AnswersInJuly (
        codes "1719842400,h-mary000001,buy,101,1,14,10000000.00"
        ∷ codes "1719842400,h-mary000001,buy,102,1,14,9999000.00"
        ∷ codes "1719865800,op-desk000001,sheet,1,1719864000,11:20.00 12:10.00 13:15.00 14:0.01"
        ∷ codes "1719867600,op-desk000001,dividend,14,1719950400,0.000001"
        ∷ codes "1719952200,op-desk000001,sheet,1,1719950400,11:20.00 12:10.00 13:15.00 14:0.01"
        ∷ codes "1719954000,h-mary000001,show,101"
        ∷ codes "1719954000,h-mary000001,show,102"
        ∷ codes "1719954000,op-desk000001,books"
        ∷ []
        ) (
        codes "ok,order,101,1,1719842400,1719864000"
        ∷ codes "ok,order,102,1,1719842400,1719864000"
        ∷ codes "ok,sheet,1"
        ∷ codes "ok,dividend,14,1719950400"
        ∷ codes "ok,sheet,2"
        ∷ codes "ok,show,101,14:1000000000.000:0.000:10000000.00"
        ∷ codes "ok,show,102,14:999999990.000:0.000:9999999.90"
        ∷ (codes "ok,books,11:0.000:0.00 12:0.000:0.00 13:0.000:0.00 "
        ++ codes "14:1999999990.000:19998000.00,0.00,0.00,5:0.00,-19998000.00")
        ∷ []
        ) }
{}

/// A position has room up to its ceilings, 10^12 mils and 10^15 cents of cost, and for no mil and no cent more.
pub fn room_to_the_ceilings()
    ensures mils { has_room (holding_of 999999999000 1) 1000 1 ≡ true }
    ensures mil_more { has_room (holding_of 999999999000 1) 1001 1 ≡ false }
    ensures cost { has_room (holding_of 1 999999999990000) 1 10000 ≡ true }
    ensures cent_more { has_room (holding_of 1 999999999990000) 1 10001 ≡ false }
{}

/// An exchange looks for room in its target: into a position at its ceiling it is unfilled, however little is left in
/// the class that it leaves.
pub fn exchange_into_a_full_position()
    ensures { AnswersInJuly (
        codes "1719842400,h-mary000001,buy,101,1,13,10000000.00"
        ∷ codes "1719842460,h-mary000001,buy,101,2,12,100.00"
        ∷ codes "1719865800,op-desk000001,sheet,1,1719864000,11:20.00 12:10.00 13:0.01 14:50.00"
        ∷ codes "1719928800,h-mary000001,exchange,101,3,12,13,1.000"
        ∷ codes "1719928860,h-mary000001,exchange,101,4,13,12,1000.000"
        ∷ codes "1719928920,h-mary000001,exchange,101,5,12,13,1.000"
        ∷ codes "1719952200,op-desk000001,sheet,1,1719950400,11:20.00 12:10.00 13:0.01 14:50.00"
        ∷ codes "1719954000,h-mary000001,trace,101,3"
        ∷ codes "1719954000,h-mary000001,trace,101,4"
        ∷ codes "1719954000,h-mary000001,trace,101,5"
        ∷ []
        ) (
        codes "ok,order,101,1,1719842400,1719864000"
        ∷ codes "ok,order,101,2,1719842460,1719864000"
        ∷ codes "ok,sheet,1"
        ∷ codes "ok,order,101,3,1719928800,1719950400"
        ∷ codes "ok,order,101,4,1719928860,1719950400"
        ∷ codes "ok,order,101,5,1719928920,1719950400"
        ∷ codes "ok,sheet,2"
        ∷ codes "ok,trace,101,3,ceiling,1719928800,1719950400,0.00,0.000,0.00,0.00,0.000"
        ∷ codes "ok,trace,101,4,filled,1719928860,1719950400,0.01,1000.000,10.00,0.00,0.000"
        ∷ codes "ok,trace,101,5,filled,1719928920,1719950400,10.00,1.000,10.00,0.00,0.000"
        ∷ []
        ) }
{}

/// A dividend is reinvested up to the ceilings, to the last mil and the last cent, and paid in cash beyond them.
pub fn dividends_to_the_ceilings()
    ensures cost { payment_on 100000 1000 (position_with (holding_of 1000000 999999999990000))
        ≡ pays.Shares 10000 10000 }
    ensures cent_more { payment_on 100000 1000
        (position_with (holding_of 1000000 999999999990001)) ≡ pays.Cash 10000 }
    ensures mils { payment_on 1 10000000 (position_with (holding_of 999999999990 1))
        ≡ pays.Shares 100000 10 }
    ensures mil_more { payment_on 1 10000000 (position_with (holding_of 999999999991 1))
        ≡ pays.Cash 100000 }
{}
