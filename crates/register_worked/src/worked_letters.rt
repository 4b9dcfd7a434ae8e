//! Worked scripts of letters of intent, as laws.
ghost use Rattle.std.specs.Prelude.{[], ◌∷◌, ◌++◌, codes};
ghost use Rattle.register_worked.specs.WorkedRuns.{Answers, AnswersAlone, AnswersInJuly, AnswersOnFewDays, calendar_of_days, calendar_over, class_11, class_12, first_sheet, statement_of};

/// Under a letter of $50,000.00 a purchase has the rate of that amount, and a part of its shares is held.
pub fn letter_and_purchase()
    ensures { Answers (
        codes "1719838800,op-desk000001,letter,101,1,11,50000.00"
        ∷ codes "1719838801,op-desk000001,buy,101,2,11,10000.00"
        ∷ first_sheet
        ∷ codes "1719867700,op-desk000001,trace,101,2"
        ∷ codes "1719867700,op-desk000001,show,101"
        ∷ []
        ) (
        codes "ok,order,101,1,1719838800,1719864000"
        ∷ codes "ok,order,101,2,1719838801,1719864000"
        ∷ codes "ok,sheet,1"
        ∷ codes "ok,trace,101,2,filled,1719838801,1719864000,10.47,955.110,10000.00,448.90,0.000"
        ∷ codes "ok,show,101,11:716.332:238.778:10000.00"
        ∷ []
        ) }
{}

/// More than the loose shares is asked for.
pub fn held_shares_are_not_sold()
    ensures { Answers (
        codes "1719838800,op-desk000001,letter,101,1,11,50000.00"
        ∷ codes "1719838801,op-desk000001,buy,101,2,11,10000.00"
        ∷ first_sheet
        ∷ codes "1719867700,op-desk000001,sell,101,3,11,800.000"
        ∷ codes "1719954000,op-desk000001,sheet,1,1719950400,11:10.00 12:10.00 13:20.00 14:10.00"
        ∷ codes "1719954000,op-desk000001,trace,101,3"
        ∷ []
        ) (
        codes "ok,order,101,1,1719838800,1719864000"
        ∷ codes "ok,order,101,2,1719838801,1719864000"
        ∷ codes "ok,sheet,1"
        ∷ codes "ok,order,101,3,1719867700,1719950400"
        ∷ codes "ok,sheet,2"
        ∷ codes "ok,trace,101,3,short,1719867700,1719950400,0.00,0.000,0.00,0.00,716.332"
        ∷ []
        ) }
{}

/// The letter stands on the day 13 months later and ends on the next sheet: the load that is missing is paid of the held shares.
pub fn letter_ends_by_date()
    ensures { AnswersOnFewDays (
        codes "1719838800,op-desk000001,letter,101,1,11,50000.00"
        ∷ codes "1719838801,op-desk000001,buy,101,2,11,10000.00"
        ∷ first_sheet
        ∷ codes "1719954000,op-desk000001,sheet,1,1719950400,11:10.00 12:10.00 13:20.00 14:10.00"
        ∷ codes "1751403600,op-desk000001,sheet,1,1751400000,11:10.00 12:10.00 13:20.00 14:10.00"
        ∷ codes "1754082000,op-desk000001,sheet,1,1754078400,11:11.00 12:10.00 13:20.00 14:10.00"
        ∷ codes "1754082000,op-desk000001,show,101"
        ∷ codes "1754341200,op-desk000001,sheet,1,1754337600,11:11.00 12:10.00 13:20.00 14:10.00"
        ∷ codes "1754341200,op-desk000001,show,101"
        ∷ codes "1754341200,op-desk000001,statement,101,2025-08-01,2025-08-31"
        ∷ []
        ) (
        codes "ok,order,101,1,1719838800,1719864000"
        ∷ codes "ok,order,101,2,1719838801,1719864000"
        ∷ codes "ok,sheet,1"
        ∷ codes "ok,sheet,2"
        ∷ codes "ok,sheet,3"
        ∷ codes "ok,sheet,4"
        ∷ codes "ok,show,101,11:716.332:238.778:10000.00"
        ∷ codes "ok,sheet,5"
        ∷ codes "ok,show,101,11:943.746:0.000:9881.02"
        ∷ statement_of (codes "101") (
        codes "STATEMENT 101 MARY DOE"
        ∷ codes "PERIOD 2025-08-01 2025-08-31"
        ∷ codes "2025-08-04 letter ended class 11 due 125.00 shares 11.364 paid 125.00 waived 0.00"
        ∷ codes "HOLDINGS"
        ∷ (codes "class 11 GROWTH-A shares 943.746 escrow 0.000 "
        ++ codes "cost 9881.02 nav 11.00 value 10381.21")
        ∷ codes "END"
        ∷ [])
        ∷ []
        ) }
{}

/// On the sheet on which a letter ends by date its shares are released before the orders are executed.
pub fn letter_ends_before_the_orders()
    ensures { AnswersOnFewDays (
        codes "1719838800,op-desk000001,letter,101,1,11,50000.00"
        ∷ codes "1719838801,op-desk000001,buy,101,2,11,10000.00"
        ∷ first_sheet
        ∷ codes "1719954000,op-desk000001,sheet,1,1719950400,11:10.00 12:10.00 13:20.00 14:10.00"
        ∷ codes "1751403600,op-desk000001,sheet,1,1751400000,11:10.00 12:10.00 13:20.00 14:10.00"
        ∷ codes "1754082000,op-desk000001,sheet,1,1754078400,11:11.00 12:10.00 13:20.00 14:10.00"
        ∷ codes "1754082000,op-desk000001,sell,101,3,11,800.000"
        ∷ codes "1754341200,op-desk000001,sheet,1,1754337600,11:11.00 12:10.00 13:20.00 14:10.00"
        ∷ codes "1754341200,op-desk000001,trace,101,3"
        ∷ codes "1754341200,op-desk000001,show,101"
        ∷ []
        ) (
        codes "ok,order,101,1,1719838800,1719864000"
        ∷ codes "ok,order,101,2,1719838801,1719864000"
        ∷ codes "ok,sheet,1"
        ∷ codes "ok,sheet,2"
        ∷ codes "ok,sheet,3"
        ∷ codes "ok,sheet,4"
        ∷ codes "ok,order,101,3,1754082000,1754337600"
        ∷ codes "ok,sheet,5"
        ∷ codes "ok,trace,101,3,filled,1754082000,1754337600,11.00,800.000,8800.00,0.00,0.000"
        ∷ codes "ok,show,101,11:143.746:0.000:1505.02"
        ∷ []
        ) }
{}

/// A letter counts what its household held when it began: at its end the load that is due is that of this credit and of
/// what was bought under it, and not that of what is held by then.
pub fn letter_that_begins_with_credit()
    ensures { AnswersAlone (
        calendar_of_days (codes "1") (19905 ∷ 19906 ∷ 20301 ∷ 20304 ∷ [])
        ∷ class_11
        ∷ class_12
        ∷ codes "1719835200,op-desk000001,household,1,h-mary000001"
        ∷ codes "1719835200,op-desk000001,account,101,1,0,MARY DOE"
        ∷ codes "1719835200,op-desk000001,account,102,1,0,MARY DOE IRA"
        ∷ codes "1719842400,h-mary000001,buy,102,1,12,20000.00"
        ∷ codes "1719865800,op-desk000001,sheet,1,1719864000,11:20.00 12:10.00"
        ∷ codes "1719928800,h-mary000001,letter,101,1,11,90000.00"
        ∷ codes "1719928860,h-mary000001,buy,101,2,11,10000.00"
        ∷ codes "1719952200,op-desk000001,sheet,1,1719950400,11:20.00 12:10.00"
        ∷ codes "1719954000,h-mary000001,show,101"
        ∷ codes "1754080200,op-desk000001,sheet,1,1754078400,11:22.00 12:31.00"
        ∷ codes "1754082000,h-mary000001,show,101"
        ∷ codes "1754339400,op-desk000001,sheet,1,1754337600,11:22.10 12:31.00"
        ∷ codes "1754341200,h-mary000001,show,101"
        ∷ codes "1754341200,h-mary000001,statement,101,2024-07-01,2025-08-31"
        ∷ codes "1754341200,op-desk000001,books"
        ∷ []
        ) (
        codes "ok,calendar,1"
        ∷ codes "ok,class,11"
        ∷ codes "ok,class,12"
        ∷ codes "ok,household,1"
        ∷ codes "ok,account,101"
        ∷ codes "ok,account,102"
        ∷ codes "ok,order,102,1,1719842400,1719864000"
        ∷ codes "ok,sheet,1"
        ∷ codes "ok,order,101,1,1719928800,1719950400"
        ∷ codes "ok,order,101,2,1719928860,1719950400"
        ∷ codes "ok,sheet,2"
        ∷ codes "ok,show,101,11:262.655:214.900:10000.00"
        ∷ codes "ok,sheet,3"
        ∷ codes "ok,show,101,11:262.655:214.900:10000.00"
        ∷ codes "ok,sheet,4"
        ∷ codes "ok,show,101,11:475.292:0.000:9952.61"
        ∷ statement_of (codes "101") (
        codes "STATEMENT 101 MARY DOE"
        ∷ codes "PERIOD 2024-07-01 2025-08-31"
        ∷ codes "2024-07-02 letter ref 1 class 11 amount 90000.00"
        ∷ (codes "2024-07-02 buy ref 2 class 11 gross 10000.00 "
        ++ codes "price 20.94 shares 477.555 charge 448.90")
        ∷ codes "2025-08-04 letter ended class 11 due 50.00 shares 2.263 paid 50.00 waived 0.00"
        ∷ codes "HOLDINGS"
        ∷ (codes "class 11 GROWTH-A shares 475.292 escrow 0.000 "
        ++ codes "cost 9952.61 nav 22.10 value 10503.95")
        ∷ codes "END"
        ∷ [])
        ∷ codes "ok,books,11:475.292:9501.10 12:2000.000:20000.00,498.90,0.00,,-30000.00"
        ∷ []
        ) }
{}

/// A letter is reached by the purchase that brings it to its amount, to the cent; its shares are loose from then on.
/// While it is open another is unfilled, and after it a new one begins.
pub fn letter_reached()
    ensures { AnswersInJuly (
        codes "1719842400,h-mary000001,letter,101,1,11,50000.00"
        ∷ codes "1719842460,h-mary000001,buy,101,2,11,30000.00"
        ∷ codes "1719865800,op-desk000001,sheet,1,1719864000,11:20.00 12:10.00 13:15.00 14:50.00"
        ∷ codes "1719867600,h-mary000001,show,101"
        ∷ codes "1719867660,h-mary000001,letter,101,3,11,100000.00"
        ∷ codes "1719867720,h-mary000001,buy,101,4,11,19949.99"
        ∷ codes "1719952200,op-desk000001,sheet,1,1719950400,11:20.50 12:10.00 13:15.00 14:50.00"
        ∷ codes "1719954000,h-mary000001,show,101"
        ∷ codes "1719954000,h-mary000001,trace,101,3"
        ∷ codes "1720015200,h-mary000001,buy,101,5,11,50.01"
        ∷ codes "1720038600,op-desk000001,sheet,1,1720036800,11:21.00 12:10.00 13:15.00 14:50.00"
        ∷ codes "1720040400,h-mary000001,show,101"
        ∷ codes "1720040460,h-mary000001,sellall,101,6,11"
        ∷ codes "1720040520,h-mary000001,letter,101,7,11,100000.00"
        ∷ codes "1720211400,op-desk000001,sheet,1,1720209600,11:21.00 12:10.00 13:15.00 14:50.00"
        ∷ codes "1720213200,h-mary000001,show,101"
        ∷ codes "1720213200,h-mary000001,trace,101,7"
        ∷ codes "1720213200,h-mary000001,statement,101,2024-07-01,2024-07-31"
        ∷ []
        ) (
        codes "ok,order,101,1,1719842400,1719864000"
        ∷ codes "ok,order,101,2,1719842460,1719864000"
        ∷ codes "ok,sheet,1"
        ∷ codes "ok,show,101,11:1313.276:119.389:30000.00"
        ∷ codes "ok,order,101,3,1719867660,1719950400"
        ∷ codes "ok,order,101,4,1719867720,1719950400"
        ∷ codes "ok,sheet,2"
        ∷ codes "ok,show,101,11:2242.479:119.389:49949.99"
        ∷ codes "ok,trace,101,3,letter,1719867660,1719950400,0.00,0.000,0.00,0.00,0.000"
        ∷ codes "ok,order,101,5,1720015200,1720036800"
        ∷ codes "ok,sheet,3"
        ∷ codes "ok,show,101,11:2364.142:0.000:50000.00"
        ∷ codes "ok,order,101,6,1720040460,1720209600"
        ∷ codes "ok,order,101,7,1720040520,1720209600"
        ∷ codes "ok,sheet,4"
        ∷ codes "ok,show,101,"
        ∷ codes "ok,trace,101,7,filled,1720040520,1720209600,0.00,0.000,0.00,0.00,0.000"
        ∷ statement_of (codes "101") (
        codes "STATEMENT 101 MARY DOE"
        ∷ codes "PERIOD 2024-07-01 2024-07-31"
        ∷ codes "2024-07-01 letter ref 1 class 11 amount 50000.00"
        ∷ (codes "2024-07-01 buy ref 2 class 11 gross 30000.00 "
        ++ codes "price 20.94 shares 1432.665 charge 1346.70")
        ∷ codes "2024-07-02 unfilled ref 3 class 11 letter"
        ∷ (codes "2024-07-02 buy ref 4 class 11 gross 19949.99 "
        ++ codes "price 21.47 shares 929.203 charge 901.33")
        ∷ codes "2024-07-03 buy ref 5 class 11 gross 50.01 price 21.99 shares 2.274 charge 2.26"
        ∷ codes "2024-07-03 letter reached class 11"
        ∷ (codes "2024-07-05 sell ref 6 class 11 shares 2364.142 "
        ++ codes "nav 21.00 value 49646.98 charge 0.00 paid 49646.98")
        ∷ codes "2024-07-05 letter ref 7 class 11 amount 100000.00"
        ∷ codes "HOLDINGS"
        ∷ codes "END"
        ∷ [])
        ∷ []
        ) }
{}

/// Under a letter a purchase has the rate of the letter's amount, or of gross and credit where these are more.
pub fn rate_beyond_the_letter()
    ensures { AnswersInJuly (
        codes "1719842400,h-mary000001,buy,102,1,12,60000.00"
        ∷ codes "1719865800,op-desk000001,sheet,1,1719864000,11:20.00 12:10.00 13:15.00 14:50.00"
        ∷ codes "1719928800,h-mary000001,letter,101,1,11,50000.00"
        ∷ codes "1719928860,h-mary000001,buy,101,2,11,45000.00"
        ∷ codes "1719952200,op-desk000001,sheet,1,1719950400,11:20.00 12:10.00 13:15.00 14:50.00"
        ∷ codes "1719954000,h-mary000001,trace,101,2"
        ∷ codes "1719954000,h-mary000001,show,101"
        ∷ []
        ) (
        codes "ok,order,102,1,1719842400,1719864000"
        ∷ codes "ok,sheet,1"
        ∷ codes "ok,order,101,1,1719928800,1719950400"
        ∷ codes "ok,order,101,2,1719928860,1719950400"
        ∷ codes "ok,sheet,2"
        ∷ (codes "ok,trace,101,2,filled,1719928860,1719950400,20.73,2170.767,45000.00,1584.66,"
        ++ codes "0.000")
        ∷ codes "ok,show,101,11:2050.168:120.599:45000.00"
        ∷ []
        ) }
{}

/// Where all held shares are worth less than the load that is due they are all paid, and the rest is waived.
pub fn waived_shortfall()
    ensures { AnswersAlone (
        calendar_of_days (codes "1") (19905 ∷ 20304 ∷ [])
        ∷ class_11
        ∷ codes "1719835200,op-desk000001,household,1,h-mary000001"
        ∷ codes "1719835200,op-desk000001,account,101,1,0,MARY DOE"
        ∷ codes "1719842400,h-mary000001,letter,101,1,11,1000000.00"
        ∷ codes "1719842460,h-mary000001,buy,101,2,11,10000.00"
        ∷ codes "1719865800,op-desk000001,sheet,1,1719864000,11:10.00"
        ∷ codes "1719867600,h-mary000001,show,101"
        ∷ codes "1754339400,op-desk000001,sheet,1,1754337600,11:0.50"
        ∷ codes "1754341200,h-mary000001,show,101"
        ∷ codes "1754341200,h-mary000001,statement,101,2025-08-01,2025-08-31"
        ∷ codes "1754341200,op-desk000001,books"
        ∷ []
        ) (
        codes "ok,calendar,1"
        ∷ codes "ok,class,11"
        ∷ codes "ok,household,1"
        ∷ codes "ok,account,101"
        ∷ codes "ok,order,101,1,1719842400,1719864000"
        ∷ codes "ok,order,101,2,1719842460,1719864000"
        ∷ codes "ok,sheet,1"
        ∷ codes "ok,show,101,11:0.000:1000.000:10000.00"
        ∷ codes "ok,sheet,2"
        ∷ codes "ok,show,101,"
        ∷ statement_of (codes "101") (
        codes "STATEMENT 101 MARY DOE"
        ∷ codes "PERIOD 2025-08-01 2025-08-31"
        ∷ (codes "2025-08-04 letter ended class 11 due 575.00 "
        ++ codes "shares 1000.000 paid 500.00 waived 75.00")
        ∷ codes "HOLDINGS"
        ∷ codes "END"
        ∷ [])
        ∷ codes "ok,books,11:0.000:9500.00,500.00,0.00,,-10000.00"
        ∷ []
        ) }
{}

/// A letter ends on the first sheet of its class's calendar behind its 13 months, and not on one of another calendar of
/// that day.
pub fn letter_on_its_own_calendar()
    ensures { AnswersAlone (
        calendar_over (codes "1") (codes "2025-08-04,2025-08-04,")
        ∷ calendar_of_days (codes "2") (19905 ∷ 20304 ∷ [])
        ∷ (codes "1719835200,op-desk000001,class,11,2,1,GROWTH-A,0,1,250.00,50.00,0.00:575 "
        ++ codes "25000.00:500 50000.00:450,")
        ∷ codes "1719835200,op-desk000001,class,12,1,2,INCOME-B,0,1,0.01,0.01,0.00:0,"
        ∷ codes "1719835200,op-desk000001,household,1,h-mary000001"
        ∷ codes "1719835200,op-desk000001,account,101,1,0,MARY DOE"
        ∷ codes "1719842400,h-mary000001,letter,101,1,11,50000.00"
        ∷ codes "1719842460,h-mary000001,buy,101,2,11,10000.00"
        ∷ codes "1719865800,op-desk000001,sheet,2,1719864000,11:10.00"
        ∷ codes "1754339400,op-desk000001,sheet,1,1754337600,12:10.00"
        ∷ codes "1754339400,h-mary000001,show,101"
        ∷ codes "1754339400,op-desk000001,sheet,2,1754337600,11:11.00"
        ∷ codes "1754339400,h-mary000001,show,101"
        ∷ []
        ) (
        codes "ok,calendar,1"
        ∷ codes "ok,calendar,2"
        ∷ codes "ok,class,11"
        ∷ codes "ok,class,12"
        ∷ codes "ok,household,1"
        ∷ codes "ok,account,101"
        ∷ codes "ok,order,101,1,1719842400,1719864000"
        ∷ codes "ok,order,101,2,1719842460,1719864000"
        ∷ codes "ok,sheet,1"
        ∷ codes "ok,sheet,2"
        ∷ codes "ok,show,101,11:716.332:238.778:10000.00"
        ∷ codes "ok,sheet,3"
        ∷ codes "ok,show,101,11:943.746:0.000:9881.02"
        ∷ []
        ) }
{}
