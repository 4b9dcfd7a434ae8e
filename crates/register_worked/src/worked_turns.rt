//! Worked scripts of the order of execution on one sheet.
ghost use Rattle.std.specs.Prelude.{[], ◌∷◌, ◌++◌, codes};
ghost use Rattle.register_worked.specs.WorkedRuns.{AnswersAlone, AnswersInJuly, calendar_of_days, class_11, class_12, statement_of};

/// At equal receipts the order whose first event is earlier in the journal goes first, whatever its account or reference;
/// a replaced order keeps its place, and an entered one comes last.
pub fn equal_receipts()
    ensures { AnswersInJuly (
        codes "1719842400,h-mary000001,buy,102,1,11,20000.00"
        ∷ codes "1719842400,h-mary000001,buy,101,1,11,10000.00"
        ∷ codes "1719842400,h-omar000002,buy,103,1,14,1000.00"
        ∷ codes "1719865800,op-desk000001,sheet,1,1719864000,11:20.00 12:10.00 13:15.00 14:10.00"
        ∷ codes "1719867600,h-mary000001,trace,102,1"
        ∷ codes "1719867600,h-mary000001,trace,101,1"
        ∷ codes "1719928800,h-omar000002,sell,103,2,14,70.000"
        ∷ codes "1719928800,h-omar000002,buy,103,3,14,500.00"
        ∷ codes "1719932400,d-broker00005,line,1719928800,sell,103,4,14,80.000"
        ∷ codes "1719932460,d-broker00005,line,1719928800,sellall,103,5,14"
        ∷ codes "1719952200,op-desk000001,sheet,1,1719950400,11:20.00 12:10.00 13:15.00 14:10.00"
        ∷ codes "1719954000,h-omar000002,trace,103,2"
        ∷ codes "1719954000,h-omar000002,trace,103,4"
        ∷ codes "1719954000,h-omar000002,trace,103,5"
        ∷ codes "1719954060,op-desk000001,enter,1,agent,1719928800,sell,103,6,14,0.001"
        ∷ codes "1719954120,op-desk000001,replace,2,agent,1719928800,sell,103,2,14,60.000"
        ∷ codes "1719954180,op-desk000001,enter,3,agent,1719928799,sell,103,6,14,0.001"
        ∷ codes "1719954240,h-omar000002,statement,103,2024-07-01,2024-07-31"
        ∷ []
        ) (
        codes "ok,order,102,1,1719842400,1719864000"
        ∷ codes "ok,order,101,1,1719842400,1719864000"
        ∷ codes "ok,order,103,1,1719842400,1719864000"
        ∷ codes "ok,sheet,1"
        ∷ codes "ok,trace,102,1,filled,1719842400,1719864000,21.22,942.507,20000.00,1149.86,0.000"
        ∷ codes "ok,trace,101,1,filled,1719842400,1719864000,21.05,475.059,10000.00,498.82,0.000"
        ∷ codes "ok,order,103,2,1719928800,1719950400"
        ∷ codes "ok,order,103,3,1719928800,1719950400"
        ∷ codes "ok,order,103,4,1719928800,1719950400"
        ∷ codes "ok,order,103,5,1719928800,1719950400"
        ∷ codes "ok,sheet,2"
        ∷ codes "ok,trace,103,2,filled,1719928800,1719950400,10.00,70.000,700.00,0.00,0.000"
        ∷ codes "ok,trace,103,4,filled,1719928800,1719950400,10.00,80.000,800.00,0.00,0.000"
        ∷ codes "ok,trace,103,5,short,1719928800,1719950400,0.00,0.000,0.00,0.00,0.000"
        ∷ codes "no,15,103,6"
        ∷ codes "ok,fix,2,"
        ∷ codes "ok,fix,3,"
        ∷ statement_of (codes "103") (
        codes "STATEMENT 103 OMAR ROE"
        ∷ codes "PERIOD 2024-07-01 2024-07-31"
        ∷ codes "2024-07-01 buy ref 1 class 14 gross 1000.00 price 10.00 shares 100.000 charge 0.00"
        ∷ (codes "2024-07-02 sell ref 6 class 14 shares 0.001 "
        ++ codes "nav 10.00 value 0.01 charge 0.00 paid 0.01")
        ∷ (codes "2024-07-02 sell ref 2 class 14 shares 60.000 "
        ++ codes "nav 10.00 value 600.00 charge 0.00 paid 600.00")
        ∷ codes "2024-07-02 buy ref 3 class 14 gross 500.00 price 10.00 shares 50.000 charge 0.00"
        ∷ (codes "2024-07-02 sell ref 4 class 14 shares 80.000 "
        ++ codes "nav 10.00 value 800.00 charge 0.00 paid 800.00")
        ∷ (codes "2024-07-02 sell ref 5 class 14 shares 9.999 "
        ++ codes "nav 10.00 value 99.99 charge 0.00 paid 99.99")
        ∷ codes "HOLDINGS"
        ∷ codes "END"
        ∷ [])
        ∷ []
        ) }
{}

/// A dealer's line is executed by its own receipt, before an order that the holder placed later, though it came to the
/// desk after that order.
pub fn earlier_line_goes_first()
    ensures { AnswersInJuly (
        codes "1719842400,h-omar000002,buy,103,1,14,1000.00"
        ∷ codes "1719865800,op-desk000001,sheet,1,1719864000,11:20.00 12:10.00 13:15.00 14:10.00"
        ∷ codes "1719928800,h-omar000002,sell,103,2,14,80.000"
        ∷ codes "1719932400,d-broker00005,line,1719927000,sell,103,3,14,30.000"
        ∷ codes "1719952200,op-desk000001,sheet,1,1719950400,11:20.00 12:10.00 13:15.00 14:10.20"
        ∷ codes "1719954000,h-omar000002,trace,103,2"
        ∷ codes "1719954000,d-broker00005,trace,103,3"
        ∷ codes "1720015200,h-omar000002,sellall,103,4,14"
        ∷ codes "1720033200,d-broker00005,line,1720015199,sell,103,5,14,25.000"
        ∷ codes "1720038600,op-desk000001,sheet,1,1720036800,11:20.00 12:10.00 13:15.00 14:10.40"
        ∷ codes "1720040400,h-omar000002,trace,103,4"
        ∷ codes "1720040400,h-omar000002,trace,103,5"
        ∷ codes "1720040400,d-broker00005,statement,103,2024-07-01,2024-07-31"
        ∷ []
        ) (
        codes "ok,order,103,1,1719842400,1719864000"
        ∷ codes "ok,sheet,1"
        ∷ codes "ok,order,103,2,1719928800,1719950400"
        ∷ codes "ok,order,103,3,1719927000,1719950400"
        ∷ codes "ok,sheet,2"
        ∷ codes "ok,trace,103,2,short,1719928800,1719950400,0.00,0.000,0.00,0.00,70.000"
        ∷ codes "ok,trace,103,3,filled,1719927000,1719950400,10.20,30.000,306.00,0.00,0.000"
        ∷ codes "ok,order,103,4,1720015200,1720036800"
        ∷ codes "ok,order,103,5,1720015199,1720036800"
        ∷ codes "ok,sheet,3"
        ∷ codes "ok,trace,103,4,filled,1720015200,1720036800,10.40,45.000,468.00,0.00,0.000"
        ∷ codes "ok,trace,103,5,filled,1720015199,1720036800,10.40,25.000,260.00,0.00,0.000"
        ∷ statement_of (codes "103") (
        codes "STATEMENT 103 OMAR ROE"
        ∷ codes "PERIOD 2024-07-01 2024-07-31"
        ∷ codes "2024-07-01 buy ref 1 class 14 gross 1000.00 price 10.00 shares 100.000 charge 0.00"
        ∷ (codes "2024-07-02 sell ref 3 class 14 shares 30.000 "
        ++ codes "nav 10.20 value 306.00 charge 0.00 paid 306.00")
        ∷ codes "2024-07-02 unfilled ref 2 class 14 short"
        ∷ (codes "2024-07-03 sell ref 5 class 14 shares 25.000 "
        ++ codes "nav 10.40 value 260.00 charge 0.00 paid 260.00")
        ∷ (codes "2024-07-03 sell ref 4 class 14 shares 45.000 "
        ++ codes "nav 10.40 value 468.00 charge 0.00 paid 468.00")
        ∷ codes "HOLDINGS"
        ∷ codes "END"
        ∷ [])
        ∷ []
        ) }
{}

/// On one sheet the dividend is paid first, also on held shares, then the letter ends and releases them, then the orders
/// are executed: a new letter may begin, and all that was released is sold.
pub fn dividend_letter_and_orders()
    ensures { AnswersAlone (
        calendar_of_days (codes "1") (19905 ∷ 20301 ∷ 20304 ∷ [])
        ∷ class_11
        ∷ class_12
        ∷ codes "1719835200,op-desk000001,household,1,h-mary000001"
        ∷ codes "1719835200,op-desk000001,account,101,1,0,MARY DOE"
        ∷ codes "1719835200,op-desk000001,account,102,1,0,MARY DOE IRA"
        ∷ codes "1719842400,h-mary000001,letter,101,1,11,100000.00"
        ∷ codes "1719842460,h-mary000001,buy,101,2,11,4000.00"
        ∷ codes "1719865800,op-desk000001,sheet,1,1719864000,11:20.00 12:10.00"
        ∷ codes "1719867600,h-mary000001,show,101"
        ∷ codes "1754080200,op-desk000001,sheet,1,1754078400,11:21.00 12:10.00"
        ∷ codes "1754082000,h-mary000001,show,101"
        ∷ codes "1754082060,op-desk000001,dividend,11,1754337600,1.000000"
        ∷ codes "1754316000,h-mary000001,letter,101,3,11,25000.00"
        ∷ codes "1754316060,h-mary000001,buy,101,4,11,500.00"
        ∷ codes "1754316120,h-mary000001,sellall,101,5,11"
        ∷ codes "1754339400,op-desk000001,sheet,1,1754337600,11:20.00 12:10.00"
        ∷ codes "1754341200,h-mary000001,trace,101,3"
        ∷ codes "1754341200,h-mary000001,trace,101,5"
        ∷ codes "1754341200,h-mary000001,show,101"
        ∷ codes "1754341200,h-mary000001,statement,101,2025-08-01,2025-08-31"
        ∷ codes "1754341200,op-desk000001,books"
        ∷ []
        ) (
        codes "ok,calendar,1"
        ∷ codes "ok,class,11"
        ∷ codes "ok,class,12"
        ∷ codes "ok,household,1"
        ∷ codes "ok,account,101"
        ∷ codes "ok,account,102"
        ∷ codes "ok,order,101,1,1719842400,1719864000"
        ∷ codes "ok,order,101,2,1719842460,1719864000"
        ∷ codes "ok,sheet,1"
        ∷ codes "ok,show,101,11:0.000:192.957:4000.00"
        ∷ codes "ok,sheet,2"
        ∷ codes "ok,show,101,11:0.000:192.957:4000.00"
        ∷ codes "ok,dividend,11,1754337600"
        ∷ codes "ok,order,101,3,1754316000,1754337600"
        ∷ codes "ok,order,101,4,1754316060,1754337600"
        ∷ codes "ok,order,101,5,1754316120,1754337600"
        ∷ codes "ok,sheet,3"
        ∷ codes "ok,trace,101,3,filled,1754316000,1754337600,0.00,0.000,0.00,0.00,0.000"
        ∷ codes "ok,trace,101,5,filled,1754316120,1754337600,20.00,198.105,3962.10,0.00,0.000"
        ∷ codes "ok,show,101,11:0.000:23.753:500.00"
        ∷ statement_of (codes "101") (
        codes "STATEMENT 101 MARY DOE"
        ∷ codes "PERIOD 2025-08-01 2025-08-31"
        ∷ codes "2025-08-04 dividend class 11 amount 192.96 nav 20.00 shares 9.648"
        ∷ codes "2025-08-04 letter ended class 11 due 90.00 shares 4.500 paid 90.00 waived 0.00"
        ∷ codes "2025-08-04 letter ref 3 class 11 amount 25000.00"
        ∷ codes "2025-08-04 buy ref 4 class 11 gross 500.00 price 21.05 shares 23.753 charge 24.94"
        ∷ (codes "2025-08-04 sell ref 5 class 11 shares 198.105 "
        ++ codes "nav 20.00 value 3962.10 charge 0.00 paid 3962.10")
        ∷ codes "HOLDINGS"
        ∷ codes "class 11 GROWTH-A shares 23.753 escrow 23.753 cost 500.00 nav 20.00 value 475.06"
        ∷ codes "END"
        ∷ [])
        ∷ codes "ok,books,11:23.753:282.10 12:0.000:0.00,255.80,0.00,,-537.90"
        ∷ []
        ) }
{}
