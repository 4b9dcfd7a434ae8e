//! Worked scripts of statements and traces.
ghost use Rattle.std.specs.Prelude.{[], ◌∷◌, ◌++◌, codes};
ghost use Rattle.register_worked.specs.WorkedRuns.{AnswersInJuly, AnswersOver, statement_of};

/// A statement tells the trades of its account alone, of a household with two that traded, on sheets dated within the
/// period, and the holdings after the last sheet whatever the period. A redemption has its value, its charge and what was
/// paid.
pub fn statement_of_one_account()
    ensures { AnswersInJuly (
        codes "1719842400,h-mary000001,buy,101,1,12,1000.00"
        ∷ codes "1719842460,h-mary000001,buy,102,1,12,500.00"
        ∷ codes "1719842520,h-mary000001,buy,102,2,14,250.00"
        ∷ codes "1719865800,op-desk000001,sheet,1,1719864000,11:20.00 12:10.00 13:15.00 14:50.00"
        ∷ codes "1719928800,h-mary000001,sell,101,2,12,40.000"
        ∷ codes "1719928860,h-mary000001,sellcash,102,3,12,100.00"
        ∷ codes "1719952200,op-desk000001,sheet,1,1719950400,11:20.00 12:11.00 13:15.00 14:50.00"
        ∷ codes "1720015200,h-mary000001,exchange,101,3,12,13,10.000"
        ∷ codes "1720015260,h-mary000001,sellall,102,4,14"
        ∷ codes "1720038600,op-desk000001,sheet,1,1720036800,11:20.00 12:9.00 13:15.00 14:51.00"
        ∷ codes "1720040400,h-mary000001,statement,101,2024-07-01,2024-07-31"
        ∷ codes "1720040400,h-mary000001,statement,102,2024-07-01,2024-07-31"
        ∷ codes "1720040400,h-mary000001,statement,101,2024-07-02,2024-07-02"
        ∷ codes "1720040400,h-mary000001,statement,102,2024-07-03,2024-07-31"
        ∷ codes "1720040400,h-omar000002,statement,103,2024-07-01,2024-07-31"
        ∷ codes "1720040400,h-mary000001,trace,101,2"
        ∷ []
        ) (
        codes "ok,order,101,1,1719842400,1719864000"
        ∷ codes "ok,order,102,1,1719842460,1719864000"
        ∷ codes "ok,order,102,2,1719842520,1719864000"
        ∷ codes "ok,sheet,1"
        ∷ codes "ok,order,101,2,1719928800,1719950400"
        ∷ codes "ok,order,102,3,1719928860,1719950400"
        ∷ codes "ok,sheet,2"
        ∷ codes "ok,order,101,3,1720015200,1720036800"
        ∷ codes "ok,order,102,4,1720015260,1720036800"
        ∷ codes "ok,sheet,3"
        ∷ statement_of (codes "101") (
        codes "STATEMENT 101 MARY DOE"
        ∷ codes "PERIOD 2024-07-01 2024-07-31"
        ∷ codes "2024-07-01 buy ref 1 class 12 gross 1000.00 price 10.00 shares 100.000 charge 0.00"
        ∷ (codes "2024-07-02 sell ref 2 class 12 shares 40.000 "
        ++ codes "nav 11.00 value 440.00 charge 20.00 paid 420.00")
        ∷ (codes "2024-07-03 exchange ref 3 class 12 shares 10.000 value 90.00 "
        ++ codes "to class 13 shares 6.000")
        ∷ codes "HOLDINGS"
        ∷ codes "class 12 GROWTH-B shares 50.000 escrow 0.000 cost 500.00 nav 9.00 value 450.00"
        ∷ codes "class 13 INCOME-B shares 6.000 escrow 0.000 cost 100.00 nav 15.00 value 90.00"
        ∷ codes "END"
        ∷ [])
        ∷ statement_of (codes "102") (
        codes "STATEMENT 102 MARY DOE IRA"
        ∷ codes "PERIOD 2024-07-01 2024-07-31"
        ∷ codes "2024-07-01 buy ref 1 class 12 gross 500.00 price 10.00 shares 50.000 charge 0.00"
        ∷ codes "2024-07-01 buy ref 2 class 14 gross 250.00 price 50.00 shares 5.000 charge 0.00"
        ∷ (codes "2024-07-02 sell ref 3 class 12 shares 9.091 "
        ++ codes "nav 11.00 value 100.00 charge 4.55 paid 95.45")
        ∷ (codes "2024-07-03 sell ref 4 class 14 shares 5.000 "
        ++ codes "nav 51.00 value 255.00 charge 0.00 paid 255.00")
        ∷ codes "HOLDINGS"
        ∷ codes "class 12 GROWTH-B shares 40.909 escrow 0.000 cost 409.09 nav 9.00 value 368.18"
        ∷ codes "END"
        ∷ [])
        ∷ statement_of (codes "101") (
        codes "STATEMENT 101 MARY DOE"
        ∷ codes "PERIOD 2024-07-02 2024-07-02"
        ∷ (codes "2024-07-02 sell ref 2 class 12 shares 40.000 "
        ++ codes "nav 11.00 value 440.00 charge 20.00 paid 420.00")
        ∷ codes "HOLDINGS"
        ∷ codes "class 12 GROWTH-B shares 50.000 escrow 0.000 cost 500.00 nav 9.00 value 450.00"
        ∷ codes "class 13 INCOME-B shares 6.000 escrow 0.000 cost 100.00 nav 15.00 value 90.00"
        ∷ codes "END"
        ∷ [])
        ∷ statement_of (codes "102") (
        codes "STATEMENT 102 MARY DOE IRA"
        ∷ codes "PERIOD 2024-07-03 2024-07-31"
        ∷ (codes "2024-07-03 sell ref 4 class 14 shares 5.000 "
        ++ codes "nav 51.00 value 255.00 charge 0.00 paid 255.00")
        ∷ codes "HOLDINGS"
        ∷ codes "class 12 GROWTH-B shares 40.909 escrow 0.000 cost 409.09 nav 9.00 value 368.18"
        ∷ codes "END"
        ∷ [])
        ∷ statement_of (codes "103") (
        codes "STATEMENT 103 OMAR ROE"
        ∷ codes "PERIOD 2024-07-01 2024-07-31"
        ∷ codes "HOLDINGS"
        ∷ codes "END"
        ∷ [])
        ∷ codes "ok,trace,101,2,filled,1719928800,1719950400,11.00,40.000,440.00,20.00,0.000"
        ∷ []
        ) }
{}

/// The trace of an order while it is pending, filled, short, too small, struck and without a due moment: pending is told
/// before a sheet prices it, by the due moment under the closures of now.
pub fn traces()
    ensures { AnswersOver (codes "2024-07-01,2024-07-05,2024-07-04") (
        codes "1719842400,h-mary000001,buy,101,1,12,1000.00"
        ∷ codes "1719842460,h-mary000001,buy,101,2,13,500.00"
        ∷ codes "1719842520,h-mary000001,trace,101,1"
        ∷ codes "1719842580,h-mary000001,cancel,101,3,2"
        ∷ codes "1719842640,h-mary000001,trace,101,2"
        ∷ codes "1719842640,h-mary000001,trace,101,3"
        ∷ codes "1719865800,op-desk000001,sheet,1,1719864000,11:20.00 12:10.00 13:15.00 14:50.00"
        ∷ codes "1719867600,h-mary000001,trace,101,1"
        ∷ codes "1719867660,h-mary000001,sell,101,4,12,100.001"
        ∷ codes "1719867720,h-mary000001,exchange,101,5,12,13,0.001"
        ∷ codes "1719867780,h-mary000001,trace,101,4"
        ∷ codes "1719952200,op-desk000001,sheet,1,1719950400,11:20.00 12:10.00 13:99.00 14:50.00"
        ∷ codes "1719954000,h-mary000001,trace,101,4"
        ∷ codes "1719954000,h-mary000001,trace,101,5"
        ∷ codes "1719954060,h-mary000001,sellall,101,6,12"
        ∷ codes "1719954120,op-desk000001,close,1,2024-07-03"
        ∷ codes "1719954180,h-mary000001,trace,101,6"
        ∷ codes "1719954180,op-desk000001,close,1,2024-07-05"
        ∷ codes "1719954180,h-mary000001,trace,101,6"
        ∷ codes "1719954240,op-desk000001,void,1,fund,101,1"
        ∷ codes "1719954300,h-mary000001,trace,101,1"
        ∷ codes "1719954300,h-mary000001,trace,101,4"
        ∷ codes "1719954300,h-mary000001,trace,101,9"
        ∷ []
        ) (
        codes "ok,order,101,1,1719842400,1719864000"
        ∷ codes "ok,order,101,2,1719842460,1719864000"
        ∷ codes "ok,trace,101,1,pending,1719842400,1719864000,0.00,0.000,0.00,0.00,0.000"
        ∷ codes "ok,cancel,101,3,2"
        ∷ codes "ok,trace,101,2,struck,1719842460,1719864000,0.00,0.000,0.00,0.00,0.000"
        ∷ codes "no,3,2"
        ∷ codes "ok,sheet,1"
        ∷ codes "ok,trace,101,1,filled,1719842400,1719864000,10.00,100.000,1000.00,0.00,0.000"
        ∷ codes "ok,order,101,4,1719867660,1719950400"
        ∷ codes "ok,order,101,5,1719867720,1719950400"
        ∷ codes "ok,trace,101,4,pending,1719867660,1719950400,0.00,0.000,0.00,0.00,0.000"
        ∷ codes "ok,sheet,2"
        ∷ codes "ok,trace,101,4,short,1719867660,1719950400,0.00,0.000,0.00,0.00,100.000"
        ∷ codes "ok,trace,101,5,small,1719867720,1719950400,0.00,0.000,0.00,0.00,0.000"
        ∷ codes "ok,order,101,6,1719954060,1720036800"
        ∷ codes "ok,close,1,2024-07-03"
        ∷ codes "ok,trace,101,6,pending,1719954060,1720209600,0.00,0.000,0.00,0.00,0.000"
        ∷ codes "ok,close,1,2024-07-05"
        ∷ codes "ok,trace,101,6,pending,1719954060,0,0.00,0.000,0.00,0.00,0.000"
        ∷ codes "ok,fix,1,12:0.00"
        ∷ codes "ok,trace,101,1,struck,1719842400,1719864000,0.00,0.000,0.00,0.00,0.000"
        ∷ codes "ok,trace,101,4,short,1719867660,1719950400,0.00,0.000,0.00,0.00,0.000"
        ∷ codes "no,3,2"
        ∷ []
        ) }
{}
