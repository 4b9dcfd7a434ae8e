//! Worked scripts of purchases, as laws: the checker computes the lines from the bytes of the script.
ghost use Rattle.std.specs.Prelude.{[], ◌∷◌, ◌++◌, codes};
ghost use Rattle.register_worked.specs.WorkedRuns.{Answers, first_sheet, statement_of};

/// A purchase of $10,000.00 at a net asset value of $10.00 and a load of 5.75 percent, its outcome and its position.
pub fn first_purchase()
    ensures { Answers (
        codes "1719838800,h-mary000001,buy,101,1,11,10000.00"
        ∷ first_sheet
        ∷ codes "1719867700,h-mary000001,show,101"
        ∷ codes "1719867700,h-mary000001,trace,101,1"
        ∷ []
        ) (
        codes "ok,order,101,1,1719838800,1719864000"
        ∷ codes "ok,sheet,1"
        ∷ codes "ok,show,101,11:942.507:0.000:10000.00"
        ∷ codes "ok,trace,101,1,filled,1719838800,1719864000,10.61,942.507,10000.00,574.93,0.000"
        ∷ []
        ) }
{}

/// The statement of that month.
pub fn first_statement()
    ensures { Answers (
        codes "1719838800,h-mary000001,buy,101,1,11,10000.00"
        ∷ first_sheet
        ∷ codes "1719867700,h-mary000001,statement,101,2024-07-01,2024-07-31"
        ∷ []
        ) (
        codes "ok,order,101,1,1719838800,1719864000"
        ∷ codes "ok,sheet,1"
        ∷ statement_of (codes "101") (
        codes "STATEMENT 101 MARY DOE"
        ∷ codes "PERIOD 2024-07-01 2024-07-31"
        ∷ (codes "2024-07-01 buy ref 1 class 11 gross 10000.00 "
        ++ codes "price 10.61 shares 942.507 charge 574.93")
        ∷ codes "HOLDINGS"
        ∷ (codes "class 11 GROWTH-A shares 942.507 escrow 0.000 "
        ++ codes "cost 10000.00 nav 10.00 value 9425.07")
        ∷ codes "END"
        ∷ [])
        ∷ []
        ) }
{}

/// A cent below a breakpoint and at it: $24,999.99 and $25,000.00.
pub fn breakpoint()
    ensures { Answers (
        codes "1719838800,op-desk000001,buy,101,1,11,24999.99"
        ∷ codes "1719838800,op-desk000001,buy,103,1,11,25000.00"
        ∷ first_sheet
        ∷ codes "1719867700,op-desk000001,trace,101,1"
        ∷ codes "1719867700,op-desk000001,trace,103,1"
        ∷ []
        ) (
        codes "ok,order,101,1,1719838800,1719864000"
        ∷ codes "ok,order,103,1,1719838800,1719864000"
        ∷ codes "ok,sheet,1"
        ∷ codes "ok,trace,101,1,filled,1719838800,1719864000,10.61,2356.267,24999.99,1437.32,0.000"
        ∷ codes "ok,trace,103,1,filled,1719838800,1719864000,10.53,2374.169,25000.00,1258.31,0.000"
        ∷ []
        ) }
{}

/// A second before a pricing moment, at it, and at the last one before a holiday.
pub fn due_moments()
    ensures { Answers (
        codes "1719863999,op-desk000001,buy,101,1,14,100.00"
        ∷ codes "1719864000,op-desk000001,buy,101,2,14,100.00"
        ∷ codes "1720036800,op-desk000001,buy,101,3,14,100.00"
        ∷ []
        ) (
        codes "ok,order,101,1,1719863999,1719864000"
        ∷ codes "ok,order,101,2,1719864000,1719950400"
        ∷ codes "ok,order,101,3,1720036800,1720209600"
        ∷ []
        ) }
{}

/// What the household owns counts at the last net asset value before the sheet, or at its cost where that is more.
pub fn accumulation()
    ensures { Answers (
        codes "1719838800,op-desk000001,buy,101,1,11,25000.00"
        ∷ first_sheet
        ∷ codes "1719954000,op-desk000001,sheet,1,1719950400,11:9.00 12:10.00 13:20.00 14:10.00"
        ∷ codes "1719957600,op-desk000001,buy,102,1,11,25000.00"
        ∷ codes "1720040400,op-desk000001,sheet,1,1720036800,11:9.00 12:10.00 13:20.00 14:10.00"
        ∷ codes "1720040400,op-desk000001,trace,102,1"
        ∷ []
        ) (
        codes "ok,order,101,1,1719838800,1719864000"
        ∷ codes "ok,sheet,1"
        ∷ codes "ok,sheet,2"
        ∷ codes "ok,order,102,1,1719957600,1720036800"
        ∷ codes "ok,sheet,3"
        ∷ codes "ok,trace,102,1,filled,1719957600,1720036800,9.42,2653.928,25000.00,1114.65,0.000"
        ∷ []
        ) }
{}

/// A cent at a net asset value of $100,000.00 buys no mil.
pub fn small_order()
    ensures { Answers (
        codes "1719838800,op-desk000001,buy,101,1,14,0.01"
        ∷ (codes "1719867600,op-desk000001,sheet,1,1719864000,"
        ++ codes "11:10.00 12:10.00 13:20.00 14:100000.00")
        ∷ codes "1719867700,op-desk000001,trace,101,1"
        ∷ codes "1719867700,op-desk000001,show,101"
        ∷ []
        ) (
        codes "ok,order,101,1,1719838800,1719864000"
        ∷ codes "ok,sheet,1"
        ∷ codes "ok,trace,101,1,small,1719838800,1719864000,0.00,0.000,0.00,0.00,0.000"
        ∷ codes "ok,show,101,"
        ∷ []
        ) }
{}
