//! Worked scripts of orders, repeats, dealer lines, cancels and refusals, as laws.
ghost use Rattle.std.specs.Prelude.{[], ◌∷◌, codes};
ghost use Rattle.register_worked.specs.WorkedRuns.{Answers, AnswersInJuly, first_sheet};

/// An order that is sent three times, the third after it was struck, gets the same reply; another amount is refused.
pub fn repeats()
    ensures { Answers (
        codes "1719838800,op-desk000001,buy,101,1,14,1000.00"
        ∷ codes "1719838900,op-desk000001,buy,101,1,14,1000.00"
        ∷ codes "1719839000,op-desk000001,void,1,fund,101,1"
        ∷ codes "1719839100,h-mary000001,buy,101,1,14,1000.00"
        ∷ codes "1719839100,op-desk000001,buy,101,1,14,1000.01"
        ∷ codes "1719839100,op-desk000001,trace,101,1"
        ∷ []
        ) (
        codes "ok,order,101,1,1719838800,1719864000"
        ∷ codes "ok,order,101,1,1719838800,1719864000"
        ∷ codes "ok,fix,1,"
        ∷ codes "ok,order,101,1,1719838800,1719864000"
        ∷ codes "no,4"
        ∷ codes "ok,trace,101,1,struck,1719838800,1719864000,0.00,0.000,0.00,0.00,0.000"
        ∷ []
        ) }
{}

/// A dealer may report what it received before the pricing moment until the sheet of that moment is published.
pub fn dealer_lines_after_a_sheet()
    ensures { Answers (
        first_sheet
        ∷ codes "1719964800,d-broker00005,line,1719950399,buy,103,1,14,1000.00"
        ∷ codes "1719964800,d-broker00005,line,1719950400,buy,103,2,14,1000.00"
        ∷ codes "1719964800,d-broker00005,line,1719863999,buy,103,3,14,1000.00"
        ∷ codes "1719964800,d-broker00005,line,1719950000,buy,101,9,14,1000.00"
        ∷ []
        ) (
        codes "ok,sheet,1"
        ∷ codes "ok,order,103,1,1719950399,1719950400"
        ∷ codes "ok,order,103,2,1719950400,1720036800"
        ∷ codes "no,8,1719864000"
        ∷ codes "no,1"
        ∷ []
        ) }
{}

/// While the sheet isn't published, a line comes in time up to the dealer's window of 21,600 seconds behind its due moment
/// and not a second later; what was taken is repeated then too.
pub fn dealer_window()
    ensures { Answers (
        codes "1719885600,d-broker00005,line,1719863999,buy,103,1,14,1000.00"
        ∷ codes "1719885601,d-broker00005,line,1719863999,buy,103,2,14,1000.00"
        ∷ codes "1719885601,d-broker00005,line,1719863999,buy,103,1,14,1000.00"
        ∷ []
        ) (
        codes "ok,order,103,1,1719863999,1719864000"
        ∷ codes "no,8,1719864000"
        ∷ codes "ok,order,103,1,1719863999,1719864000"
        ∷ []
        ) }
{}

/// A line has its own receipt, which may not lie ahead, and is never the same as an order.
pub fn dealer_lines()
    ensures { Answers (
        codes "1719838800,d-broker00005,line,1719838000,buy,103,1,14,1000.00"
        ∷ codes "1719838800,d-broker00005,line,1719838801,buy,103,2,14,1000.00"
        ∷ codes "1719838800,d-broker00005,line,1719838000,buy,101,2,14,1000.00"
        ∷ codes "1719838800,op-desk000001,buy,103,1,14,1000.00"
        ∷ codes "1719838800,op-desk000001,line,1719838000,buy,103,1,14,1000.00"
        ∷ []
        ) (
        codes "ok,order,103,1,1719838000,1719864000"
        ∷ codes "no,9,1719838800"
        ∷ codes "no,1"
        ∷ codes "no,4"
        ∷ codes "no,1"
        ∷ []
        ) }
{}

/// A pending order is cancelled once.
pub fn cancel()
    ensures { Answers (
        codes "1719838800,op-desk000001,buy,101,1,14,1000.00"
        ∷ codes "1719863999,op-desk000001,cancel,101,2,1"
        ∷ codes "1719863999,op-desk000001,cancel,101,3,1"
        ∷ []
        ) (
        codes "ok,order,101,1,1719838800,1719864000"
        ∷ codes "ok,cancel,101,2,1"
        ∷ codes "no,11"
        ∷ []
        ) }
{}

/// At its pricing moment it is too late.
pub fn late_cancel()
    ensures { Answers (
        codes "1719838800,op-desk000001,buy,101,1,14,1000.00"
        ∷ codes "1719864000,op-desk000001,cancel,101,2,1"
        ∷ []
        ) (
        codes "ok,order,101,1,1719838800,1719864000"
        ∷ codes "no,10,1719864000"
        ∷ []
        ) }
{}

/// What is refused right after the preamble.
pub fn refusals()
    ensures { Answers (
        codes "1719838800,op-desk000001,buy,101,1,11,100.00"
        ∷ codes "1719838800,op-desk000001,exchange,101,1,12,14,1.000"
        ∷ codes "1719838800,op-desk000001,sheet,1,1719950400,11:10.00 12:10.00 13:20.00 14:10.00"
        ∷ codes "1719838800,op-desk000001,sheet,1,1719864000,11:10.00 12:10.00 14:10.00"
        ∷ codes "1719838800,op-desk000001,sheet,1,1719864000,11:10.00 12:10.00 13:20.00 14:10.00"
        ∷ codes "1719838800,op-desk000001,household,1,h-other00001"
        ∷ codes "1719838800,op-desk000001,show,999"
        ∷ codes "1719838800,h-mary000001,show,999"
        ∷ codes "1719838800,op-desk000001,buy,101,1,11,1e4"
        ∷ codes "1719835199,op-desk000001,buy,101,1,11,1e4"
        ∷ codes "1719838800,op-desk000001"
        ∷ codes "1719838800,op-desk000001,fly,101"
        ∷ []
        ) (
        codes "no,6,250.00"
        ∷ codes "no,7"
        ∷ codes "no,12,1719864000,1"
        ∷ codes "no,13,13"
        ∷ codes "no,18,1719864000"
        ∷ codes "no,14,1"
        ∷ codes "no,3,1"
        ∷ codes "no,1"
        ∷ codes "no,2,4"
        ∷ codes "no,20,1719835200"
        ∷ codes "no,2,0"
        ∷ codes "no,2,0"
        ∷ []
        ) }
{}

/// A zone that names daylight time without its two changes is no zone rule. A household is told before that it has no right
/// to the verb.
pub fn bad_zone()
    ensures { Answers (
        codes "1719838800,op-desk000001,calendar,2,EST5EDT,16:00,2024-01-01,2026-12-31,"
        ∷ codes "1719838800,h-mary000001,calendar,2,EST5EDT,16:00,2024-01-01,2026-12-31,"
        ∷ []
        ) (
        codes "no,2,2"
        ∷ codes "no,1"
        ∷ []
        ) }
{}

/// An item whose moment is before that of the journal's last event is refused before its verb is read, a repeat and a
/// query too; what was refused or only looked at moves no moment.
pub fn moments_of_a_script()
    ensures { AnswersInJuly (
        codes "1719842400,h-mary000001,buy,101,1,12,1000.00"
        ∷ codes "1719842399,h-mary000001,buy,101,2,12,1000.00"
        ∷ codes "1719846000,h-mary000001,show,101"
        ∷ codes "1719846000,h-mary000001,buy,101,2,12,0.00"
        ∷ codes "1719846000,h-mary000001,buy,103,2,12,1.00"
        ∷ codes "1719842400,h-mary000001,sell,101,2,12,1.000"
        ∷ codes "1719842399,h-mary000001,sell,101,2,12,1.000"
        ∷ codes "1719842399,h-mary000001,fly"
        ∷ codes "1719842400,h-mary000001,fly"
        ∷ codes "1719842460,h-mary000001,sell,101,3,12,1.000"
        ∷ codes "1719842459,h-mary000001,show,101"
        ∷ []
        ) (
        codes "ok,order,101,1,1719842400,1719864000"
        ∷ codes "no,20,1719842400"
        ∷ codes "ok,show,101,"
        ∷ codes "no,2,4"
        ∷ codes "no,1"
        ∷ codes "ok,order,101,2,1719842400,1719864000"
        ∷ codes "no,20,1719842400"
        ∷ codes "no,20,1719842400"
        ∷ codes "no,2,0"
        ∷ codes "ok,order,101,3,1719842460,1719864000"
        ∷ codes "no,20,1719842460"
        ∷ []
        ) }
{}

/// A line, an entered order and a replacement may have been received at this very moment, and not a second later. An
/// order that is replaced and then voided is struck.
pub fn receipt_of_now()
    ensures { AnswersInJuly (
        codes "1719842400,d-broker00005,line,1719842400,buy,103,1,14,10.00"
        ∷ codes "1719842400,d-broker00005,line,1719842401,buy,103,2,14,10.00"
        ∷ codes "1719842460,op-desk000001,enter,1,fund,1719842461,buy,101,1,14,10.00"
        ∷ codes "1719842460,op-desk000001,enter,1,fund,1719842460,buy,101,1,14,10.00"
        ∷ codes "1719842460,op-desk000001,replace,2,fund,1719842461,buy,101,1,14,20.00"
        ∷ codes "1719842460,op-desk000001,replace,2,fund,1719842460,buy,101,1,14,20.00"
        ∷ codes "1719842520,op-desk000001,void,3,fund,101,1"
        ∷ codes "1719842520,h-mary000001,trace,101,1"
        ∷ []
        ) (
        codes "ok,order,103,1,1719842400,1719864000"
        ∷ codes "no,9,1719842400"
        ∷ codes "no,9,1719842460"
        ∷ codes "ok,fix,1,"
        ∷ codes "no,9,1719842460"
        ∷ codes "ok,fix,2,"
        ∷ codes "ok,fix,3,"
        ∷ codes "ok,trace,101,1,struck,1719842460,1719864000,0.00,0.000,0.00,0.00,0.000"
        ∷ []
        ) }
{}
