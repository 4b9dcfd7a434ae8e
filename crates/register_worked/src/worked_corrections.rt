//! Worked scripts of corrections with their gains and losses, as laws.
ghost use Rattle.std.specs.Prelude.{[], ◌∷◌, ◌++◌, codes};
ghost use Rattle.register_worked.specs.WorkedRuns.{Answers, AnswersInJuly, first_sheet, statement_of};

/// A purchase that a dealer forgot is entered at its old price, and the dealer pays the loss.
pub fn late_entry()
    ensures { Answers (
        first_sheet
        ∷ codes "1719954000,op-desk000001,sheet,1,1719950400,11:10.00 12:10.00 13:20.00 14:10.50"
        ∷ codes "1719954100,op-desk000001,enter,1,dealer:5,1719838800,buy,103,1,14,10000.00"
        ∷ codes "1719954100,op-desk000001,show,103"
        ∷ codes "1719954200,op-desk000001,books"
        ∷ []
        ) (
        codes "ok,sheet,1"
        ∷ codes "ok,sheet,2"
        ∷ codes "ok,fix,1,14:-500.00"
        ∷ codes "ok,show,103,14:1000.000:0.000:10000.00"
        ∷ (codes "ok,books,11:0.000:0.00 12:0.000:0.00 13:0.000:0.00 14:1000.000:10500.00,"
        ++ codes "0.00,0.00,5:-500.00,-10000.00")
        ∷ []
        ) }
{}

/// The same loss is borne by the fund: it is told and moves no cash.
pub fn loss_borne_by_the_fund()
    ensures { Answers (
        first_sheet
        ∷ codes "1719954000,op-desk000001,sheet,1,1719950400,11:10.00 12:10.00 13:20.00 14:10.50"
        ∷ codes "1719954100,op-desk000001,enter,1,fund,1719838800,buy,103,1,14,10000.00"
        ∷ codes "1719954200,op-desk000001,books"
        ∷ []
        ) (
        codes "ok,sheet,1"
        ∷ codes "ok,sheet,2"
        ∷ codes "ok,fix,1,14:-500.00"
        ∷ (codes "ok,books,11:0.000:0.00 12:0.000:0.00 13:0.000:0.00 14:1000.000:10000.00,"
        ++ codes "0.00,0.00,5:0.00,-10000.00")
        ∷ []
        ) }
{}

/// A correction that leaves a later redemption without its shares is refused.
pub fn broken_correction()
    ensures { Answers (
        codes "1719838800,op-desk000001,buy,101,1,14,1000.00"
        ∷ first_sheet
        ∷ codes "1719867800,op-desk000001,sell,101,2,14,100.000"
        ∷ codes "1719954000,op-desk000001,sheet,1,1719950400,11:10.00 12:10.00 13:20.00 14:10.00"
        ∷ codes "1719954100,op-desk000001,replace,1,agent,1719838800,buy,101,1,14,100.00"
        ∷ codes "1719954100,op-desk000001,show,101"
        ∷ codes "1719954100,op-desk000001,trace,101,2"
        ∷ []
        ) (
        codes "ok,order,101,1,1719838800,1719864000"
        ∷ codes "ok,sheet,1"
        ∷ codes "ok,order,101,2,1719867800,1719950400"
        ∷ codes "ok,sheet,2"
        ∷ codes "no,15,101,2"
        ∷ codes "ok,show,101,"
        ∷ codes "ok,trace,101,2,filled,1719867800,1719950400,10.00,100.000,1000.00,0.00,0.000"
        ∷ []
        ) }
{}

/// A net asset value is corrected: the gain is told and moves no cash.
pub fn price_correction()
    ensures { Answers (
        codes "1719838800,op-desk000001,buy,101,1,14,1000.00"
        ∷ first_sheet
        ∷ codes "1719867800,op-desk000001,fixprice,1,agent,14,1719864000,10.50"
        ∷ codes "1719867800,op-desk000001,show,101"
        ∷ codes "1719867800,op-desk000001,books"
        ∷ []
        ) (
        codes "ok,order,101,1,1719838800,1719864000"
        ∷ codes "ok,sheet,1"
        ∷ codes "ok,fix,1,14:50.00"
        ∷ codes "ok,show,101,14:95.238:0.000:1000.00"
        ∷ (codes "ok,books,11:0.000:0.00 12:0.000:0.00 13:0.000:0.00 14:95.238:1000.00,"
        ++ codes "0.00,0.00,5:0.00,-1000.00")
        ∷ []
        ) }
{}

/// A correction that is sent again gets the gains of its own event, and the dealer pays once.
pub fn repeated_correction()
    ensures { Answers (
        first_sheet
        ∷ codes "1719954000,op-desk000001,sheet,1,1719950400,11:10.00 12:10.00 13:20.00 14:10.50"
        ∷ codes "1719954100,op-desk000001,enter,1,dealer:5,1719838800,buy,103,1,14,10000.00"
        ∷ codes "1719954200,op-desk000001,void,2,agent,103,1"
        ∷ codes "1719954300,op-desk000001,enter,1,dealer:5,1719838800,buy,103,1,14,10000.00"
        ∷ codes "1719954300,op-desk000001,enter,1,dealer:5,1719838800,buy,103,1,14,9000.00"
        ∷ codes "1719954300,op-desk000001,books"
        ∷ []
        ) (
        codes "ok,sheet,1"
        ∷ codes "ok,sheet,2"
        ∷ codes "ok,fix,1,14:-500.00"
        ∷ codes "ok,fix,2,14:500.00"
        ∷ codes "ok,fix,1,14:-500.00"
        ∷ codes "no,4"
        ∷ (codes "ok,books,11:0.000:0.00 12:0.000:0.00 13:0.000:0.00 14:0.000:500.00,"
        ++ codes "0.00,0.00,5:-500.00,0.00")
        ∷ []
        ) }
{}

/// A dealer that bears a loss must be there: its place is told before those of the class and the order.
pub fn unknown_bearer()
    ensures { AnswersInJuly (
        codes "1719842400,h-mary000001,buy,101,1,12,1000.00"
        ∷ codes "1719865800,op-desk000001,sheet,1,1719864000,11:20.00 12:10.00 13:15.00 14:50.00"
        ∷ codes "1719867600,op-desk000001,fixprice,1,dealer:9,12,1719864000,8.00"
        ∷ codes "1719867600,op-desk000001,fixprice,1,dealer:9,19,1719864000,8.00"
        ∷ codes "1719867600,op-desk000001,fixrate,1,dealer:9,12,1719864000,0.100000"
        ∷ codes "1719867600,op-desk000001,enter,1,dealer:9,1719838800,buy,101,2,12,50.00"
        ∷ codes "1719867600,op-desk000001,replace,1,dealer:9,1719838800,buy,101,1,12,50.00"
        ∷ codes "1719867600,op-desk000001,replace,1,dealer:9,1719838800,buy,101,7,12,50.00"
        ∷ codes "1719867600,op-desk000001,void,1,dealer:9,101,1"
        ∷ codes "1719867600,op-desk000001,void,1,dealer:9,101,7"
        ∷ codes "1719867600,op-desk000001,void,1,fund,101,7"
        ∷ codes "1719867660,op-desk000001,fixprice,1,dealer:5,19,1719864000,8.00"
        ∷ codes "1719867660,op-desk000001,fixprice,1,dealer:5,12,1719864000,8.00"
        ∷ codes "1719867720,op-desk000001,dealer,9,d-harbor00009,0"
        ∷ codes "1719867780,op-desk000001,fixprice,2,dealer:9,12,1719864000,7.50"
        ∷ codes "1719867840,op-desk000001,books"
        ∷ []
        ) (
        codes "ok,order,101,1,1719842400,1719864000"
        ∷ codes "ok,sheet,1"
        ∷ codes "no,3,2"
        ∷ codes "no,3,2"
        ∷ codes "no,3,2"
        ∷ codes "no,3,2"
        ∷ codes "no,3,2"
        ∷ codes "no,3,2"
        ∷ codes "no,3,2"
        ∷ codes "no,3,2"
        ∷ codes "no,3,4"
        ∷ codes "no,3,3"
        ∷ codes "ok,fix,1,12:-200.00"
        ∷ codes "ok,dealer,9"
        ∷ codes "ok,fix,2,12:-62.50"
        ∷ (codes "ok,books,11:0.000:0.00 12:133.333:1262.50 13:0.000:0.00 "
        ++ codes "14:0.000:0.00,0.00,0.00,5:-200.00 9:-62.50,-1000.00")
        ∷ []
        ) }
{}

/// An entered sale of nothing, or of more than was loose on its sheet, is refused as one that breaks itself, and one that
/// leaves too few shares for a later sale names that one. Where its sheet is to come it is pending.
pub fn entered_sales()
    ensures { AnswersInJuly (
        codes "1719842400,h-mary000001,buy,101,1,12,1000.00"
        ∷ codes "1719865800,op-desk000001,sheet,1,1719864000,11:20.00 12:10.00 13:15.00 14:50.00"
        ∷ codes "1719928800,h-mary000001,sell,101,2,12,70.000"
        ∷ codes "1719952200,op-desk000001,sheet,1,1719950400,11:20.00 12:10.10 13:15.00 14:50.00"
        ∷ codes "1719954000,op-desk000001,enter,1,agent,1719867600,sell,102,1,12,5.000"
        ∷ codes "1719954000,op-desk000001,enter,1,agent,1719867600,sellall,102,1,12"
        ∷ codes "1719954000,op-desk000001,enter,1,agent,1719867600,sellcash,102,1,13,50.00"
        ∷ codes "1719954000,op-desk000001,enter,1,agent,1719867600,exchangeall,102,1,12,13"
        ∷ codes "1719954060,op-desk000001,enter,1,agent,1719867600,sell,101,3,12,30.001"
        ∷ codes "1719954060,op-desk000001,enter,1,agent,1719928860,sell,101,3,12,30.001"
        ∷ codes "1719954060,op-desk000001,enter,1,agent,1719867600,sell,101,3,12,30.000"
        ∷ codes "1719954120,op-desk000001,enter,2,agent,1719867660,sellall,101,4,12"
        ∷ codes "1719954120,op-desk000001,enter,2,agent,1719950400,sellall,101,4,12"
        ∷ codes "1719954180,h-mary000001,show,101"
        ∷ codes "1719954180,h-mary000001,trace,101,3"
        ∷ codes "1719954180,h-mary000001,trace,101,4"
        ∷ codes "1719954180,op-desk000001,trace,102,1"
        ∷ codes "1719954240,op-desk000001,replace,3,agent,1719838800,sell,101,3,12,30.000"
        ∷ []
        ) (
        codes "ok,order,101,1,1719842400,1719864000"
        ∷ codes "ok,sheet,1"
        ∷ codes "ok,order,101,2,1719928800,1719950400"
        ∷ codes "ok,sheet,2"
        ∷ codes "no,15,102,1"
        ∷ codes "no,15,102,1"
        ∷ codes "no,15,102,1"
        ∷ codes "no,15,102,1"
        ∷ codes "no,15,101,2"
        ∷ codes "no,15,101,3"
        ∷ codes "ok,fix,1,12:0.00"
        ∷ codes "no,15,101,2"
        ∷ codes "ok,fix,2,"
        ∷ codes "ok,show,101,"
        ∷ codes "ok,trace,101,3,filled,1719867600,1719950400,10.10,30.000,303.00,15.00,0.000"
        ∷ codes "ok,trace,101,4,pending,1719950400,1720036800,0.00,0.000,0.00,0.00,0.000"
        ∷ codes "no,3,2"
        ∷ codes "no,15,101,3"
        ∷ []
        ) }
{}

/// An order replaced by one with a later receipt moves to the sheet of that receipt, or is pending again, and keeps its
/// reference; the last replacement counts.
pub fn replacement_into_a_later_sheet()
    ensures { AnswersInJuly (
        codes "1719842400,h-mary000001,buy,101,1,12,1000.00"
        ∷ codes "1719842460,h-mary000001,buy,101,2,13,300.00"
        ∷ codes "1719865800,op-desk000001,sheet,1,1719864000,11:20.00 12:10.00 13:15.00 14:50.00"
        ∷ codes "1719952200,op-desk000001,sheet,1,1719950400,11:20.00 12:12.50 13:16.00 14:50.00"
        ∷ codes "1719954000,h-mary000001,trace,101,1"
        ∷ codes "1719954060,op-desk000001,replace,1,fund,1719864000,buy,101,1,12,1000.00"
        ∷ codes "1719954120,h-mary000001,trace,101,1"
        ∷ codes "1719954120,h-mary000001,show,101"
        ∷ codes "1719954180,op-desk000001,replace,2,agent,1719951300,buy,101,2,13,300.00"
        ∷ codes "1719954240,h-mary000001,trace,101,2"
        ∷ codes "1719954240,h-mary000001,show,101"
        ∷ codes "1720038600,op-desk000001,sheet,1,1720036800,11:20.00 12:12.60 13:12.00 14:50.00"
        ∷ codes "1720040400,h-mary000001,trace,101,2"
        ∷ codes "1720040460,op-desk000001,replace,3,agent,1719838800,sell,101,2,12,10.000"
        ∷ codes "1720040460,op-desk000001,replace,3,agent,1719950460,sell,101,2,12,10.000"
        ∷ codes "1720040520,h-mary000001,trace,101,2"
        ∷ codes "1720040520,h-mary000001,statement,101,2024-07-01,2024-07-31"
        ∷ []
        ) (
        codes "ok,order,101,1,1719842400,1719864000"
        ∷ codes "ok,order,101,2,1719842460,1719864000"
        ∷ codes "ok,sheet,1"
        ∷ codes "ok,sheet,2"
        ∷ codes "ok,trace,101,1,filled,1719842400,1719864000,10.00,100.000,1000.00,0.00,0.000"
        ∷ codes "ok,fix,1,12:250.00"
        ∷ codes "ok,trace,101,1,filled,1719864000,1719950400,12.50,80.000,1000.00,0.00,0.000"
        ∷ codes "ok,show,101,12:80.000:0.000:1000.00 13:20.000:0.000:300.00"
        ∷ codes "ok,fix,2,13:20.00"
        ∷ codes "ok,trace,101,2,pending,1719951300,1720036800,0.00,0.000,0.00,0.00,0.000"
        ∷ codes "ok,show,101,12:80.000:0.000:1000.00"
        ∷ codes "ok,sheet,3"
        ∷ codes "ok,trace,101,2,filled,1719951300,1720036800,12.00,25.000,300.00,0.00,0.000"
        ∷ codes "no,15,101,2"
        ∷ codes "ok,fix,3,12:0.00 13:0.00"
        ∷ codes "ok,trace,101,2,filled,1719950460,1720036800,12.60,10.000,126.00,6.25,0.000"
        ∷ statement_of (codes "101") (
        codes "STATEMENT 101 MARY DOE"
        ∷ codes "PERIOD 2024-07-01 2024-07-31"
        ∷ codes "2024-07-02 buy ref 1 class 12 gross 1000.00 price 12.50 shares 80.000 charge 0.00"
        ∷ (codes "2024-07-03 sell ref 2 class 12 shares 10.000 "
        ++ codes "nav 12.60 value 126.00 charge 6.25 paid 119.75")
        ∷ codes "HOLDINGS"
        ∷ codes "class 12 GROWTH-B shares 70.000 escrow 0.000 cost 875.00 nav 12.60 value 882.00"
        ∷ codes "END"
        ∷ [])
        ∷ []
        ) }
{}

/// The last correction of a price counts, each gain is told against the register before it, and the price of another
/// class or sheet is left as it was.
pub fn price_corrected_twice()
    ensures { AnswersInJuly (
        codes "1719842400,h-mary000001,buy,101,1,14,1000.00"
        ∷ codes "1719842400,h-mary000001,buy,102,1,12,1000.00"
        ∷ codes "1719865800,op-desk000001,sheet,1,1719864000,11:20.00 12:10.00 13:15.00 14:10.00"
        ∷ codes "1719952200,op-desk000001,sheet,1,1719950400,11:20.00 12:10.00 13:15.00 14:10.00"
        ∷ codes "1719954000,op-desk000001,fixprice,1,fund,14,1719864000,12.50"
        ∷ codes "1719954060,h-mary000001,show,101"
        ∷ codes "1719954120,op-desk000001,fixprice,2,agent,14,1719864000,8.00"
        ∷ codes "1719954180,h-mary000001,show,101"
        ∷ codes "1719954180,h-mary000001,trace,101,1"
        ∷ codes "1719954240,op-desk000001,fixprice,3,fund,12,1719864000,10.50"
        ∷ codes "1719954300,h-mary000001,show,101"
        ∷ codes "1719954300,h-mary000001,show,102"
        ∷ codes "1719954360,op-desk000001,fixprice,4,fund,14,1719864000,10.00"
        ∷ codes "1719954420,h-mary000001,show,101"
        ∷ codes "1719954480,op-desk000001,fixprice,5,fund,14,1719950400,10.10"
        ∷ codes "1719954480,op-desk000001,fixprice,6,fund,14,1720036800,10.10"
        ∷ codes "1719954480,op-desk000001,fixprice,2,agent,14,1719864000,8.00"
        ∷ codes "1719954540,op-desk000001,books"
        ∷ []
        ) (
        codes "ok,order,101,1,1719842400,1719864000"
        ∷ codes "ok,order,102,1,1719842400,1719864000"
        ∷ codes "ok,sheet,1"
        ∷ codes "ok,sheet,2"
        ∷ codes "ok,fix,1,14:200.00"
        ∷ codes "ok,show,101,14:80.000:0.000:1000.00"
        ∷ codes "ok,fix,2,14:-450.00"
        ∷ codes "ok,show,101,14:125.000:0.000:1000.00"
        ∷ codes "ok,trace,101,1,filled,1719842400,1719864000,8.00,125.000,1000.00,0.00,0.000"
        ∷ codes "ok,fix,3,12:47.62"
        ∷ codes "ok,show,101,14:125.000:0.000:1000.00"
        ∷ codes "ok,show,102,12:95.238:0.000:1000.00"
        ∷ codes "ok,fix,4,14:250.00"
        ∷ codes "ok,show,101,14:100.000:0.000:1000.00"
        ∷ codes "ok,fix,5,"
        ∷ codes "no,3,4"
        ∷ codes "ok,fix,2,14:-450.00"
        ∷ (codes "ok,books,11:0.000:0.00 12:95.238:1000.00 13:0.000:0.00 "
        ++ codes "14:100.000:1450.00,0.00,-450.00,5:0.00,-2000.00")
        ∷ []
        ) }
{}

/// A replacement whose order is unfilled is refused as one that breaks itself, also where that order was unfilled or
/// pending before.
pub fn unfilled_replacement()
    ensures { AnswersInJuly (
        codes "1719842400,h-mary000001,buy,101,1,12,1000.00"
        ∷ codes "1719865800,op-desk000001,sheet,1,1719864000,11:20.00 12:10.00 13:15.00 14:50.00"
        ∷ codes "1719867600,h-mary000001,sell,101,2,12,200.000"
        ∷ codes "1719867660,h-mary000001,sell,101,3,12,10.000"
        ∷ codes "1719952200,op-desk000001,sheet,1,1719950400,11:20.00 12:10.00 13:15.00 14:50.00"
        ∷ codes "1719954000,h-mary000001,trace,101,2"
        ∷ codes "1719954060,op-desk000001,replace,1,fund,1719867600,sell,101,2,12,150.000"
        ∷ codes "1719954060,op-desk000001,replace,1,fund,1719867600,sell,101,2,12,95.000"
        ∷ codes "1719954060,op-desk000001,replace,1,fund,1719867600,sell,101,2,12,90.000"
        ∷ codes "1719954120,h-mary000001,show,101"
        ∷ codes "1719954120,h-mary000001,sell,101,4,12,5.000"
        ∷ codes "1719954180,op-desk000001,replace,2,fund,1719867600,sell,101,4,12,5.000"
        ∷ codes "1719954180,op-desk000001,replace,2,fund,1719867660,sell,101,4,12,5.000"
        ∷ []
        ) (
        codes "ok,order,101,1,1719842400,1719864000"
        ∷ codes "ok,sheet,1"
        ∷ codes "ok,order,101,2,1719867600,1719950400"
        ∷ codes "ok,order,101,3,1719867660,1719950400"
        ∷ codes "ok,sheet,2"
        ∷ codes "ok,trace,101,2,short,1719867600,1719950400,0.00,0.000,0.00,0.00,100.000"
        ∷ codes "no,15,101,2"
        ∷ codes "no,15,101,3"
        ∷ codes "ok,fix,1,12:0.00"
        ∷ codes "ok,show,101,"
        ∷ codes "ok,order,101,4,1719954120,1720036800"
        ∷ codes "no,15,101,3"
        ∷ codes "no,15,101,4"
        ∷ []
        ) }
{}

/// The number of a correction is used once, whichever kind it has: with other content it is refused, and with the same
/// content it is a repeat.
pub fn numbers_of_corrections()
    ensures { AnswersInJuly (
        codes "1719842400,h-mary000001,buy,101,1,12,1000.00"
        ∷ codes "1719842460,h-mary000001,buy,101,2,12,500.00"
        ∷ codes "1719865800,op-desk000001,sheet,1,1719864000,11:20.00 12:10.00 13:15.00 14:50.00"
        ∷ codes "1719867600,op-desk000001,fixprice,1,fund,12,1719864000,8.00"
        ∷ codes "1719867600,op-desk000001,fixrate,1,fund,12,1719864000,0.100000"
        ∷ codes "1719867600,op-desk000001,fixrate,2,fund,12,1719864000,0.100000"
        ∷ codes "1719867600,op-desk000001,enter,2,fund,1719842520,buy,101,3,12,50.00"
        ∷ codes "1719867600,op-desk000001,enter,3,fund,1719842520,buy,101,3,12,50.00"
        ∷ codes "1719867600,op-desk000001,replace,3,fund,1719842400,buy,101,1,12,2000.00"
        ∷ codes "1719867600,op-desk000001,replace,4,fund,1719842400,buy,101,1,12,2000.00"
        ∷ codes "1719867600,op-desk000001,void,4,fund,101,2"
        ∷ codes "1719867600,op-desk000001,void,5,fund,101,2"
        ∷ codes "1719867600,op-desk000001,void,5,fund,101,3"
        ∷ codes "1719867600,op-desk000001,fixprice,5,fund,12,1719864000,9.00"
        ∷ codes "1719867660,op-desk000001,void,5,fund,101,2"
        ∷ codes "1719867660,op-desk000001,fixrate,2,fund,12,1719864000,0.100000"
        ∷ []
        ) (
        codes "ok,order,101,1,1719842400,1719864000"
        ∷ codes "ok,order,101,2,1719842460,1719864000"
        ∷ codes "ok,sheet,1"
        ∷ codes "ok,fix,1,12:-300.00"
        ∷ codes "no,4"
        ∷ codes "ok,fix,2,"
        ∷ codes "no,4"
        ∷ codes "ok,fix,3,12:0.00"
        ∷ codes "no,4"
        ∷ codes "ok,fix,4,12:0.00"
        ∷ codes "no,4"
        ∷ codes "ok,fix,5,12:0.00"
        ∷ codes "no,4"
        ∷ codes "no,4"
        ∷ codes "ok,fix,5,12:0.00"
        ∷ codes "ok,fix,2,"
        ∷ []
        ) }
{}
