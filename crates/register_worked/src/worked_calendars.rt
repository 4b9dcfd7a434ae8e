//! Worked scripts of two calendars, and of families.
ghost use Rattle.std.specs.Prelude.{[], ◌∷◌, ◌++◌, codes};
ghost use Rattle.register_worked.specs.WorkedRuns.{AnswersAlone, AnswersInJuly, calendar_over, statement_of};

/// At one moment the sheet of the smaller calendar is expected first. Its prices count for the credit of an order on a
/// later moment alone, and no exchange goes between two calendars.
pub fn sheets_of_two_calendars()
    ensures { AnswersAlone (
        calendar_over (codes "2") (codes "2024-07-01,2024-07-05,2024-07-04")
        ∷ calendar_over (codes "1") (codes "2024-07-01,2024-07-05,2024-07-04")
        ∷ (codes "1719835200,op-desk000001,class,11,2,1,GROWTH-A,0,1,0.01,0.01,0.00:575 "
        ++ codes "1000.00:300 3000.00:0,")
        ∷ (codes "1719835200,op-desk000001,class,12,1,2,INCOME-A,0,1,0.01,0.01,0.00:575 "
        ++ codes "1000.00:300 3000.00:0,")
        ∷ codes "1719835200,op-desk000001,household,1,h-mary000001"
        ∷ codes "1719835200,op-desk000001,account,101,1,0,MARY DOE"
        ∷ codes "1719835200,op-desk000001,account,102,1,0,MARY DOE IRA"
        ∷ codes "1719842400,h-mary000001,buy,101,1,11,900.00"
        ∷ codes "1719842460,h-mary000001,buy,102,1,12,900.00"
        ∷ codes "1719864000,op-desk000001,sheet,2,1719864000,11:10.00"
        ∷ codes "1719864000,op-desk000001,sheet,1,1719864000,11:10.00"
        ∷ codes "1719864000,op-desk000001,sheet,1,1719864000,12:10.00"
        ∷ codes "1719864060,h-mary000001,show,102"
        ∷ codes "1719864060,op-desk000001,sheet,1,1719950400,12:40.00"
        ∷ codes "1719864120,op-desk000001,sheet,2,1719864000,11:10.00"
        ∷ codes "1719864180,h-mary000001,trace,101,1"
        ∷ codes "1719864180,h-mary000001,trace,102,1"
        ∷ codes "1719928800,h-mary000001,exchange,101,2,11,12,1.000"
        ∷ codes "1719928860,h-mary000001,buy,101,3,11,200.00"
        ∷ codes "1719950400,op-desk000001,sheet,1,1719950400,12:40.00"
        ∷ codes "1719950400,op-desk000001,sheet,2,1719950400,11:10.00"
        ∷ codes "1719950460,h-mary000001,trace,101,3"
        ∷ codes "1720015200,h-mary000001,buy,101,4,11,200.00"
        ∷ codes "1720036800,op-desk000001,sheet,1,1720036800,12:10.00"
        ∷ codes "1720036800,op-desk000001,sheet,2,1720036800,11:10.00"
        ∷ codes "1720036860,h-mary000001,trace,101,4"
        ∷ codes "1720036860,h-mary000001,statement,101,2024-07-01,2024-07-05"
        ∷ []
        ) (
        codes "ok,calendar,2"
        ∷ codes "ok,calendar,1"
        ∷ codes "ok,class,11"
        ∷ codes "ok,class,12"
        ∷ codes "ok,household,1"
        ∷ codes "ok,account,101"
        ∷ codes "ok,account,102"
        ∷ codes "ok,order,101,1,1719842400,1719864000"
        ∷ codes "ok,order,102,1,1719842460,1719864000"
        ∷ codes "no,12,1719864000,1"
        ∷ codes "no,13,11"
        ∷ codes "ok,sheet,1"
        ∷ codes "ok,show,102,12:84.826:0.000:900.00"
        ∷ codes "no,12,1719864000,2"
        ∷ codes "ok,sheet,2"
        ∷ codes "ok,trace,101,1,filled,1719842400,1719864000,10.31,87.294,900.00,27.06,0.000"
        ∷ codes "ok,trace,102,1,filled,1719842460,1719864000,10.61,84.826,900.00,51.74,0.000"
        ∷ codes "no,7"
        ∷ codes "ok,order,101,3,1719928860,1719950400"
        ∷ codes "ok,sheet,3"
        ∷ codes "ok,sheet,4"
        ∷ codes "ok,trace,101,3,filled,1719928860,1719950400,10.31,19.399,200.00,6.01,0.000"
        ∷ codes "ok,order,101,4,1720015200,1720036800"
        ∷ codes "ok,sheet,5"
        ∷ codes "ok,sheet,6"
        ∷ codes "ok,trace,101,4,filled,1720015200,1720036800,10.00,20.000,200.00,0.00,0.000"
        ∷ statement_of (codes "101") (
        codes "STATEMENT 101 MARY DOE"
        ∷ codes "PERIOD 2024-07-01 2024-07-05"
        ∷ codes "2024-07-01 buy ref 1 class 11 gross 900.00 price 10.31 shares 87.294 charge 27.06"
        ∷ codes "2024-07-02 buy ref 3 class 11 gross 200.00 price 10.31 shares 19.399 charge 6.01"
        ∷ codes "2024-07-03 buy ref 4 class 11 gross 200.00 price 10.00 shares 20.000 charge 0.00"
        ∷ codes "HOLDINGS"
        ∷ codes "class 11 GROWTH-A shares 126.693 escrow 0.000 cost 1300.00 nav 10.00 value 1266.93"
        ∷ codes "END"
        ∷ [])
        ∷ []
        ) }
{}

/// All classes of a family have one calendar and one schedule; the least class that differs is named. A class without a
/// family may have any.
pub fn family_with_one_schedule()
    ensures { AnswersInJuly (
        calendar_over (codes "2") (codes "2024-07-01,2024-07-12,")
        ∷ codes "1719835500,op-desk000001,class,15,1,2,INCOME-C,7,1,0.01,0.01,0.00:0,100"
        ∷ codes "1719835500,op-desk000001,class,15,1,2,INCOME-C,7,1,0.01,0.01,0.00:0,"
        ∷ (codes "1719835500,op-desk000001,class,15,2,2,INCOME-C,7,1,0.01,0.01,0.00:0,500 400 "
        ++ codes "300 200 100")
        ∷ codes "1719835500,op-desk000001,class,15,2,2,INCOME-C,7,1,0.01,0.01,0.00:0,100"
        ∷ codes "1719835560,op-desk000001,class,15,2,2,INCOME-C,8,1,0.01,0.01,0.00:0,100"
        ∷ codes "1719835560,op-desk000001,class,10,2,2,INCOME-D,8,1,0.01,0.01,0.00:0,100"
        ∷ codes "1719835560,op-desk000001,class,16,1,2,INCOME-E,8,1,0.01,0.01,0.00:0,100"
        ∷ codes "1719835560,op-desk000001,class,16,2,2,INCOME-E,8,1,0.01,0.01,0.00:0,100 100"
        ∷ (codes "1719835620,op-desk000001,class,16,1,2,INCOME-E,7,0,50.00,5.00,0.00:300,500 "
        ++ codes "400 300 200 100")
        ∷ codes "1719835620,op-desk000001,class,17,1,2,INCOME-F,0,0,50.00,5.00,0.00:300,100"
        ∷ codes "1719835620,op-desk000001,class,12,1,1,GROWTH-B,8,1,0.01,0.01,0.00:0,100"
        ∷ codes "1719842400,h-mary000001,buy,101,1,12,100.00"
        ∷ codes "1719842400,h-mary000001,exchange,101,2,12,15,1.000"
        ∷ codes "1719842400,h-mary000001,exchange,101,2,12,16,1.000"
        ∷ []
        ) (
        codes "ok,calendar,2"
        ∷ codes "no,14,12"
        ∷ codes "no,14,12"
        ∷ codes "no,14,12"
        ∷ codes "no,14,12"
        ∷ codes "ok,class,15"
        ∷ codes "ok,class,10"
        ∷ codes "no,14,10"
        ∷ codes "no,14,10"
        ∷ codes "ok,class,16"
        ∷ codes "ok,class,17"
        ∷ codes "no,14,12"
        ∷ codes "ok,order,101,1,1719842400,1719864000"
        ∷ codes "no,7"
        ∷ codes "ok,order,101,2,1719842400,1719864000"
        ∷ []
        ) }
{}

/// At one moment the sheet of one calendar says nothing of another: a line in a class of the other one still comes in
/// time, a dividend there may still be declared, no price and no rate of its classes may be corrected yet, and its day
/// may be closed. A dividend keeps open the day of its own calendar alone, and needs one that is open there.
pub fn rules_of_one_calendar()
    ensures { AnswersAlone (
        calendar_over (codes "2") (codes "2024-07-01,2024-07-05,2024-07-04")
        ∷ calendar_over (codes "1") (codes "2024-07-01,2024-07-05,2024-07-04")
        ∷ codes "1719835200,op-desk000001,class,21,2,1,GROWTH-A,0,1,0.01,0.01,0.00:0,"
        ∷ codes "1719835200,op-desk000001,class,12,1,2,INCOME-A,0,1,0.01,0.01,0.00:0,"
        ∷ codes "1719835200,op-desk000001,dealer,7,d-second00007,21600"
        ∷ codes "1719835200,op-desk000001,household,1,h-mary000001"
        ∷ codes "1719835200,op-desk000001,account,101,1,7,MARY DOE"
        ∷ codes "1719864000,op-desk000001,sheet,1,1719864000,12:10.00"
        ∷ codes "1719864060,d-second00007,line,1719860000,buy,101,1,12,100.00"
        ∷ codes "1719864060,d-second00007,line,1719860000,buy,101,1,21,100.00"
        ∷ codes "1719864120,op-desk000001,dividend,12,1719864000,0.100000"
        ∷ codes "1719864120,op-desk000001,dividend,21,1719864000,0.100000"
        ∷ codes "1719864180,op-desk000001,fixprice,1,fund,21,1719864000,9.00"
        ∷ codes "1719864180,op-desk000001,fixrate,1,fund,21,1719864000,0.200000"
        ∷ codes "1719864240,op-desk000001,sheet,2,1719864000,21:20.00"
        ∷ codes "1719864300,op-desk000001,fixprice,1,fund,21,1719864000,25.00"
        ∷ codes "1719864360,op-desk000001,dividend,21,1719950400,0.100000"
        ∷ codes "1719864420,op-desk000001,close,2,2024-07-02"
        ∷ codes "1719864420,op-desk000001,close,1,2024-07-02"
        ∷ codes "1719864480,h-mary000001,show,101"
        ∷ codes "1719864540,op-desk000001,dividend,12,1719950400,0.100000"
        ∷ codes "1719950400,op-desk000001,sheet,2,1719950400,21:25.00"
        ∷ codes "1720036800,op-desk000001,sheet,1,1720036800,12:10.00"
        ∷ codes "1720036860,op-desk000001,close,2,2024-07-03"
        ∷ codes "1720036920,h-mary000001,show,101"
        ∷ []
        ) (
        codes "ok,calendar,2"
        ∷ codes "ok,calendar,1"
        ∷ codes "ok,class,21"
        ∷ codes "ok,class,12"
        ∷ codes "ok,dealer,7"
        ∷ codes "ok,household,1"
        ∷ codes "ok,account,101"
        ∷ codes "ok,sheet,1"
        ∷ codes "no,8,1719864000"
        ∷ codes "ok,order,101,1,1719860000,1719864000"
        ∷ codes "no,14,12"
        ∷ codes "ok,dividend,21,1719864000"
        ∷ codes "no,3,4"
        ∷ codes "no,3,4"
        ∷ codes "ok,sheet,2"
        ∷ codes "ok,fix,1,21:25.00"
        ∷ codes "ok,dividend,21,1719950400"
        ∷ codes "no,14,2"
        ∷ codes "ok,close,1,2024-07-02"
        ∷ codes "ok,show,101,21:4.000:0.000:100.00"
        ∷ codes "no,3,2"
        ∷ codes "ok,sheet,3"
        ∷ codes "ok,sheet,4"
        ∷ codes "ok,close,2,2024-07-03"
        ∷ codes "ok,show,101,21:4.016:0.000:100.40"
        ∷ []
        ) }
{}

/// An exchange into a class that was opened after its receipt waits for the first sheet that lists both classes: one
/// that is entered behind a sheet without the target is pending.
pub fn exchange_into_a_class_opened_later()
    ensures { AnswersInJuly (
        codes "1719842400,h-mary000001,buy,101,1,12,1000.00"
        ∷ codes "1719865800,op-desk000001,sheet,1,1719864000,11:20.00 12:10.00 13:15.00 14:50.00"
        ∷ (codes "1719950400,op-desk000001,class,15,1,2,INCOME-C,7,1,0.01,0.01,0.00:0,500 400 "
        ++ codes "300 200 100")
        ∷ codes "1719952200,op-desk000001,sheet,1,1719950400,11:20.00 12:10.00 13:15.00 14:50.00"
        ∷ codes "1719954000,op-desk000001,enter,1,fund,1719928800,exchange,101,2,12,15,50.000"
        ∷ codes "1719954000,h-mary000001,trace,101,2"
        ∷ (codes "1720038600,op-desk000001,sheet,1,1720036800,11:20.00 12:10.00 13:15.00 "
        ++ codes "14:50.00 15:20.00")
        ∷ codes "1720040400,h-mary000001,trace,101,2"
        ∷ codes "1720040400,h-mary000001,show,101"
        ∷ []
        ) (
        codes "ok,order,101,1,1719842400,1719864000"
        ∷ codes "ok,sheet,1"
        ∷ codes "ok,class,15"
        ∷ codes "ok,sheet,2"
        ∷ codes "ok,fix,1,"
        ∷ codes "ok,trace,101,2,pending,1719928800,1720036800,0.00,0.000,0.00,0.00,0.000"
        ∷ codes "ok,sheet,3"
        ∷ codes "ok,trace,101,2,filled,1719928800,1720036800,10.00,50.000,500.00,0.00,0.000"
        ∷ codes "ok,show,101,12:50.000:0.000:500.00 15:25.000:0.000:500.00"
        ∷ []
        ) }
{}
