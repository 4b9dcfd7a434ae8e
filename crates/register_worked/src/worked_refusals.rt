//! Worked scripts of refusals where two rules are broken: the first one is told.
ghost use Rattle.std.specs.Prelude.{[], ◌∷◌, ◌++◌, codes};
ghost use Rattle.register_worked.specs.WorkedRuns.{AnswersInJuly, AnswersOver, AnswersWithOrders, calendar_over};

/// Where the calendar has ended that is told first, then the minimum, then that the exchange or the letter isn't offered.
/// An exchange between two calendars has no calendar that could have ended.
pub fn first_refusal_of_two()
    ensures { AnswersOver (codes "2024-07-01,2024-07-03,") (
        calendar_over (codes "2") (codes "2024-07-01,2024-07-05,")
        ∷ (codes "1719835200,op-desk000001,class,21,2,5,BOND-A,0,1,100.00,10.00,0.00:300 "
        ++ codes "50000.00:0,")
        ∷ codes "1720036799,h-mary000001,buy,101,1,11,249.99"
        ∷ codes "1720036799,h-mary000001,letter,101,1,12,5000.00"
        ∷ codes "1720036799,h-mary000001,exchange,101,1,12,11,1.000"
        ∷ codes "1720036799,h-mary000001,exchange,101,1,12,12,1.000"
        ∷ codes "1720036800,h-mary000001,buy,101,1,11,249.99"
        ∷ codes "1720036800,h-mary000001,buy,101,1,11,250.00"
        ∷ codes "1720036800,h-mary000001,letter,101,1,12,5000.00"
        ∷ codes "1720036800,h-mary000001,letter,101,1,11,50000.00"
        ∷ codes "1720036800,h-mary000001,exchange,101,1,12,11,1.000"
        ∷ codes "1720036800,h-mary000001,exchangeall,101,1,12,12"
        ∷ codes "1720036800,h-mary000001,exchangeall,101,1,12,13"
        ∷ codes "1720036800,h-mary000001,exchange,101,1,12,21,1.000"
        ∷ codes "1720036800,h-mary000001,buy,101,1,21,99.99"
        ∷ codes "1720036800,h-mary000001,buy,101,1,21,100.00"
        ∷ codes "1720036800,h-mary000001,buy,101,1,11,249.99"
        ∷ codes "1720036860,h-mary000001,buy,101,2,15,0.01"
        ∷ codes "1720036860,op-desk000001,enter,1,fund,1720033200,buy,101,2,11,249.99"
        ∷ codes "1720036860,op-desk000001,enter,1,fund,1720036800,buy,101,2,11,249.99"
        ∷ codes "1720036860,op-desk000001,enter,1,fund,1720036920,letter,101,2,12,1.00"
        ∷ codes "1720036860,d-broker00005,line,1720036800,exchange,103,1,12,14,1.000"
        ∷ []
        ) (
        codes "ok,calendar,2"
        ∷ codes "ok,class,21"
        ∷ codes "no,6,250.00"
        ∷ codes "no,7"
        ∷ codes "no,7"
        ∷ codes "no,7"
        ∷ codes "no,5"
        ∷ codes "no,5"
        ∷ codes "no,5"
        ∷ codes "no,5"
        ∷ codes "no,5"
        ∷ codes "no,5"
        ∷ codes "no,5"
        ∷ codes "no,7"
        ∷ codes "no,6,100.00"
        ∷ codes "ok,order,101,1,1720036800,1720123200"
        ∷ codes "no,4"
        ∷ codes "no,3,3"
        ∷ codes "no,6,250.00"
        ∷ codes "no,5"
        ∷ codes "no,5"
        ∷ codes "no,5"
        ∷ []
        ) }
{}

/// What is absent is told before a reference that is used, that before the minimum and what isn't offered, these before a
/// line that is late, and that before a receipt ahead and a struck order. Another household has no right to a repeat, and
/// a text that is no request is told first of all.
pub fn refusals_in_their_order()
    ensures { AnswersInJuly (
        codes "1719842400,h-mary000001,buy,101,1,12,1000.00"
        ∷ codes "1719842460,h-mary000001,buy,101,1,99,1.00"
        ∷ codes "1719842460,h-mary000001,buy,101,1,11,1.00"
        ∷ codes "1719842460,h-mary000001,exchange,101,1,12,12,1.000"
        ∷ codes "1719842460,h-omar000002,buy,101,1,12,1000.00"
        ∷ codes "1719842460,h-omar000002,buy,101,1,12,1e3"
        ∷ codes "1719842460,op-desk000001,buy,101,1,12,1000.00"
        ∷ codes "1719865800,op-desk000001,sheet,1,1719864000,11:20.00 12:10.00 13:15.00 14:50.00"
        ∷ codes "1719867600,d-broker00005,line,1719838800,buy,103,1,11,1.00"
        ∷ codes "1719867600,d-broker00005,line,1719838800,exchange,103,1,12,12,1.000"
        ∷ codes "1719867600,d-broker00005,line,1719838800,buy,103,1,12,1.00"
        ∷ codes "1719867600,d-broker00005,line,1719867601,buy,103,1,11,1.00"
        ∷ codes "1719867600,d-broker00005,line,1719867601,buy,103,1,12,1.00"
        ∷ codes "1719867600,op-desk000001,enter,1,fund,1719867601,exchange,101,2,12,12,1.000"
        ∷ codes "1719867600,h-mary000001,buy,101,3,12,10.00"
        ∷ codes "1719867600,h-mary000001,cancel,101,4,3"
        ∷ codes "1719867600,op-desk000001,replace,1,fund,1719867600,buy,101,3,11,1.00"
        ∷ codes "1719867600,op-desk000001,replace,1,fund,1719867601,buy,101,3,12,1.00"
        ∷ codes "1719867600,op-desk000001,replace,1,fund,1719867600,buy,101,3,12,1.00"
        ∷ codes "1719867600,op-desk000001,void,1,fund,101,3"
        ∷ []
        ) (
        codes "ok,order,101,1,1719842400,1719864000"
        ∷ codes "no,3,3"
        ∷ codes "no,4"
        ∷ codes "no,4"
        ∷ codes "no,1"
        ∷ codes "no,2,4"
        ∷ codes "ok,order,101,1,1719842400,1719864000"
        ∷ codes "ok,sheet,1"
        ∷ codes "no,6,250.00"
        ∷ codes "no,7"
        ∷ codes "no,8,1719864000"
        ∷ codes "no,6,250.00"
        ∷ codes "no,9,1719867600"
        ∷ codes "no,7"
        ∷ codes "ok,order,101,3,1719867600,1719950400"
        ∷ codes "ok,cancel,101,4,3"
        ∷ codes "no,6,250.00"
        ∷ codes "no,9,1719867600"
        ∷ codes "no,11"
        ∷ codes "no,11"
        ∷ []
        ) }
{}

/// What is absent is told before what stands already: a number that is taken says nothing while the calendar, the
/// household or the dealer beside it is missing.
pub fn absent_before_what_stands()
    ensures { AnswersInJuly (
        codes "1719835200,op-desk000001,class,14,9,3,INDEX-O,0,0,0.01,0.01,0.00:0,"
        ∷ codes "1719835200,op-desk000001,class,14,1,3,INDEX-O,0,0,0.01,0.01,0.00:0,"
        ∷ codes "1719835200,op-desk000001,account,103,9,0,OMAR ROE"
        ∷ codes "1719835200,op-desk000001,account,103,2,9,OMAR ROE"
        ∷ codes "1719835200,op-desk000001,account,103,2,0,OMAR ROE"
        ∷ []
        ) (
        codes "no,3,2"
        ∷ codes "no,14,14"
        ∷ codes "no,3,2"
        ∷ codes "no,3,3"
        ∷ codes "no,14,103"
        ∷ []
        ) }
{}

/// In an account that is full a request is refused first for what it names, for a reference that is used, for its
/// minimum, for what isn't offered, for its receipt and for a cancel that comes late, and only then because it is full.
pub fn told_before_a_full_account()
    ensures { AnswersWithOrders 4096 (
        codes "1719838900,op-desk000001,sellall,101,4097,99"
        ∷ codes "1719838900,op-desk000001,sellall,101,1,11"
        ∷ codes "1719838900,op-desk000001,cancel,101,2,1"
        ∷ codes "1719838900,op-desk000001,buy,101,4097,11,249.99"
        ∷ codes "1719838900,op-desk000001,exchange,101,4097,12,14,1.000"
        ∷ codes "1719838900,op-desk000001,enter,1,fund,1719838901,sellall,101,4097,14"
        ∷ codes "1719838900,op-desk000001,sellall,101,4097,14"
        ∷ codes "1719864000,op-desk000001,cancel,101,4097,1"
        ∷ []
        ) (
        codes "no,3,3"
        ∷ codes "no,4"
        ∷ codes "no,4"
        ∷ codes "no,6,250.00"
        ∷ codes "no,7"
        ∷ codes "no,9,1719838900"
        ∷ codes "no,16,4096"
        ∷ codes "no,10,1719864000"
        ∷ []
        ) }
{}
