//! Worked scripts of accumulation: what a household holds counts towards the breakpoint of its next purchase.
ghost use Rattle.std.specs.Prelude.{[], ◌∷◌, ◌++◌, codes};
ghost use Rattle.register_worked.specs.WorkedRuns.{AnswersInJuly};

/// What is held counts at the greater of its cost and its value, by the last price before the sheet in execution: a rise
/// since the purchase brings the lower load, a fall doesn't take it away, and the sheet's own price isn't looked at.
pub fn credit_at_value()
    ensures { AnswersInJuly (
        codes "1719843300,h-mary000001,buy,102,1,12,20000.00"
        ∷ codes "1719843300,h-omar000002,buy,103,1,12,24500.00"
        ∷ codes "1719865800,op-desk000001,sheet,1,1719864000,11:20.00 12:10.00 13:15.00 14:50.00"
        ∷ codes "1719927600,h-mary000001,buy,101,1,11,1000.00"
        ∷ codes "1719952200,op-desk000001,sheet,1,1719950400,11:20.40 12:13.00 13:15.00 14:50.10"
        ∷ codes "1720019100,h-mary000001,buy,101,2,11,1000.00"
        ∷ codes "1720019160,h-omar000002,buy,103,2,11,500.00"
        ∷ codes "1720038600,op-desk000001,sheet,1,1720036800,11:20.10 12:9.00 13:15.02 14:50.20"
        ∷ codes "1720195200,h-mary000001,buy,101,3,11,2999.99"
        ∷ codes "1720195260,h-mary000001,buy,101,4,11,50.00"
        ∷ codes "1720211400,op-desk000001,sheet,1,1720209600,11:19.90 12:14.00 13:15.01 14:50.00"
        ∷ codes "1720213200,h-mary000001,trace,101,1"
        ∷ codes "1720213200,h-mary000001,trace,101,2"
        ∷ codes "1720213200,h-mary000001,trace,101,3"
        ∷ codes "1720213200,h-mary000001,trace,101,4"
        ∷ codes "1720213200,h-omar000002,trace,103,2"
        ∷ codes "1720213200,h-mary000001,show,101"
        ∷ []
        ) (
        codes "ok,order,102,1,1719843300,1719864000"
        ∷ codes "ok,order,103,1,1719843300,1719864000"
        ∷ codes "ok,sheet,1"
        ∷ codes "ok,order,101,1,1719927600,1719950400"
        ∷ codes "ok,sheet,2"
        ∷ codes "ok,order,101,2,1720019100,1720036800"
        ∷ codes "ok,order,103,2,1720019160,1720036800"
        ∷ codes "ok,sheet,3"
        ∷ codes "ok,order,101,3,1720195200,1720209600"
        ∷ codes "ok,order,101,4,1720195260,1720209600"
        ∷ codes "ok,sheet,4"
        ∷ codes "ok,trace,101,1,filled,1719927600,1719950400,21.64,46.211,1000.00,57.30,0.000"
        ∷ codes "ok,trace,101,2,filled,1720019100,1720036800,21.16,47.259,1000.00,50.09,0.000"
        ∷ codes "ok,trace,101,3,filled,1720195200,1720209600,21.11,142.112,2999.99,171.96,0.000"
        ∷ codes "ok,trace,101,4,filled,1720195260,1720209600,20.95,2.387,50.00,2.50,0.000"
        ∷ codes "ok,trace,103,2,filled,1720019160,1720036800,21.16,23.629,500.00,25.06,0.000"
        ∷ codes "ok,show,101,11:237.969:0.000:5049.99"
        ∷ []
        ) }
{}

/// Holdings in a class that doesn't count bring no credit, also to a purchase in that class itself, while a purchase
/// there has the credit of the others. Earlier orders of the same sheet count.
pub fn classes_that_count()
    ensures { AnswersInJuly (
        (codes "1719835200,op-desk000001,class,16,1,4,SECTOR-A,0,0,0.01,0.01,0.00:500 "
        ++ codes "10000.00:300 30000.00:0,")
        ∷ codes "1719842400,h-mary000001,buy,101,1,14,60000.00"
        ∷ codes "1719842400,h-mary000001,buy,101,2,16,9000.00"
        ∷ (codes "1719865800,op-desk000001,sheet,1,1719864000,11:20.00 12:10.00 13:15.00 "
        ++ codes "14:50.00 16:8.00")
        ∷ codes "1719928800,h-mary000001,buy,102,1,11,1000.00"
        ∷ codes "1719928860,h-mary000001,buy,102,2,16,9000.00"
        ∷ codes "1719928920,h-mary000001,buy,102,3,13,24000.00"
        ∷ codes "1719928980,h-mary000001,buy,102,4,11,500.00"
        ∷ codes "1719929040,h-mary000001,buy,102,5,16,4500.00"
        ∷ (codes "1719952200,op-desk000001,sheet,1,1719950400,11:20.20 12:10.00 13:15.00 "
        ++ codes "14:80.00 16:8.20")
        ∷ codes "1720015200,h-mary000001,buy,101,3,11,250.00"
        ∷ (codes "1720038600,op-desk000001,sheet,1,1720036800,11:20.30 12:10.10 13:15.10 "
        ++ codes "14:81.00 16:8.30")
        ∷ codes "1720040400,h-mary000001,trace,102,1"
        ∷ codes "1720040400,h-mary000001,trace,102,2"
        ∷ codes "1720040400,h-mary000001,trace,102,4"
        ∷ codes "1720040400,h-mary000001,trace,102,5"
        ∷ codes "1720040400,h-mary000001,trace,101,3"
        ∷ []
        ) (
        codes "ok,class,16"
        ∷ codes "ok,order,101,1,1719842400,1719864000"
        ∷ codes "ok,order,101,2,1719842400,1719864000"
        ∷ codes "ok,sheet,1"
        ∷ codes "ok,order,102,1,1719928800,1719950400"
        ∷ codes "ok,order,102,2,1719928860,1719950400"
        ∷ codes "ok,order,102,3,1719928920,1719950400"
        ∷ codes "ok,order,102,4,1719928980,1719950400"
        ∷ codes "ok,order,102,5,1719929040,1719950400"
        ∷ codes "ok,sheet,2"
        ∷ codes "ok,order,101,3,1720015200,1720036800"
        ∷ codes "ok,sheet,3"
        ∷ codes "ok,trace,102,1,filled,1719928800,1719950400,21.43,46.664,1000.00,57.39,0.000"
        ∷ codes "ok,trace,102,2,filled,1719928860,1719950400,8.45,1065.089,9000.00,266.27,0.000"
        ∷ codes "ok,trace,102,4,filled,1719928980,1719950400,21.26,23.518,500.00,24.94,0.000"
        ∷ codes "ok,trace,102,5,filled,1719929040,1719950400,8.20,548.780,4500.00,0.00,0.000"
        ∷ codes "ok,trace,101,3,filled,1720015200,1720036800,21.37,11.699,250.00,12.51,0.000"
        ∷ []
        ) }
{}

/// Shares that a letter holds count at their value as the loose ones do.
pub fn held_shares_count()
    ensures { AnswersInJuly (
        codes "1719842400,h-mary000001,letter,101,1,11,50000.00"
        ∷ codes "1719842460,h-mary000001,buy,101,2,11,30000.00"
        ∷ codes "1719865800,op-desk000001,sheet,1,1719864000,11:10.00 12:10.00 13:15.00 14:50.00"
        ∷ codes "1719867600,h-mary000001,show,101"
        ∷ codes "1719952200,op-desk000001,sheet,1,1719950400,11:18.00 12:10.00 13:15.00 14:50.00"
        ∷ codes "1720015200,h-mary000001,buy,102,1,11,250.00"
        ∷ codes "1720038600,op-desk000001,sheet,1,1720036800,11:18.00 12:10.00 13:15.00 14:50.00"
        ∷ codes "1720040400,h-mary000001,trace,102,1"
        ∷ []
        ) (
        codes "ok,order,101,1,1719842400,1719864000"
        ∷ codes "ok,order,101,2,1719842460,1719864000"
        ∷ codes "ok,sheet,1"
        ∷ codes "ok,show,101,11:2626.552:238.778:30000.00"
        ∷ codes "ok,sheet,2"
        ∷ codes "ok,order,102,1,1720015200,1720036800"
        ∷ codes "ok,sheet,3"
        ∷ codes "ok,trace,102,1,filled,1720015200,1720036800,18.85,13.263,250.00,11.27,0.000"
        ∷ []
        ) }
{}
