//! Worked scripts of calendars and sheets, as laws.
ghost use Rattle.std.specs.Prelude.{[], ◌++◌, ◌∷◌, codes};
ghost use Rattle.register_worked.specs.WorkedRuns.{Answers, AnswersAlone, AnswersInJuly, sheet_answers, sheet_lines};

/// Sheets are published in turn, complete and not before their moment.
pub fn sheets_in_turn()
    ensures { AnswersAlone sheet_lines sheet_answers }
{}

/// A Saturday is no pricing day, a day with its sheet stays open, and an order passes over a day that was closed.
pub fn closures()
    ensures { AnswersAlone (
        sheet_lines
        ++ (codes "1719867700,op-desk000001,close,1,2024-07-06"
        ∷ codes "1719867700,op-desk000001,close,1,2024-07-01"
        ∷ codes "1719867700,op-desk000001,close,1,2024-07-02"
        ∷ codes "1719867800,op-desk000001,buy,101,1,14,100.00"
        ∷ [])
        ) (
        sheet_answers
        ++ (codes "no,3,2"
        ∷ codes "no,14,1"
        ∷ codes "ok,close,1,2024-07-02"
        ∷ codes "ok,order,101,1,1719867800,1720036800"
        ∷ [])
        ) }
{}

/// The empty script has no lines.
pub fn empty_run()
    ensures { AnswersAlone [] [] }
{}

/// The preamble.
pub fn preamble()
    ensures { Answers [] [] }
{}

/// An order that was due on a day that is closed is due on the next one, may be cancelled up to it and is priced by its
/// sheet, which is expected then; its first reply is repeated as it was.
pub fn order_of_a_closed_day()
    ensures { AnswersInJuly (
        codes "1719842400,h-mary000001,buy,102,1,14,100.00"
        ∷ codes "1719865800,op-desk000001,sheet,1,1719864000,11:20.00 12:10.00 13:15.00 14:50.00"
        ∷ codes "1719867600,h-mary000001,buy,101,1,14,100.00"
        ∷ codes "1719867600,h-mary000001,buy,101,2,14,200.00"
        ∷ codes "1719867600,op-desk000001,close,1,2024-07-02"
        ∷ codes "1719867660,h-mary000001,trace,101,1"
        ∷ codes "1719867660,h-mary000001,buy,101,1,14,100.00"
        ∷ codes "1719952200,op-desk000001,sheet,1,1719950400,11:20.00 12:10.00 13:15.00 14:50.00"
        ∷ codes "1719952200,h-mary000001,cancel,101,3,2"
        ∷ codes "1720038600,op-desk000001,sheet,1,1720036800,11:20.00 12:10.00 13:15.00 14:40.00"
        ∷ codes "1720040400,h-mary000001,trace,101,1"
        ∷ codes "1720040400,h-mary000001,show,101"
        ∷ []
        ) (
        codes "ok,order,102,1,1719842400,1719864000"
        ∷ codes "ok,sheet,1"
        ∷ codes "ok,order,101,1,1719867600,1719950400"
        ∷ codes "ok,order,101,2,1719867600,1719950400"
        ∷ codes "ok,close,1,2024-07-02"
        ∷ codes "ok,trace,101,1,pending,1719867600,1720036800,0.00,0.000,0.00,0.00,0.000"
        ∷ codes "ok,order,101,1,1719867600,1719950400"
        ∷ codes "no,12,1720036800,1"
        ∷ codes "ok,cancel,101,3,2"
        ∷ codes "ok,sheet,2"
        ∷ codes "ok,trace,101,1,filled,1719867600,1720036800,40.00,2.500,100.00,0.00,0.000"
        ∷ codes "ok,show,101,14:2.500:0.000:100.00"
        ∷ []
        ) }
{}
