//! Worked batches, and the limit on an account's orders, as laws.
ghost use Rattle.std.specs.Prelude.{◌≡◌, [], ◌∷◌, ◌++◌, codes, Some, None};
ghost use Rattle.agent_events.specs.declared.reply.Refusal.{Refusal};
ghost use Rattle.agent_events.specs.declared.reply.Refusal.TheVariants as Refusal;
ghost use Rattle.register_machine.specs.rules.Limits.{orders_full};
ghost use Rattle.register_worked.specs.WorkedRuns.{AnswersWithOrders, BatchAnswers, first_sheet, quoted_record, record_line, short_records, with_cancels, order_of};

/// A dealer's batch of five lines, the first of them in quotes: each is answered in turn.
pub fn batch_of_a_dealer()
    ensures { BatchAnswers (first_sheet ∷ []) 1719964800 (codes "d-broker00005") (
        quoted_record (
        codes "1719950399" ∷ codes "buy" ∷ codes "103"
        ∷ codes "1" ∷ codes "14" ∷ codes "1000.00" ∷ []
        )
        ++ record_line (codes "1719950400,buy,103,2,14,1000.00")
        ++ record_line (codes "1719863999,buy,103,3,14,1000.00")
        ++ record_line (codes "1719950000,buy,101,9,14,1000.00")
        ++ record_line (codes "1719950000,buy,103,9")
        ) (
        codes "ok,order,103,1,1719950399,1719950400"
        ∷ codes "ok,order,103,2,1719950400,1720036800"
        ∷ codes "no,8,1719864000"
        ∷ codes "no,1"
        ∷ codes "no,2,0"
        ∷ []
        ) }
{}

/// A line of a batch sees the lines before it.
pub fn batch_with_a_repeat()
    ensures { BatchAnswers [] 1719838800 (codes "d-broker00005") (
        record_line (codes "1719838000,buy,103,1,14,1000.00")
        ++ record_line (codes "1719838000,buy,103,1,14,1000.00")
        ++ record_line (codes "1719838000,buy,103,1,14,2000.00")
        ) (
        codes "ok,order,103,1,1719838000,1719864000"
        ∷ codes "ok,order,103,1,1719838000,1719864000"
        ∷ codes "no,4"
        ∷ []
        ) }
{}

/// Nobody but a dealer sends a batch: a household doesn't, the operator doesn't, and a stranger doesn't.
pub fn batches_of_others()
    ensures household { BatchAnswers [] 1719838800 (codes "h-mary000001")
        (record_line (codes "1719838000,buy,101,1,14,1000.00")) (
        codes "no,1" ∷ []
        ) }
    ensures operator { BatchAnswers [] 1719838800 (codes "op-desk000001")
        (record_line (codes "1719838000,buy,101,1,14,1000.00")) (
        codes "no,1" ∷ []
        ) }
    ensures stranger { BatchAnswers [] 1719838800 (codes "d-nobody00000")
        (record_line (codes "1719838000,buy,103,1,14,1000.00")) (
        codes "no,1" ∷ []
        ) }
{}

/// An empty batch of a dealer has no lines.
pub fn empty_batch()
    ensures { BatchAnswers [] 1719838800 (codes "d-broker00005") [] [] }
{}

/// With 4,096 orders and cancels an account is full, and another isn't.
pub fn full_account()
    ensures full { orders_full (with_cancels 4096) (order_of 101) ≡ Some (Refusal.OrdersFull 4096) }
    ensures other { orders_full (with_cancels 4096) (order_of 103) ≡ None }
    ensures room { orders_full (with_cancels 4095) (order_of 101) ≡ None }
{}

/// The 4,096th order of an account is taken and the 4,097th isn't, nor is a cancel. A repeat gets its first reply all the
/// same, and another account has room.
pub fn order_past_the_limit()
    ensures { AnswersWithOrders 4095 (
        codes "1719838900,op-desk000001,sellall,101,4096,14"
        ∷ codes "1719838900,op-desk000001,sellall,101,4097,14"
        ∷ codes "1719838900,op-desk000001,cancel,101,4097,1"
        ∷ codes "1719838900,op-desk000001,sellall,101,1,14"
        ∷ codes "1719838900,op-desk000001,sellall,102,1,14"
        ∷ []
        ) (
        codes "ok,order,101,4096,1719838900,1719864000"
        ∷ codes "no,16,4096"
        ∷ codes "no,16,4096"
        ∷ codes "ok,order,101,1,1719838800,1719864000"
        ∷ codes "ok,order,102,1,1719838900,1719864000"
        ∷ []
        ) }
{}

/// A batch has 4,096 lines at most. One more and it is no batch, which is told before any right is looked at.
pub fn batch_that_is_too_long()
    ensures dealer { BatchAnswers [] 1719838800 (codes "d-broker00005") (short_records 4097) (
        codes "no,2,0" ∷ []
        ) }
    ensures stranger { BatchAnswers [] 1719838800 (codes "d-nobody00000") (short_records 4097) (
        codes "no,2,0" ∷ []
        ) }
    ensures longest { BatchAnswers [] 1719838800 (codes "d-nobody00000") (short_records 4096) (
        codes "no,1" ∷ []
        ) }
{}
