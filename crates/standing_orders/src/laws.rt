//! Laws for those who keep the index beside a journal: what keeps it enough.
ghost use Rattle.std.specs.Prelude.{Bool, List, ℕ};
ghost use Rattle.agent_events.specs.declared.order.OrderRow.{OrderRow as Row};
ghost use Rattle.agent_events.specs.declared.request.AccountForm.{AccountForm as Form};
ghost use Rattle.forward_price.specs.declared.price_sheet.Sheet.{Sheet};
ghost use Rattle.standing_orders.specs.WaitingLaws.{AllLeftWait, AllSettledWait, AnotherWaits, LastLeaves, LastTakes, OneIsSettled, OneMoreOwned, OneMoreWaits, OthersLeave, OwnedWhenChanged, OwnedWithAccount, PricedAfterWaiting, StillWaits};

/// The households stay those of the rows with an order more, with an account more, and where orders keep their accounts.
#[tactic(auto, using(crate::proofs::WaitingKept::one_more_owned, crate::proofs::WaitingKept::owned_with_account, crate::proofs::WaitingKept::owned_when_changed))]
pub fn households_are_kept()
    ensures order { (accounts : List Form) (rows : List Row) (owners : List ℕ)
        → (row : Row) (household : ℕ) → OneMoreOwned accounts rows owners row household }
    ensures account { (accounts : List Form) (rows : List Row) (owners : List ℕ) (form : Form)
        → OwnedWithAccount accounts rows owners form }
    ensures change { (accounts : List Form) (rows : List Row) (owners : List ℕ) (change : Row → Row)
        → OwnedWhenChanged accounts rows owners change }
{}

/// Every order that waits stays among the waiting with an order more, with another that waits again, where what passes passed
/// before, where the others leave, and where one is settled.
#[tactic(auto, using(crate::proofs::WaitingKept::still_waits, crate::proofs::WaitingKept::others_leave, crate::proofs::WaitingKept::one_is_settled))]
pub fn waiting_orders_are_kept()
    ensures order { (test : Row → Bool) (rows : List Row) (places : List ℕ) (row : Row)
        → OneMoreWaits test rows places row }
    ensures another { (test : Row → Bool) (rows changed : List Row) (places : List ℕ) (place : ℕ)
        → AnotherWaits test rows changed places place }
    ensures still { (test now : Row → Bool) (rows changed : List Row) (places : List ℕ)
        → StillWaits test now rows changed places }
    ensures leave { (test : Row → Bool) (rows : List Row) (places : List ℕ)
        → OthersLeave test rows places }
    ensures settled { (test : Row → Bool) (rows : List Row) (places : List ℕ) (place : ℕ)
        → OneIsSettled test rows places place }
{}

/// What a sheet prices that is published behind the others has waited until then, where no sheet before that prices it is later.
#[tactic(auto, using(crate::proofs::PricedLast::priced_after_waiting))]
pub fn priced_orders_have_waited()
    ensures { (sheets : List Sheet) (last : Sheet) (row : Row)
        → PricedAfterWaiting sheets last row }
{}

/// Where every order that waits waits for the last sheet, that sheet takes what it prices, and those that stay are those that
/// wait on; what is left by the test of all sheets all waits, and so do all where the others waited before one was settled.
pub fn last_sheet_takes_what_waits()
    ensures takes { (rows : List Row) (sheets : List Sheet) (last : Sheet) (places : List ℕ)
        → LastTakes rows sheets last places }
    ensures leaves { (rows : List Row) (sheets : List Sheet) (last : Sheet) (places : List ℕ)
        → LastLeaves rows sheets last places }
    ensures left { (sheets : List Sheet) (rows : List Row) (places : List ℕ)
        → AllLeftWait sheets rows places }
    ensures settled { (sheets : List Sheet) (rows : List Row) (place : ℕ) (places : List ℕ)
        → AllSettledWait sheets rows place places }
{}
