//! Laws of trades: what a purchase is made of, and shares that come and go by trades alone.
ghost use Rattle.std.specs.Prelude.{ℕ, All};
ghost use Rattle.register_machine.specs.pricing.CorrectedBook.{Book};
ghost use Rattle.register_machine.specs.replay.Replay.{replay};
ghost use Rattle.register_laws.specs.Trades.{GrossIsWhole, SharesGoByTrades};

/// Every purchase of a replay is that of a standing order on the sheet of its next price. Where it is filled its price, mils and
/// charge are those of the split of the order's gross at the sheet's net asset value and a breakpoint's rate, and proceeds and
/// charge make the gross (Form N-1A: the load is a part of the offering price); where it isn't, it has none of them.
#[tactic(auto, using(crate::proofs::PurchasesDivided::all_whole))]
pub fn proceeds_and_charge_make_the_gross()
    ensures { (book : Book) → All (GrossIsWhole book) (replay book).trades }
{}

/// The outstanding mils of a class are those of its purchases, reinvested dividends and exchanges in, less those of its
/// redemptions, exchanges out and letters settled by date, in every orderly book.
#[tactic(auto, using(crate::proofs::SharesByTrades::shares_go_by_trades))]
pub fn shares_go_by_trades()
    ensures { (book : Book) (class : ℕ) → SharesGoByTrades book class }
{}
