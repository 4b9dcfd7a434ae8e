//! The law of prices: what each kind of trade has on its sheet.
ghost use Rattle.register_machine.specs.pricing.CorrectedBook.{Book};
ghost use Rattle.limit_laws.specs.TradePrices.{TradesHaveTheirPrices};

/// Every trade of a replay is of a published sheet and has the price of its kind there: a purchase the offering price at the rate
/// of a breakpoint that its gross or more reaches; a redemption, an exchange, a letter that ends by date and a dividend that is
/// reinvested the net asset value; a letter that begins or is reached, an election, a dividend in cash and whatever is unfilled
/// none.
#[tactic(auto, using(crate::proofs::PricedByKind::trades_have_their_prices))]
pub fn trades_have_their_prices()
    ensures { (book : Book) → TradesHaveTheirPrices book }
{}
