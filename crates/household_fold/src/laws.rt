//! Laws of a step, for those who call it.
ghost use Rattle.std.specs.Prelude.{◌≡◌, List, map};
ghost use Rattle.agent_events.specs.declared.order.OrderRow.{OrderRow};
ghost use Rattle.forward_price.specs.declared.price_sheet.Sheet.{Sheet};
ghost use Rattle.register_machine.specs.pricing.CorrectedBook.{Book};
ghost use Rattle.register_machine.specs.replay.DayStep.{day_step};
ghost use Rattle.register_machine.specs.replay.Trades.{Day};
ghost use Rattle.household_fold.specs.Households.{orders_of, row_of};

/// Of the rows of its orders a step reads the orders alone, in their turn.
pub fn a_step_reads_orders_alone()
    ensures { (book : Book) (sheet : Sheet) (rows : List OrderRow) (day : Day)
        → day_step book sheet (map row_of (orders_of rows)) day ≡ day_step book sheet rows day }
{}
