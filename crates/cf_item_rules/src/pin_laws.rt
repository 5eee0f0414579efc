//! That plans can be carried out.

ghost use Rattle.std.specs.Prelude.{All, List};
ghost use Rattle.cf_base.specs.declared.items.Pin.{Pin};
ghost use Rattle.cf_base.specs.declared.items.Reach.{Reach};
ghost use Rattle.cf_model.specs.Items.{Item};
ghost use Rattle.cf_model.specs.Plans.{plan_pin};
ghost use Rattle.cf_table.specs.Changing.{Fits};
ghost use Rattle.cf_table.specs.declared.rows.Row.{Row};

/// Each change of a plan fits any rows, so also those that the changes before it leave.
#[tactic(auto, using(crate::proofs::PinsFit::pins_fit))]
pub fn pins_fit()
    ensures { (items : List Item) (i : Item) (state : Pin) (reach : Reach) (rows : List Row) → All (λ c. Fits c rows) (plan_pin items i state reach) }
{}
