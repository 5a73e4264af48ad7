//! The worked figures of the rules, all together, from the definitions.
#![tactic(auto)]

ghost use Rattle.std.specs.Prelude.{◌≡◌, [], ◌∷◌, ℤ, pos, neg_ℤ, ◌*ℤ◌};
ghost use Rattle.market.specs.declared.orders.Side.TheVariants.{Buy};
ghost use Rattle.market.specs.Outcomes.{traded, nothing_traded};
ghost use Rattle.market.specs.Rules.{xbid_valuation, mpeg_valuation, pce_valuation};
ghost use Rattle.coverage.specs.Figures.{EndsTooEarly, CreditForTheLater};
ghost use Rattle.records.specs.Rows.{worth};
ghost use Rattle.worked.specs.Orders.{purchase, sale};

use coverage::{credit_for_the_later_debt, guarantee_that_ends_too_early};

/// Each clause is one worked figure, in grains. The VAT is 0 percent, in the PCE figure 22.
pub fn worked_figures()
    ensures guarantee_of_100000_cents_at_margin_3_and_share_500 { worth 3 500 100000 ≡ 4850000000 }
    ensures xbid_with_a_purchase { xbid_valuation.exposure 0 nothing_traded (purchase 5000 (pos 9000) ∷ []) ≡ neg_ℤ (pos 4500000000) }
    ensures xbid_with_2000_of_it_filled { xbid_valuation.exposure 0 (traded Buy 2000 (pos 8500 *ℤ pos 2000) nothing_traded) (purchase 3000 (pos 9000) ∷ []) ≡ neg_ℤ (pos 4400000000) }
    ensures xbid_with_both_sides { xbid_valuation.exposure 0 nothing_traded (purchase 1000 (pos 100) ∷ sale 1000 (neg_ℤ (pos 6500)) ∷ []) ≡ neg_ℤ (pos 660000000) }
    ensures mpeg_with_not_both_sides { (mpeg_valuation (pos 6000)).exposure 0 nothing_traded (purchase 1000 (pos 100) ∷ sale 1000 (neg_ℤ (pos 6500)) ∷ []) ≡ neg_ℤ (pos 610000000) }
    ensures pce_at_any_limits { (high low : ℤ) → (pce_valuation (pos 250)).exposure 22 nothing_traded (purchase 3000 high ∷ sale 1000 low ∷ []) ≡ neg_ℤ (pos 61000000) }
    ensures guarantees_are_not_one_sum { EndsTooEarly }
    ensures credit_goes_to_the_later_debt { CreditForTheLater }
{
    let _ = guarantee_that_ends_too_early();
    let _ = credit_for_the_later_debt();
}
