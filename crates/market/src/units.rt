//! A price and a VAT rate, each within its range.
ghost use Rattle.std.specs.Prelude.{◌≡◌, Some, None};
ghost use Rattle.market.specs.Units.{PriceRange, VatRange};

/// Whole cents a MWh, from -400,000 to 400,000.
#[derive(Clone, Copy, Drop)]
pub struct Price {
    pub cents: i32,
    ghost ranged: { PriceRange cents },
}

impl Price {
    // An `if` and no `then`, here and wherever a ghost field rests on a test: the closure would not be told the test.
    pub fn new(cents: i32) -> Option<Price>
        ensures holds_the_cents_or_is_out_of_range { elim result [ Some price ↦ price.cents ≡ cents | None ↦ (PriceRange cents → ⊥) ] }
    {
        if cents.unsigned_abs() <= 400_000 {
            Some(Price { cents })
        } else {
            None
        }
    }
}

// Not one generic struct with `Price`: type, limit and invariant all differ, so that it would take three parameters and be no shorter.
/// A VAT rate in whole percent, from 0 to 99.
#[derive(Clone, Copy, Drop)]
pub struct Vat {
    pub percent: u8,
    ghost ranged: { VatRange percent },
}

impl Vat {
    pub fn new(percent: u8) -> Option<Vat>
        ensures holds_the_percent_or_is_out_of_range { elim result [ Some vat ↦ vat.percent ≡ percent | None ↦ (VatRange percent → ⊥) ] }
    {
        if percent <= 99 {
            Some(Vat { percent })
        } else {
            None
        }
    }
}
