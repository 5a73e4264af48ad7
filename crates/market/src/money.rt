//! Values of energy, and what they come to in grains.
ghost use Rattle.std.specs.Prelude.{◌≡◌, ◌*◌, ◌≤◌, pos, ◌*ℤ◌, unsigned_abs};
ghost use Rattle.market.specs.Units.{grains};

use crate::{Price, Vat};

// what a cell is worth without VAT
#[derive(Clone, Copy, Drop)]
pub(crate) struct CellValue {
    pub(crate) value: i64,
    ghost ranged: { unsigned_abs value ≤ 80000000000000 },
}

impl CellValue {
    pub(crate) fn with_vat(self, vat: Vat) -> i64
        ensures is_in_grains { result ≡ grains vat.percent self.value }
    {
        self.value * i64::from(100 + vat.percent)
    }
}

// the value of so many kWh at that price
pub(crate) fn value_of(kwh: u32, price: Price) -> i64
    requires energy_of_a_cell { kwh ≤ 100000000 }
    ensures is_kwh_times_price { result ≡ price.cents *ℤ pos kwh }
    ensures is_in_range { unsigned_abs result ≤ kwh * 400000 }
{
    i64::from(price.cents) * i64::from(kwh)
}
