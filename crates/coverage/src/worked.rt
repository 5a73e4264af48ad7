//! Two worked figures, each worked out by the functions and stated of the definitions.
ghost use Rattle.std.specs.Prelude.{◌≡◌, pos, negsuc, Some};
ghost use Rattle.coverage.specs.Figures.{EndsTooEarly, CreditForTheLater};

use crate::position::Position;
use crate::rows::{Credit, Debt, Guarantee};

/// Guarantees of 5 grains to day 1 and of 5 without last day, and a debt of 6 on day 2: a guarantee that ends too early does not count.
pub fn guarantee_that_ends_too_early() -> Option<i64>
    ensures lacks_one { result ≡ Some (negsuc 0) }
    ensures one_sum_would_be_wrong { EndsTooEarly }
{
    let position = Position {
        debts: &[Debt {
            day: 2,
            period: 0,
            grains: 6,
        }],
        credits: &[],
        guarantees: &[
            Guarantee {
                last: Some(1),
                worth: 5,
            },
            Guarantee {
                last: None,
                worth: 5,
            },
        ],
        first_day: 0,
        today: 2,
    };
    position.capacity()
}

// A function of its own, since it states other theorems of other rows: one for both would take all of these as arguments.
/// A credit of 2, debts of 2 on day 1 and of 2 on day 2 in its period, and a guarantee of 2 to day 1: the credit has to go to the later debt.
pub fn credit_for_the_later_debt() -> Option<i64>
    ensures nothing_left_and_nothing_lacking { result ≡ Some (pos 0) }
    ensures credit_for_the_earlier_would_fail { CreditForTheLater }
{
    let position = Position {
        debts: &[
            Debt {
                day: 1,
                period: 0,
                grains: 2,
            },
            Debt {
                day: 2,
                period: 0,
                grains: 2,
            },
        ],
        credits: &[Credit {
            period: 0,
            grains: 2,
        }],
        guarantees: &[Guarantee {
            last: Some(1),
            worth: 2,
        }],
        first_day: 0,
        today: 2,
    };
    position.capacity()
}
