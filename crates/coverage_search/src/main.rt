//! Compares the capacity with an exhaustive search for an allocation, on every position of two guarantees, a credit and two debts of small amounts.
#![tactic(auto)]

use coverage::{Credit, Debt, Guarantee, Position};
use std::io;

/// 9 guarantees twice, 6 credits, and 18 debts twice.
const POSITIONS: u32 = 157_464;

const FIRST_DAY: u32 = 0;

const TODAY: u32 = 2;

/// How many grains a source can give to each of the two debts: none, one or two.
const SHARES: [[u8; 2]; 9] = [
    [0, 0],
    [1, 0],
    [2, 0],
    [0, 1],
    [1, 1],
    [2, 1],
    [0, 2],
    [1, 2],
    [2, 2],
];

/// A guarantee or a credit.
trait Source {
    /// How many grains it has to give.
    fn grains(&self) -> u64;

    /// Whether it may give them to this debt.
    fn may_meet(&self, debt: &Debt) -> bool;
}

impl Source for Guarantee {
    fn grains(&self) -> u64 {
        self.worth
    }

    fn may_meet(&self, debt: &Debt) -> bool {
        self.is_valid_on(debt.day)
    }
}

impl Source for Credit {
    fn grains(&self) -> u64 {
        self.grains
    }

    fn may_meet(&self, debt: &Debt) -> bool {
        self.period == debt.period
    }
}

/// A position of two guarantees, one credit and two debts.
#[derive(Drop)]
struct Case {
    guarantees: [Guarantee; 2],
    credits: [Credit; 1],
    debts: [Debt; 2],
}

impl Case {
    fn numbered(n: u32) -> Case {
        Case {
            guarantees: [guarantee(n % 9), guarantee(n / 9 % 9)],
            credits: [credit(n / 81 % 6)],
            debts: [debt(n / 486 % 18), debt(n / 8748 % 18)],
        }
    }

    /// Whether the capacity is not below 0.
    fn has_capacity(&self) -> bool {
        let position = Position {
            debts: &self.debts,
            credits: &self.credits,
            guarantees: &self.guarantees,
            first_day: FIRST_DAY,
            today: TODAY,
        };
        position.capacity().is_some_and(|capacity| capacity >= 0)
    }

    /// Whether some shares of the three sources meet the two debts, by trying all.
    fn some_allocation_covers(&self) -> bool {
        let [first, second] = &self.guarantees;
        let [credit] = &self.credits;
        SHARES.iter().any(|a| {
            self.may_give(first, a)
                && SHARES.iter().any(|b| {
                    self.may_give(second, b)
                        && SHARES
                            .iter()
                            .any(|c| self.may_give(credit, c) && self.is_met_by(a, b, c))
                })
        })
    }

    /// Whether a source has this share to give, and may give it to these debts.
    fn may_give<S: Source>(&self, source: &S, share: &[u8; 2]) -> bool {
        share.iter().map(|grains| u64::from(*grains)).sum::<u64>() <= source.grains()
            && share
                .iter()
                .zip(&self.debts)
                .all(|(grains, debt)| *grains == 0 || source.may_meet(debt))
    }

    /// Whether three shares come to each debt's grains.
    fn is_met_by(&self, a: &[u8; 2], b: &[u8; 2], c: &[u8; 2]) -> bool {
        self.debts.iter().zip(a).zip(b).zip(c).all(|(((debt, a), b), c)| {
            u64::from(*a) + u64::from(*b) + u64::from(*c) == debt.grains
        })
    }
}

/// Valid to day 0, to day 1 or without last day, and worth 0, 1 or 2.
fn guarantee(n: u32) -> Guarantee {
    let last = match n / 3 % 3 {
        0 => Some(0),
        1 => Some(1),
        _ => None,
    };
    Guarantee {
        last,
        worth: u64::from(n % 3),
    }
}

/// Of period 0 or 1, and 0, 1 or 2 grains.
fn credit(n: u32) -> Credit {
    Credit {
        period: n / 3 % 2,
        grains: u64::from(n % 3),
    }
}

/// Of day 0, 1 or 2 and period 0 or 1, and 0, 1 or 2 grains.
fn debt(n: u32) -> Debt {
    Debt {
        day: n / 6 % 3,
        period: n / 3 % 2,
        grains: u64::from(n % 3),
    }
}

fn main(rt: HostRuntime) -> io::Result<()> {
    // One pass for both counts: the search is the long part, and so the positions that are compared are those that are counted.
    let (covered, differing) = (0..POSITIONS)
        .map(Case::numbered)
        .fold((0u32, 0u32), |(covered, differing), case| {
            let covers = case.some_allocation_covers();
            let differs = covers != case.has_capacity();
            (
                covered.saturating_add(u32::from(covers)),
                differing.saturating_add(u32::from(differs)),
            )
        });
    println!(rt;
        "{POSITIONS} positions, {covered} with an allocation that covers, {differing} where the capacity says otherwise"
    )
}
