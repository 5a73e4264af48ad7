//! The worked figures as the code computes them.
use crate::{
    Amounts, Figures, Market, MarketRule, Mpeg, OpenCell, Order, Pce, Price, Proposal, Side, Vat,
    Xbid,
};

fn proposal(side: Side, kwh: u32, limit: i32) -> Proposal<u32> {
    Proposal {
        order: Order {
            participant: 7,
            day: 1,
            side,
            limit,
            kwh,
        },
        details: 0,
    }
}

fn exposure(
    market: Market,
    percent: u8,
    bought: Amounts,
    proposals: &[Proposal<u32>],
) -> Option<i64> {
    let figures = Figures::new(bought)?;
    let vat = Vat::new(percent)?;
    let _room = figures.room_beside(7, 1, proposals)?;
    let cell = OpenCell {
        participant: 7,
        day: 1,
        figures,
        proposals,
    };
    Some(market.exposure(&cell, vat))
}

#[test]
fn exposures(rt: HostRuntime) {
    let none = Amounts {
        bought: 0,
        paid: 0,
        sold: 0,
        earned: 0,
    };
    let some = Amounts {
        bought: 2_000,
        paid: 17_000_000,
        sold: 0,
        earned: 0,
    };
    let xbid = Market::Xbid(Xbid {
        reference: Price { cents: 6_000 },
    });
    let mpeg = Market::Mpeg(Mpeg {
        reference: Price { cents: 6_000 },
    });
    let pce = Market::Pce(Pce {
        reference: Price { cents: 250 },
    });
    let pair = [
        proposal(Side::Buy, 1_000, 100),
        proposal(Side::Sell, 1_000, -6_500),
    ];
    let uneven = [
        proposal(Side::Buy, 3_000, 1),
        proposal(Side::Sell, 1_000, 1),
    ];
    assert_eq!(rt;
        exposure(xbid, 0, some, &[proposal(Side::Buy, 3_000, 9_000)]),
        Some(-4_400_000_000)
    );
    assert_eq!(rt; exposure(xbid, 0, none, &pair), Some(-660_000_000));
    assert_eq!(rt; exposure(mpeg, 0, none, &pair), Some(-610_000_000));
    assert_eq!(rt; exposure(pce, 22, none, &uneven), Some(-61_000_000));
}
