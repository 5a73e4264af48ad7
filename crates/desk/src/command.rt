//! The commands that lines give.

ghost use Rattle.desk.specs.Commands.{Follows, Names, market_of};

use market::{Market, Mpeg, Pce, Price, Xbid};
use records::{Call, Terms};
use wire::Form;

/// The market that a line names for its book.
#[derive(Clone, Copy)]
pub enum MarketName {
    /// MI-XBID, the letter X.
    Xbid,
    /// MPEG, the letter M.
    Mpeg,
    /// PCE, the letter P.
    Pce,
}

/// What a line asks for: to open the book, or a call of the open book.
#[derive(Clone, Copy)]
pub enum Command {
    Open { market: MarketName, terms: Terms },
    Perform(Call),
}

/// The rule of the market, at a reference price of 0 until one is published.
impl From<MarketName> for Market {
    ghost from_gives = { λ name rule. Follows name rule };

    fn from(name: MarketName) -> Market {
        let reference = Price { cents: 0 };
        match name {
            MarketName::Xbid => Market::Xbid(Xbid { reference }),
            MarketName::Mpeg => Market::Mpeg(Mpeg { reference }),
            MarketName::Pce => Market::Pce(Pce { reference }),
        }
    }
}

/// The letter of a market, alone in its field.
impl Form for MarketName {
    ghost value_of = { market_of };

    ghost IsWriting = { Names };

    fn read(bytes: &[u8]) -> Option<MarketName> {
        match bytes {
            [b'X'] => Some(MarketName::Xbid),
            [b'M'] => Some(MarketName::Mpeg),
            [b'P'] => Some(MarketName::Pce),
            _ => None,
        }
    }
}
