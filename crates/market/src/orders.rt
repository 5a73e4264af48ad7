//! Orders on the exchange, and the proposals of a book that hold them.
ghost use Rattle.std.specs.Prelude.{◌≡◌};
ghost use Rattle.market.specs.Orders.{belongs};

#[derive(Clone, Copy, PartialEq, Eq, Drop)]
pub enum Side {
    Buy,
    Sell,
}

/// What a market rule has to know of a proposal.
#[derive(Clone, Copy, Drop)]
pub struct Order {
    pub participant: u32,
    /// The flow day, on which the energy is delivered.
    pub day: u32,
    pub side: Side,
    /// The limit price: the highest of a purchase, the lowest of a sale.
    pub limit: i32,
    /// The energy that is still open.
    pub kwh: u32,
}

impl Order {
    /// Whether the order has energy open in the cell of this participant and flow day.
    pub fn is_open_in(&self, participant: u32, day: u32) -> bool
        ensures is_the_test { result ≡ belongs participant day self.now }
    {
        self.participant == participant && self.day == day && self.kwh > 0
    }
}

/// An order, with the details that its keeper notes beside it. No market rule looks at those.
#[derive(Clone, Copy, Drop)]
pub struct Proposal<D> {
    pub order: Order,
    pub details: D,
}
