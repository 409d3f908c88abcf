//! A period of a tariff.
use units::Plain;

/// A period of a tariff: from an hour of the UTC day to the next listed one, and the prices in it (this product's own).
#[derive(Clone, Copy, PartialEq, Eq, Debug)]
pub struct Period {
    /// The hour of the UTC day at which it begins, 0 to 23.
    pub hour: u32,
    /// The price of an octet up, in grains (10^-12 of a currency unit), at most 2^32.
    pub up: u64,
    /// The price of an octet down, in grains, at most 2^32.
    pub down: u64,
    /// The price of a second, in grains, at most 2^32.
    pub seconds: u64,
}

impl Plain for Period {
    ghost use Rattle.std.proofs.Common.{rules};

    ghost copies = { Prim.search rules };

    ghost decides = { Prim.search rules };
}
