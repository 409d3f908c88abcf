//! What a rating group is granted.
ghost use Rattle.std.specs.Prelude.{◌≡◌};
ghost use Rattle.rating.specs.Grant.{no_quota, quota, units_of, wish_of};

use units::{Code, Plain};

/// What a rating group is granted (multiple unit information: TS 32.291, 6.1.6.2.1.8; the reserve is this product's own).
#[derive(Clone, Copy, PartialEq, Eq, Debug)]
pub struct Grant {
    /// SUCCESS, or why there is no quota.
    pub code: Code,
    /// The units granted: octets or seconds, by the group's kind.
    pub units: u64,
    /// What is set aside for them, in grains.
    pub reserve: u128,
    /// Whether these are the final units: fewer than were wished for.
    pub is_final: bool,
}

/// No quota, for that reason.
pub fn no_quota(code: Code) -> Grant
    ensures { result ≡ no_quota code }
{
    Grant {
        code,
        units: 0,
        reserve: 0,
        is_final: false,
    }
}

/// The wish: the lesser of the chunk and the amount asked, where one above 0 is asked.
pub fn wish_of(chunk: u64, asked: Option<u64>) -> u64
    ensures { result ≡ wish_of chunk asked }
{
    match asked {
        Some(amount) if amount > 0 => chunk.min(amount),
        _ => chunk,
    }
}

// The units that a wish gets.
fn units_of(wish: u64, top: u64, free: u128) -> u64
    ensures { result ≡ units_of wish top free }
{
    if top == 0 {
        wish
    } else {
        u128::from(wish).min(free / u128::from(top)) as u64
    }
}

/// The quota at a wish and a top price, out of free money.
pub fn quota(wish: u64, top: u64, free: u128) -> Grant
    ensures { result ≡ quota wish top free }
{
    let units = units_of(wish, top, free);
    Grant {
        code: if units == 0 {
            Code::LimitReached
        } else {
            Code::Success
        },
        units,
        reserve: u128::from(units) * u128::from(top),
        is_final: units < wish,
    }
}

impl Plain for Grant {
    ghost use Rattle.std.proofs.Common.{rules};

    ghost copies = { Prim.search rules };

    ghost decides = { Prim.search rules };
}
