//! The numbers that numerals stand for.
ghost use Rattle.std.specs.Prelude.{◌≡◌, ◌<◌, ◌≤◌, ◌+◌, ◌-◌, ◌*◌, ◌^◌};
ghost use Rattle.std.specs.Option.{SomeIff};
ghost use Rattle.rows.specs.Number.{number_of};

use crate::digits::spells_number;

// The number with one more digit, where it fits.
fn with_digit(value: u64, digit: u8) -> Option<u64>
    requires low { 48 ≤ digit }
    requires high { digit ≤ 57 }
    ensures { SomeIff result (value * 10 + (digit - 48) < 2 ^ 64) (value * 10 + (digit - 48)) }
{
    value.checked_mul(10)?.checked_add(u64::from(digit - b'0'))
}

/// The number that a text stands for, where it is a numeral of at most `most`; it takes no memory.
pub fn number(most: u64, text: &[u8]) -> Option<u64>
    ensures { result ≡ number_of most text.now }
{
    if !spells_number(text) {
        return None;
    }
    let mut value = 0u64;
    for byte in text {
        match with_digit(value, *byte) {
            Some(more) => value = more,
            None => return None,
        }
    }
    if value <= most { Some(value) } else { None }
}

// The same of 128 bits.
fn with_wide_digit(value: u128, digit: u8) -> Option<u128>
    requires low { 48 ≤ digit }
    requires high { digit ≤ 57 }
    ensures { SomeIff result (value * 10 + (digit - 48) < 2 ^ 128) (value * 10 + (digit - 48)) }
{
    value.checked_mul(10)?.checked_add(u128::from(digit - b'0'))
}

/// The same of 128 bits, as amounts of money are.
pub fn wide_number(most: u128, text: &[u8]) -> Option<u128>
    ensures { result ≡ number_of most text.now }
{
    if !spells_number(text) {
        return None;
    }
    let mut value = 0u128;
    for byte in text {
        match with_wide_digit(value, *byte) {
            Some(more) => value = more,
            None => return None,
        }
    }
    if value <= most { Some(value) } else { None }
}
