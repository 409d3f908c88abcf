//! Decimal digits of text and of time stamps.
ghost use Rattle.std.specs.Prelude.{◌≡◌, ◌≤◌, ◌<◌, ◌+◌, ◌/◌, ◌%◌, ◌^◌, length, IfSome};
ghost use Rattle.std.specs.List.{prefix_len};
ghost use Rattle.std.specs.Char.{is_ascii_digit};
ghost use Rattle.moments.specs.Digits.{two_at};

/// The number that the two digits at a place of the text write.
pub fn two_digits(text: &[u8], at: usize) -> Option<u32>
    requires { at < 2 ^ 32 }
    ensures value { result ≡ two_at text.now at }
    ensures small { IfSome result (λ n. n ≤ 99) }
{
    if at + 1 >= text.len() {
        return None;
    }
    let (tens, units) = (text[at], text[at + 1]);
    if tens.is_ascii_digit() && units.is_ascii_digit() {
        Some((tens - b'0') as u32 * 10 + (units - b'0') as u32)
    } else {
        None
    }
}

/// How many digits stand at the front.
pub fn leading_digits(text: &[u8]) -> usize
    ensures value { result ≡ prefix_len is_ascii_digit text.now }
    ensures within { result ≤ length text.now }
{
    for (i, byte) in text.iter().enumerate() {
        if !byte.is_ascii_digit() {
            return i;
        }
    }
    text.len()
}

/// The digit of the tens.
pub fn tens_digit(n: u32) -> u8
    requires { n ≤ 99 }
    ensures { result ≡ 48 + n / 10 }
{
    b'0' + (n / 10) as u8
}

/// The digit of the units.
pub fn units_digit(n: u32) -> u8
    requires { n ≤ 99 }
    ensures { result ≡ 48 + n % 10 }
{
    b'0' + (n % 10) as u8
}
