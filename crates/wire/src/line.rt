//! A line of a head.
ghost use Rattle.std.specs.Prelude.{◌≡◌, ◌++◌, IfOk, decimal};
ghost use Rattle.wire.specs.Texts.{line};

use itoa::Buffer;
use std::alloc::AllocError;

/// Adds the line of a field.
#[tactic(auto, unfolding(crate::specs::Texts::line))]
pub fn put_line(out: &mut Vec<u8>, name: &[u8], value: &[u8]) -> Result<(), AllocError>
    ensures { IfOk result (λ _. out.new.items ≡ out.old.items ++ line name.now value.now) }
{
    out.extend_from_slice(name)?;
    out.extend_from_slice(b": ")?;
    out.extend_from_slice(value)?;
    out.extend_from_slice(b"\r\n")?;
    Ok(())
}

/// Adds the line of a field whose value is a number.
pub fn put_number(out: &mut Vec<u8>, name: &[u8], number: usize) -> Result<(), AllocError>
    ensures { IfOk result (λ _. out.new.items ≡ out.old.items ++ line name.now (decimal number)) }
{
    let mut digits = Buffer::new();
    put_line(out, name, digits.format(number).as_bytes())
}
