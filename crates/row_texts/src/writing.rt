//! The parts of rows, written at the end of a buffer.
ghost use Rattle.std.specs.Prelude.{◌≡◌, ◌++◌, ◌∷◌, OnOk, decimal};
ghost use Rattle.std.specs.List.{flat_map};
ghost use Rattle.row_texts.specs.RowTexts.{groups_text, later_field, later_group, later_number, row_line, row_text, rows_text};

use itoa::Buffer;
use units::{List, OutOfMemory, Text};

/// Adds a comma and a field.
pub fn push_field(field: &str, out: &mut Vec<u8>) -> Result<(), OutOfMemory>
    ensures { OnOk result (out.new.items ≡ out.old.items ++ 44 ∷ field.now) }
{
    out.extend_from_slice(b",")?;
    out.extend_from_slice(field.as_bytes())?;
    Ok(())
}

/// Adds a comma and a number, in decimal digits.
pub fn push_number(number: u64, out: &mut Vec<u8>) -> Result<(), OutOfMemory>
    ensures { OnOk result (out.new.items ≡ out.old.items ++ 44 ∷ decimal number) }
{
    push_field(Buffer::new().format(number), out)
}

/// Adds numbers, each with a comma before it.
pub fn push_numbers(numbers: &[u64], out: &mut Vec<u8>) -> Result<(), OutOfMemory>
    ensures { OnOk result (out.new.items ≡ out.old.items ++ flat_map later_number numbers.now) }
{
    for number in numbers {
        push_number(*number, out)?;
    }
    Ok(())
}

/// The same of a number of 128 bits, as amounts of money are.
pub fn push_amount(amount: u128, out: &mut Vec<u8>) -> Result<(), OutOfMemory>
    ensures { OnOk result (out.new.items ≡ out.old.items ++ 44 ∷ decimal amount) }
{
    push_field(Buffer::new().format(amount), out)
}

/// Adds a number of 32 bits, in decimal digits, with nothing before it.
pub fn push_decimal(number: u32, out: &mut Vec<u8>) -> Result<(), OutOfMemory>
    ensures { OnOk result (out.new.items ≡ out.old.items ++ decimal number) }
{
    out.extend_from_slice(Buffer::new().format(number).as_bytes())?;
    Ok(())
}

// Adds a space and a rating group.
fn push_later_group(group: u32, out: &mut Vec<u8>) -> Result<(), OutOfMemory>
    ensures { OnOk result (out.new.items ≡ out.old.items ++ later_group group) }
{
    out.extend_from_slice(b" ")?;
    push_decimal(group, out)
}

fn push_later_groups(groups: &[u32], out: &mut Vec<u8>) -> Result<(), OutOfMemory>
    ensures { OnOk result (out.new.items ≡ out.old.items ++ flat_map later_group groups.now) }
{
    for group in groups {
        push_later_group(*group, out)?;
    }
    Ok(())
}

/// Adds a comma and rating groups, with single spaces between them.
pub fn push_groups(groups: &[u32], out: &mut Vec<u8>) -> Result<(), OutOfMemory>
    ensures { OnOk result (out.new.items ≡ out.old.items ++ 44 ∷ groups_text groups.now) }
{
    match groups {
        [first, rest @ ..] => {
            push_number(u64::from(*first), out)?;
            push_later_groups(rest, out)
        }
        [] => push_field("", out),
    }
}

fn push_later_fields(fields: &[Text], out: &mut Vec<u8>) -> Result<(), OutOfMemory>
    ensures { OnOk result (out.new.items ≡ out.old.items ++ flat_map later_field fields.now) }
{
    for field in fields {
        push_field(field.as_str(), out)?;
    }
    Ok(())
}

/// Adds a row: its fields joined by commas.
pub fn push_row(row: &[Text], out: &mut Vec<u8>) -> Result<(), OutOfMemory>
    ensures { OnOk result (out.new.items ≡ out.old.items ++ row_text row.now) }
{
    match row {
        [first, rest @ ..] => {
            out.extend_from_slice(first.as_str().as_bytes())?;
            push_later_fields(rest, out)
        }
        [] => Ok(()),
    }
}

fn push_row_line(row: &[Text], out: &mut Vec<u8>) -> Result<(), OutOfMemory>
    ensures { OnOk result (out.new.items ≡ out.old.items ++ row_line row.now) }
{
    push_row(row, out)?;
    out.extend_from_slice(b"\n")?;
    Ok(())
}

/// Adds rows, each with a line feed after it.
pub fn push_rows(rows: &[List<Text>], out: &mut Vec<u8>) -> Result<(), OutOfMemory>
    ensures { OnOk result (out.new.items ≡ out.old.items ++ rows_text rows.now) }
{
    for row in rows {
        push_row_line(row.as_slice(), out)?;
    }
    Ok(())
}
