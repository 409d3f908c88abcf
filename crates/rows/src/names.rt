//! Names: printable bytes without comma and double quote.
ghost use Rattle.std.specs.Prelude.{◌≡◌};
ghost use Rattle.std.specs.List.{list_all};
ghost use Rattle.units.specs.Names.{is_name_byte, spells_name};

fn are_name_bytes(text: &[u8]) -> bool
    ensures { result ≡ list_all is_name_byte text.now }
{
    text.iter().all(|byte| 33 <= *byte && *byte <= 126 && *byte != b',' && *byte != b'"')
}

/// Whether a text is a name: 1 to 255 bytes of 0x21 to 0x7E without comma and double quote (this product's own).
pub fn is_name(text: &[u8]) -> bool
    ensures { result ≡ spells_name text.now }
{
    1 <= text.len() && text.len() <= 255 && are_name_bytes(text)
}
