//! One row of a tariff.
ghost use Rattle.std.specs.Prelude.{◌≡◌, IfSome};
ghost use Rattle.rating.specs.Row.{tariff_row, group_row, price_row, IsInRange};

use crate::fields::{action, chunk, kind, large_number, small_number};
use crate::period::Period;
use crate::terms::Terms;
use units::Text;

/// A row of a tariff (this product's own).
#[derive(Clone, Copy, PartialEq, Eq, Debug)]
pub enum TariffRow {
    /// The terms of a rating group.
    Group { group: u32, terms: Terms },
    /// A period of a rating group.
    Price { group: u32, period: Period },
}

fn group_row(group: &Text, rest: &[Text]) -> Option<TariffRow>
    ensures value { result ≡ group_row group.now rest.now }
    ensures range { IfSome result IsInRange }
{
    match rest {
        [
            kind_word,
            chunk_field,
            threshold,
            validity,
            holding,
            action_word,
        ] => {
            let group = small_number(u32::MAX, group)?;
            let kind = kind(kind_word)?;
            Some(TariffRow::Group {
                group,
                terms: Terms {
                    kind,
                    chunk: chunk(kind, chunk_field)?,
                    threshold: small_number(u32::MAX, threshold)?,
                    validity: small_number(604_800, validity)?,
                    holding: small_number(604_800, holding)?,
                    action: action(action_word)?,
                },
            })
        }
        _ => None,
    }
}

fn price_row(group: &Text, rest: &[Text]) -> Option<TariffRow>
    ensures value { result ≡ price_row group.now rest.now }
    ensures range { IfSome result IsInRange }
{
    match rest {
        [hour, up, down, seconds] => Some(TariffRow::Price {
            group: small_number(u32::MAX, group)?,
            period: Period {
                hour: small_number(23, hour)?,
                up: large_number(1 << 32, up)?,
                down: large_number(1 << 32, down)?,
                seconds: large_number(1 << 32, seconds)?,
            },
        }),
        _ => None,
    }
}

/// The row of a tariff that these fields are, if they are one.
pub fn tariff_row(fields: &[Text]) -> Option<TariffRow>
    ensures value { result ≡ tariff_row fields.now }
    ensures range { IfSome result IsInRange }
{
    match fields {
        [word, group, rest @ ..] if word.as_str() == "group" => group_row(group, rest),
        [word, group, rest @ ..] if word.as_str() == "price" => price_row(group, rest),
        _ => None,
    }
}
