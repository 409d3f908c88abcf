//! The printed table of `meter`: a line for each container, and the total.
ghost use Rattle.std.specs.Prelude.{◌≡◌, ◌≤◌, ◌^◌, ◌<◌, ◌*◌, ◌++◌, IfOk, OnOk, length, string_bytes};
ghost use Rattle.charging.specs.Words.{AreInRange};
ghost use Rattle.charging.specs.MeterLines.{charge_of, line_of, span_text, table_of, total_line, use_text};

use crate::words::Prices;
use std::alloc::{AllocError, Global};
use std::fmt::Write;
use units::Container;

fn part(amount: u64, price: u64) -> u128
    requires { price ≤ 2 ^ 32 }
    ensures value { result ≡ amount * price }
    ensures range { result ≤ 2 ^ 96 }
{
    u128::from(amount) * u128::from(price)
}

// What a container costs, in grains.
fn charge(prices: &Prices, container: &Container) -> u128
    requires { AreInRange prices.now }
    ensures value { result ≡ charge_of prices.now container.now }
    ensures range { result < 2 ^ 98 }
{
    part(container.up, prices.up)
        + part(container.down, prices.down)
        + part(u64::from(container.seconds), prices.seconds)
}

fn push_span(text: &mut String, container: &Container) -> Result<(), AllocError>
    ensures { OnOk result (string_bytes text.new ≡ string_bytes text.old ++ span_text container.now) }
{
    let lsn = container.lsn;
    let first = container.first.seconds();
    let last = container.last.seconds();
    write!(text, "{lsn},{first},{last},")
}

fn push_use(
    text: &mut String,
    container: &Container,
    charge: u128,
    prices: &Prices,
) -> Result<(), AllocError>
    requires { charge ≡ charge_of prices.now container.now }
    ensures { OnOk result (string_bytes text.new ≡ string_bytes text.old ++ use_text prices.now container.now) }
{
    let up = container.up;
    let down = container.down;
    let seconds = container.seconds;
    write!(text, "{up},{down},{seconds},{charge}\n")
}

fn push_total(text: &mut String, total: u128) -> Result<(), AllocError>
    ensures { OnOk result (string_bytes text.new ≡ string_bytes text.old ++ total_line total) }
{
    write!(text, "total,{total}\n")
}

/// A line for each container, and the total.
pub fn table(alloc: Global, prices: &Prices, containers: &[Container]) -> Result<String, AllocError>
    requires range { AreInRange prices.now }
    requires few { length containers.now ≤ 2 ^ 20 }
    ensures { IfOk result (λ text. string_bytes text ≡ table_of prices.now containers.now) }
{
    let mut text = String::new(alloc);
    let mut total = 0u128;
    for container in containers {
        let charge = charge(prices, container);
        push_span(&mut text, container)?;
        push_use(&mut text, container, charge, prices)?;
        total += charge;
    }
    push_total(&mut text, total)?;
    Ok(text)
}
