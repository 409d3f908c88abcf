//! Turns of prices among many rating groups and periods.
use crate::draws::Draws;
use rating::Tariffs;
use std::alloc::{AllocError, Global};
use units::{List, Moment, OutOfMemory, Text};

fn row(
    alloc: Global,
    fields: &[&str],
    group: u64,
    hour: Option<u64>,
) -> Result<List<Text>, AllocError> {
    let mut row = List::new(alloc);
    for (place, field) in fields.iter().enumerate() {
        if place == 1 {
            row.push(Text::from_string(format!(in alloc; "{group}")?))?;
            if let Some(hour) = hour {
                row.push(Text::from_string(format!(in alloc; "{hour}")?))?;
            }
        }
        row.push(Text::from_text(alloc, field)?)?;
    }
    Ok(row)
}

// Tariffs of that many groups, each with that many periods.
fn tariffs(alloc: Global, groups: u64, periods: u64) -> Result<Option<Tariffs>, OutOfMemory> {
    let mut rows = List::new(alloc);
    for group in 0..groups {
        rows.push(row(
            alloc,
            &["group", "volume", "1000000", "0", "0", "0", "TERMINATE"],
            group,
            None,
        )?)?;
        for hour in 0..periods {
            rows.push(row(alloc, &["price", "3", "5", "0"], group, Some(hour))?)?;
        }
    }
    Ok(Tariffs::read(alloc, &rows).ok())
}

/// Makes that many prices of drawn groups and moments, and sums them up.
pub fn prices(alloc: Global, groups: u64, periods: u64, turns: u64) -> Result<u64, OutOfMemory> {
    let Some(tariffs) = tariffs(alloc, groups, periods)? else {
        return Err(OutOfMemory);
    };
    let mut draws = Draws::new(1);
    let mut sum = 0u64;
    for _ in 0..turns {
        let group = u32::try_from(draws.next() % groups.max(1)).unwrap_or(0);
        let up = draws.next();
        if let Some(moment) = Moment::new(draws.next()) {
            let price = tariffs.price(group, up, up, 1, moment);
            sum = sum.wrapping_add((price % (1 << 64)) as u64);
        }
    }
    Ok(sum)
}
