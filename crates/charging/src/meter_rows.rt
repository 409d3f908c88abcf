//! The rows of `meter` as reports, given to a meter in order.
ghost use Rattle.std.specs.Prelude.{◌≡◌, ◌<◌, ◌^◌, ℕ, ◌∷◌, [], Err, OnOk};
ghost use Rattle.csv.specs.Records.{fields_of};
ghost use Rattle.meter.specs.Contents.{nothing_yet};
ghost use Rattle.charging.specs.MeterRows.{Comes, IsMetered, report_from, report_of};
ghost use Rattle.charging.specs.declared.meter_rows.RowsEnd.TheVariants as end;

use crate::csv_rows::{next_row, rows_of};
use csv::ByteRecord;
use meter::{Meter, Seen};
use rows::number;
use std::alloc::Global;
use units::{Moment, OutOfMemory, Report};

/// Why a run over rows ended before the last.
#[derive(Clone, Copy, PartialEq, Eq, Debug)]
pub enum RowsEnd {
    /// This row, counted from 1, is the first that is not accepted.
    Bad { row: u32 },
    /// Memory was wanting.
    OutOfMemory,
}

impl From<OutOfMemory> for RowsEnd {
    ghost from_gives = { λ _ e. e ≡ end.OutOfMemory };

    fn from(_error: OutOfMemory) -> RowsEnd {
        RowsEnd::OutOfMemory
    }
}

// The report of four fields.
fn fields_report(
    count: u32,
    moment: &[u8],
    up: &[u8],
    down: &[u8],
    seconds: &[u8],
) -> Option<Report>
    ensures { result ≡ report_from count moment.now up.now down.now seconds.now }
{
    let moment = Moment::new(number(Moment::LAST, moment)?)?;
    let up = number(u64::MAX, up)?;
    let down = number(u64::MAX, down)?;
    let seconds = number(u32::MAX as u64, seconds)? as u32;
    Some(Report {
        number: count,
        group: 0,
        up,
        down,
        seconds,
        moment,
    })
}

// The report of a row, whose fields are read where they lie.
#[tactic(auto, using(crate::proofs::Fields::four_fields))]
fn row_report(count: u32, row: &ByteRecord) -> Option<Report>
    ensures { result ≡ report_of count (fields_of row.now) }
{
    if row.len() != 4 {
        return None;
    }
    fields_report(count, row.get(0)?, row.get(1)?, row.get(2)?, row.get(3)?)
}

/// Gives the rows of an input to a meter, in order, up to the first that is not accepted.
pub fn meter_rows(alloc: Global, meter: &mut Meter, bytes: &[u8]) -> Result<(), RowsEnd>
    requires { meter.old.contents ≡ nothing_yet }
    ensures ok { OnOk result (IsMetered bytes.now meter.new.contents) }
    ensures bad { (row : ℕ) → result ≡ Err (RowsEnd.Bad row) → Comes bytes.now (Err row) }
{
    let mut reader = rows_of(alloc, bytes);
    let mut row = ByteRecord::new(alloc);
    let mut count = 1u32;
    while next_row(&mut reader, &mut row)? {
        meter.make_room(alloc)?;
        let Some(report) = row_report(count, &row) else {
            return Err(RowsEnd::Bad { row: count });
        };
        match meter.report(report) {
            Ok(Seen::New) => count += 1,
            _ => return Err(RowsEnd::Bad { row: count }),
        }
    }
    Ok(())
}
