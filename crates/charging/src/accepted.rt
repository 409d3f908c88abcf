//! Which items of an input are accepted: the setup that they give, or the first bad one.
ghost use Rattle.std.specs.Prelude.{◌≡◌, ◌+◌, ◌-◌, ◌++◌, ◌&&◌, not, ℕ, Ok, Err, IfOk, OnOk};
ghost use Rattle.charging.specs.Accepted.{after_setup, bad_after_setup, is_accepted, is_blank, is_setup, number_at, outcome, row_in, setup_rows};
ghost use Rattle.chf_rows.specs.Setup.{setup_answer};

use crate::item::Item;
use crate::items::Items;
use crate::meter_rows::RowsEnd;
use chf_core::ChfSetup;
use chf_rows::{SetupRefusal, is_setup_row, read_operator_row, read_setup};
use std::alloc::Global;
use units::{List, OutOfMemory, Text};

fn is_blank(item: &Item) -> bool
    ensures { result ≡ is_blank item.now }
{
    match item {
        Item::Blank => true,
        Item::Row { .. } => false,
        Item::Message { .. } => false,
        Item::Bad => false,
    }
}

// Whether an item belongs to the setup, where all before it do.
fn is_setup(item: &Item) -> bool
    ensures { result ≡ is_setup item.now }
{
    match item {
        Item::Blank => true,
        Item::Row { fields } => is_setup_row(fields.as_slice()),
        Item::Message { .. } => false,
        Item::Bad => false,
    }
}

// The fields of an item of the setup.
fn add_row(rows: &mut List<List<Text>>, item: Item) -> Result<(), OutOfMemory>
    ensures { OnOk result (rows.new ≡ rows.old ++ row_in item) }
{
    match item {
        Item::Row { fields } => rows.push(fields)?,
        _ => {}
    }
    Ok(())
}

// The rows of the setup.
fn setup_rows<I: Items>(alloc: Global, items: &mut I) -> Result<List<List<Text>>, OutOfMemory>
    requires { I.is_sound items.old }
    ensures { IfOk result (λ rows. rows ≡ setup_rows (I.left items.old)) }
{
    let mut rows = List::new(alloc);
    loop {
        match items.take(alloc)? {
            None => return Ok(rows),
            Some(item) => {
                if !is_setup(&item) {
                    return Ok(rows);
                }
                add_row(&mut rows, item)?;
            }
        }
    }
}

// The number of the item with that ordinal among those that are no empty line.
fn number_at<I: Items>(alloc: Global, ordinal: usize, items: &mut I) -> Result<u32, OutOfMemory>
    requires { I.is_sound items.old }
    ensures { IfOk result (λ number. number ≡ number_at ordinal 0 1 (I.left items.old)) }
{
    let mut left = ordinal;
    let mut last = 0;
    let mut here = 1;
    loop {
        match items.take(alloc)? {
            None => return next(last),
            Some(item) => {
                if !is_blank(&item) {
                    if left == 0 {
                        return Ok(here);
                    }
                    left -= 1;
                    last = here;
                }
                here = next(here)?;
            }
        }
    }
}

fn is_accepted(alloc: Global, item: &Item) -> Result<bool, OutOfMemory>
    ensures { IfOk result (λ b. b ≡ is_accepted item.now) }
{
    match item {
        Item::Blank => Ok(true),
        Item::Row { fields } => Ok(read_operator_row(alloc, fields.as_slice())?.is_some()),
        Item::Message { .. } => Ok(true),
        Item::Bad => Ok(false),
    }
}

// Whether an item is not accepted, where it was in the setup so far or not.
fn is_bad(alloc: Global, in_setup: &mut bool, item: &Item) -> Result<bool, OutOfMemory>
    ensures setup { in_setup.new ≡ in_setup.old && is_setup item.now }
    ensures bad { IfOk result (λ b. b ≡ not (in_setup.old && is_setup item.now) && not (is_accepted item.now)) }
{
    *in_setup = *in_setup && is_setup(item);
    if *in_setup {
        return Ok(false);
    }
    Ok(!is_accepted(alloc, item)?)
}

// The first item after the setup that is not accepted.
fn first_bad<I: Items>(alloc: Global, items: &mut I) -> Result<Option<u32>, OutOfMemory>
    requires { I.is_sound items.old }
    ensures { IfOk result (λ o. o ≡ bad_after_setup (I.left items.old)) }
{
    let mut here = 1;
    let mut in_setup = true;
    loop {
        match items.take(alloc)? {
            None => return Ok(None),
            Some(item) => {
                if is_bad(alloc, &mut in_setup, &item)? {
                    return Ok(Some(here));
                }
                here = next(here)?;
            }
        }
    }
}

// The number after another.
fn next(number: u32) -> Result<u32, OutOfMemory>
    ensures { IfOk result (λ n. n ≡ number + 1) }
{
    match number.checked_add(1) {
        Some(next) => Ok(next),
        None => Err(OutOfMemory),
    }
}

// The setup, where all that follows it is accepted.
fn unless_bad<I: Items>(alloc: Global, setup: ChfSetup, items: &I) -> Result<ChfSetup, RowsEnd>
    ensures ok { IfOk result (λ s. after_setup (Ok setup) (I.all items.now) ≡ Ok s) }
    ensures bad { (row : ℕ) → result ≡ Err (RowsEnd.Bad row) → after_setup (Ok setup) (I.all items.now) ≡ Err row }
{
    match first_bad(alloc, &mut items.again(alloc))? {
        Some(row) => Err(RowsEnd::Bad { row }),
        None => Ok(setup),
    }
}

// The number of the item that a row of the setup is.
fn bad_row<I: Items>(alloc: Global, row: usize, items: &I) -> RowsEnd
    ensures { (number : ℕ) → result ≡ RowsEnd.Bad number → number ≡ number_at (row - 1) 0 1 (I.all items.now) }
{
    match number_at(alloc, row.saturating_sub(1), &mut items.again(alloc)) {
        Ok(row) => RowsEnd::Bad { row },
        Err(OutOfMemory) => RowsEnd::OutOfMemory,
    }
}

/// The setup of an input whose items are all accepted.
#[tactic(auto, using(crate::proofs::Begun::begun_by))]
pub fn read_items<I: Items>(alloc: Global, items: &I) -> Result<ChfSetup, RowsEnd>
    ensures ok { IfOk result (λ setup. outcome (I.all items.now) ≡ Ok setup) }
    ensures bad { (row : ℕ) → result ≡ Err (RowsEnd.Bad row) → outcome (I.all items.now) ≡ Err row }
{
    let rows = setup_rows(alloc, &mut items.again(alloc))?;
    if rows.is_empty() {
        return Err(RowsEnd::Bad { row: 1 });
    }
    match read_setup(alloc, rows.as_slice()) {
        Ok(setup) => unless_bad(alloc, setup, items),
        Err(SetupRefusal::BadRow { row }) => Err(bad_row(alloc, row, items)),
        Err(SetupRefusal::OutOfMemory) => Err(RowsEnd::OutOfMemory),
    }
}
