//! The lines of `answer` as items: messages with their bodies, and rows.
ghost use Rattle.std.specs.Prelude.{◌≡◌, IfOk, Some, None, drop, length, option_map, if◌then◌else◌, ⊤};
ghost use Rattle.charging.specs.Items.{answer_items, begins_with, line_by, line_item, message_item, message_of, method_of, method_word};
ghost use Rattle.charging.specs.Taking.{lines_left};

use crate::item::Item;
use crate::items::Items;
use crate::row_items::{as_text, only_row};
use chf_messages::Method;
use rows::piece_length;
use std::alloc::{AllocError, Global};
use units::{List, OutOfMemory};

/// The most bytes of a message's body.
const MOST_BODY: usize = 1_048_576;

/// The word that a message line of a method begins with, and its space.
fn method_word(method: Method) -> &'static [u8]
    ensures { result.now ≡ method_word method }
{
    match method {
        Method::Post => b"POST ",
        Method::Put => b"PUT ",
        Method::Delete => b"DELETE ",
    }
}

/// What follows a word that a text begins with.
pub fn after_word<'a>(text: &'a [u8], word: &[u8]) -> Option<&'a [u8]>
    ensures { option_map (λ t. t.now) result ≡ (if begins_with text.now word.now then Some (drop (length word.now) text.now) else None) }
{
    text.strip_prefix(word)
}

fn copied(alloc: Global, bytes: &[u8]) -> Result<List<u8>, AllocError>
    ensures { IfOk result (λ l. l ≡ bytes.now) }
{
    let mut copy = Vec::new(alloc);
    copy.extend_from_slice(bytes)?;
    Ok(List::from_vec(copy))
}

fn message_item(
    alloc: Global,
    method: Method,
    path: &[u8],
    body: &[u8],
) -> Result<Item, OutOfMemory>
    ensures { IfOk result (λ item. item ≡ message_item method path.now body.now) }
{
    if path.is_empty() || body.len() > MOST_BODY {
        return Ok(Item::Bad);
    }
    match as_text(alloc, path)? {
        Some(path) => Ok(Item::Message {
            method,
            path,
            body: copied(alloc, body)?,
        }),
        None => Ok(Item::Bad),
    }
}

fn message_of(alloc: Global, method: Method, text: &[u8]) -> Result<Item, OutOfMemory>
    ensures { IfOk result (λ item. item ≡ message_of method text.now) }
{
    let end = piece_length(b' ', text);
    if end >= text.len() {
        message_item(alloc, method, text, &[])
    } else {
        message_item(alloc, method, &text[..end], &text[end + 1..])
    }
}

// A line that is a message, and one that is not.
fn line_by(alloc: Global, line: &[u8]) -> Result<Item, OutOfMemory>
    ensures { IfOk result (λ item. item ≡ line_by (method_of line.now) line.now) }
{
    if let Some(text) = after_word(line, method_word(Method::Post)) {
        return message_of(alloc, Method::Post, text);
    }
    if let Some(text) = after_word(line, method_word(Method::Put)) {
        return message_of(alloc, Method::Put, text);
    }
    if let Some(text) = after_word(line, method_word(Method::Delete)) {
        return message_of(alloc, Method::Delete, text);
    }
    only_row(alloc, line)
}

fn line_item(alloc: Global, line: &[u8]) -> Result<Item, OutOfMemory>
    ensures { IfOk result (λ item. item ≡ line_item line.now) }
{
    match line {
        [] => Ok(Item::Blank),
        _ => line_by(alloc, line),
    }
}

/// The lines of an input, one after the other.
#[derive(Drop)]
pub struct LineItems<'a> {
    bytes: &'a [u8],
    rest: Option<&'a [u8]>,
}

impl<'a> LineItems<'a> {
    /// Those of these bytes.
    pub fn of(bytes: &'a [u8]) -> LineItems<'a>
        ensures bytes { result.bytes.now ≡ bytes.now }
        ensures rest { option_map (λ r. r.now) result.rest ≡ Some bytes.now }
    {
        LineItems {
            bytes,
            rest: Some(bytes),
        }
    }
}

impl<'a> Items for LineItems<'a> {
    ghost all = { λ l. answer_items l.bytes.now };

    ghost left = { λ l. lines_left (option_map (λ r. r.now) l.rest) };

    ghost is_sound = { λ _. ⊤ };

    fn again(&self, alloc: Global) -> LineItems<'a> {
        LineItems::of(self.bytes)
    }

    fn take(&mut self, alloc: Global) -> Result<Option<Item>, OutOfMemory> {
        let Some(rest) = self.rest else {
            return Ok(None);
        };
        let end = piece_length(b'\n', rest);
        let item = line_item(alloc, &rest[..end])?;
        self.rest = rest.get(end + 1..);
        Ok(Some(item))
    }
}
