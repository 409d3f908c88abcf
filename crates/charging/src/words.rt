//! The words of the command line as a task.
ghost use Rattle.std.specs.Prelude.{◌≡◌, IfOk, IfSome, option_map, true};
ghost use Rattle.std.specs.List.{list_all};
ghost use Rattle.charging.specs.Parsing.{is_plain};
ghost use Rattle.charging.specs.Words.{AreInRange, IsInRange, alone, meter_words, prices_of, task_by, task_of};

use crate::parsing::{are_plain, takes_none, takes_three};
use rows::number;
use std::alloc::Global;
use units::{OutOfMemory, Text};

/// The price of an octet up, an octet down and a second, in grains, each at most 2^32.
#[derive(Clone, Copy, PartialEq, Eq, Debug)]
pub struct Prices {
    pub up: u64,
    pub down: u64,
    pub seconds: u64,
}

// The prices that three words give.
#[tactic(auto, using(crate::proofs::Ranges::ranges))]
fn three_prices(up: &Text, down: &Text, seconds: &Text) -> Option<Prices>
    ensures value { result ≡ prices_of up.now down.now seconds.now }
    ensures range { IfSome result AreInRange }
{
    Some(Prices {
        up: number(1 << 32, up.as_str().as_bytes())?,
        down: number(1 << 32, down.as_str().as_bytes())?,
        seconds: number(1 << 32, seconds.as_str().as_bytes())?,
    })
}

/// What the program is told to do.
#[derive(Clone, Copy, PartialEq, Eq, Debug)]
pub enum Task {
    /// To rate usage reports at these prices.
    Meter { prices: Prices },
    /// To give the operator's rows to a charging function.
    Operator,
    /// To give the operator's rows and messages to a charging function.
    Answer,
}

// The prices of the words after `meter`.
fn meter_words(words: &[Text]) -> Option<Prices>
    ensures value { result ≡ meter_words words.now }
    ensures range { IfSome result AreInRange }
{
    match words {
        [up, down, seconds] => three_prices(up, down, seconds),
        _ => None,
    }
}

// What the words after `meter` give.
#[tactic(auto, using(crate::proofs::OtherWords::other_words))]
fn meter(alloc: Global, words: &[Text]) -> Result<Option<Task>, OutOfMemory>
    requires { list_all is_plain words.now ≡ true }
    ensures value { IfOk result (λ task. task ≡ option_map Task.Meter (meter_words words.now)) }
    ensures range { IfOk result (λ task. IfSome task IsInRange) }
{
    if !takes_three(alloc, words)? {
        return Ok(None);
    }
    match meter_words(words) {
        Some(prices) => Ok(Some(Task::Meter { prices })),
        None => Ok(None),
    }
}

// What the words after a command give that takes none.
#[tactic(auto, using(crate::proofs::OtherWords::other_words))]
fn alone(alloc: Global, task: Task, words: &[Text]) -> Result<Option<Task>, OutOfMemory>
    requires { list_all is_plain words.now ≡ true }
    ensures { IfOk result (λ o. o ≡ alone task words.now) }
{
    if takes_none(alloc, words)? {
        Ok(Some(task))
    } else {
        Ok(None)
    }
}

// What a command and the words after it give.
fn read_plain(alloc: Global, command: &Text, words: &[Text]) -> Result<Option<Task>, OutOfMemory>
    requires { list_all is_plain words.now ≡ true }
    ensures value { IfOk result (λ task. task ≡ task_by command.now words.now) }
    ensures range { IfOk result (λ task. IfSome task IsInRange) }
{
    if command.as_str() == "meter" {
        meter(alloc, words)
    } else if command.as_str() == "operator" {
        alone(alloc, Task::Operator, words)
    } else if command.as_str() == "answer" {
        alone(alloc, Task::Answer, words)
    } else {
        Ok(None)
    }
}

// The same, where some of the words may begin with a hyphen.
#[tactic(auto, using(crate::proofs::OtherWords::other_words))]
fn read_words(alloc: Global, command: &Text, words: &[Text]) -> Result<Option<Task>, OutOfMemory>
    ensures value { IfOk result (λ task. task ≡ task_by command.now words.now) }
    ensures range { IfOk result (λ task. IfSome task IsInRange) }
{
    if are_plain(words) {
        read_plain(alloc, command, words)
    } else {
        Ok(None)
    }
}

/// What words give.
pub fn read_task(alloc: Global, words: &[Text]) -> Result<Option<Task>, OutOfMemory>
    ensures value { IfOk result (λ task. task ≡ task_of words.now) }
    ensures range { IfOk result (λ task. IfSome task IsInRange) }
{
    match words {
        [command, rest @ ..] => read_words(alloc, command, rest),
        [] => Ok(None),
    }
}
