//! The words after a command, as `clap` takes them.
ghost use Rattle.std.specs.Prelude.{◌≡◌, ◌↔◌, [], map, length, IfOk, IsTrue, true, false};
ghost use Rattle.std.specs.List.{list_all};
ghost use Rattle.clap.specs.Words.{app_of, kind_of, rule_of, with_rule};
ghost use Rattle.clap.specs.declared.error.ErrorKind.TheVariants as kind;
ghost use Rattle.charging.specs.Parsing.{alone_app, bare_app, is_plain, meter_app, required_rule};

use clap::error::ErrorKind;
use clap::{Arg, Command, Error};
use std::alloc::{AllocError, Global};
use units::{OutOfMemory, Text};

fn bare_command<'a>(alloc: Global, name: &'a str) -> Command<'a>
    ensures { app_of result ≡ bare_app name.now }
{
    Command::new(alloc, name)
        .no_binary_name(true)
        .disable_help_flag(true)
}

fn required_word<'a>(alloc: Global, name: &'a str) -> Arg<'a>
    ensures rule { rule_of result ≡ required_rule name.now }
    ensures local { result.global ≡ false }
{
    Arg::new(alloc, name).required(true)
}

fn with_word<'a>(command: Command<'a>, arg: Arg<'a>) -> Result<Command<'a>, AllocError>
    requires { arg.global ≡ false }
    ensures { IfOk result (λ c. app_of c ≡ with_rule (app_of command.entry) (rule_of arg.entry)) }
{
    command.arg(arg)
}

fn meter_command<'a>(alloc: Global) -> Result<Command<'a>, AllocError>
    ensures { IfOk result (λ c. app_of c ≡ meter_app) }
{
    let command = bare_command(alloc, "meter");
    let command = with_word(command, required_word(alloc, "up"))?;
    let command = with_word(command, required_word(alloc, "down"))?;
    let command = with_word(command, required_word(alloc, "seconds"))?;
    Ok(command)
}

fn is_plain(word: &Text) -> bool
    ensures { result ≡ is_plain word.now }
{
    let bytes = word.as_str().as_bytes();
    bytes.is_empty() || bytes[0] != b'-'
}

/// Whether no word begins with a hyphen: `clap` takes `-` for a value and passes over `--`.
pub fn are_plain(words: &[Text]) -> bool
    ensures { result ≡ list_all is_plain words.now }
{
    for word in words {
        if !is_plain(word) {
            return false;
        }
    }
    true
}

fn is_memory(error: &Error) -> bool
    ensures { IsTrue result ↔ (kind_of error.now ≡ kind.OutOfMemory) }
{
    matches!(error.kind(), ErrorKind::OutOfMemory)
}

fn texts_of<'a>(alloc: Global, words: &'a [Text]) -> Result<Vec<&'a str>, AllocError>
    ensures { IfOk result (λ texts. map (λ t. t.now) texts.items ≡ words.now) }
{
    let mut texts = Vec::new(alloc);
    for word in words {
        texts.push(word.as_str())?;
    }
    Ok(texts)
}

// Whether `clap` takes the texts for those of `meter`.
fn are_three<'a>(alloc: Global, texts: &'a [&'a str]) -> Result<bool, OutOfMemory>
    requires { list_all is_plain (map (λ t. t.now) texts.now) ≡ true }
    ensures { IfOk result (λ b. IsTrue b ↔ (length (map (λ t. t.now) texts.entry.now) ≡ 3)) }
{
    match meter_command(alloc)?.try_get_matches_from(texts) {
        Ok(_) => Ok(true),
        Err(e) => if is_memory(&e) {
            Err(OutOfMemory)
        } else {
            Ok(false)
        },
    }
}

// Whether `clap` takes the texts for those of a command that has none.
fn are_none<'a>(alloc: Global, texts: &'a [&'a str]) -> Result<bool, OutOfMemory>
    requires { list_all is_plain (map (λ t. t.now) texts.now) ≡ true }
    ensures { IfOk result (λ b. IsTrue b ↔ (length (map (λ t. t.now) texts.entry.now) ≡ 0)) }
{
    match bare_command(alloc, "alone").try_get_matches_from(texts) {
        Ok(_) => Ok(true),
        Err(e) => if is_memory(&e) {
            Err(OutOfMemory)
        } else {
            Ok(false)
        },
    }
}

/// Whether the words after `meter` are as many as it takes.
pub fn takes_three(alloc: Global, words: &[Text]) -> Result<bool, OutOfMemory>
    requires { list_all is_plain words.now ≡ true }
    ensures { IfOk result (λ b. IsTrue b ↔ (length words.now ≡ 3)) }
{
    let texts = texts_of(alloc, words)?;
    are_three(alloc, &texts)
}

/// Whether there is no word after a command that takes none.
pub fn takes_none(alloc: Global, words: &[Text]) -> Result<bool, OutOfMemory>
    requires { list_all is_plain words.now ≡ true }
    ensures { IfOk result (λ b. IsTrue b ↔ (length words.now ≡ 0)) }
{
    let texts = texts_of(alloc, words)?;
    are_none(alloc, &texts)
}
