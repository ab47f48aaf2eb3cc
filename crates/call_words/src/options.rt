// The options of `new`, read by `clap`.
ghost use Rattle.std.specs.Prelude.{◌≡◌, ◌↔◌, Some, None, IfOk, IsErrOf, map, string_bytes, false};
ghost use Rattle.clap.specs.Words.{app_of, kind_of, rule_of};
ghost use Rattle.call_words.specs.Command.{new_command, own};
ghost use Rattle.call_words.specs.Options.{given_in, options_read};

use super::asked::WordsFault;
use super::hyphens::has_odd;
use clap::error::ErrorKind;
use clap::{Arg, ArgAction, Command, Error};
use std::alloc::{AllocError, Global};

/// The texts of the options that were given.
#[derive(Clone, Copy)]
pub struct Given<'a> {
    pub rate: Option<&'a str>,
    pub block: Option<&'a str>,
    pub depth: Option<&'a str>,
}

// `--NAME VALUE` or `--NAME=VALUE`, once at most.
fn option<'a>(alloc: Global, name: &'a str) -> Arg<'a>
    ensures rule { rule_of result ≡ own name.entry.now }
    ensures local { result.global ≡ false }
{
    Arg::new(alloc, name).long(name).action(ArgAction::Set)
}

fn command<'a>(alloc: Global) -> Result<Command<'a>, AllocError>
    ensures { IfOk result (λ c. app_of c ≡ new_command) }
{
    Command::new(alloc, "new")
        .disable_help_flag(true)
        .arg(option(alloc, "rate"))?
        .arg(option(alloc, "block"))?
        .arg(option(alloc, "depth"))
}

fn fault_of(error: &Error) -> WordsFault
    ensures { result ≡ WordsFault.NoMemory ↔ kind_of error.now ≡ ErrorKind.OutOfMemory }
{
    if error.kind() == ErrorKind::OutOfMemory {
        WordsFault::NoMemory
    } else {
        WordsFault::Usage
    }
}

/// Reads the options after the first word, which is the command.
///
/// # Errors
///
/// Usage exactly where they are no options of `new`, but for NoMemory.
pub fn read_options<'a>(alloc: Global, words: &'a [String]) -> Result<Given<'a>, WordsFault>
    ensures given { IfOk result (λ g. options_read (map string_bytes words.entry.now) ≡ Some (given_in g)) }
    ensures usage { IsErrOf result WordsFault.Usage → options_read (map string_bytes words.entry.now) ≡ None }
{
    // `clap` takes a lone `--` after the options.
    if has_odd(words) {
        return Err(WordsFault::Usage);
    }
    let Ok(command) = command(alloc) else {
        return Err(WordsFault::NoMemory);
    };
    match command.try_get_matches_from(words) {
        Ok(matches) => Ok(Given {
            rate: matches.get_str("rate"),
            block: matches.get_str("block"),
            depth: matches.get_str("depth"),
        }),
        Err(error) => Err(fault_of(&error)),
    }
}
