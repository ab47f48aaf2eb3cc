// The words to what they ask for.
ghost use Rattle.std.specs.Prelude.{◌≡◌, Some, None, IfOk, IfErr, IfSome, IsErrOf, IsFalse, false, map, string_bytes};
ghost use Rattle.call_words.specs.Bounds.{IsInBounds};
ghost use Rattle.call_words.specs.Options.{given_in};
ghost use Rattle.call_words.specs.Words.{alone, gen_words, is_new, new_of, new_words, other_words, run_words, words_of};

use super::asked::{NewProject, Words, WordsFault};
use super::number::{even, number_or, number_within};
use super::options::{Given, read_options};
use pcm_base::{MAX_BLOCK_SAMPLES, MAX_DEPTH};
use script_text::number_up_to;
use std::alloc::Global;

fn new_project(given: &Given<'_>) -> Option<Words>
    ensures value { result ≡ new_of (given_in given.now) }
    ensures bounds { IfSome result IsInBounds }
{
    let rate = number_or(given.rate, 44100, 1, 4294967295)?;
    let block_size = even(number_or(given.block, MAX_BLOCK_SAMPLES, 4, MAX_BLOCK_SAMPLES))?;
    let depth = number_or(given.depth, 256, 1, MAX_DEPTH)?;
    Some(Words::New(NewProject {
        rate,
        block_size,
        depth,
    }))
}

// What was read, or Usage.
fn or_usage(asked: Option<Words>) -> Result<Words, WordsFault>
    ensures read { IfOk result (λ w. asked ≡ Some w) }
    ensures usage { IsErrOf result WordsFault.Usage → asked ≡ None }
    ensures only { IfErr result (λ e. e ≡ WordsFault.Usage) }
{
    match asked {
        Some(asked) => Ok(asked),
        None => Err(WordsFault::Usage),
    }
}

// `new` and its options.
fn read_new(alloc: Global, words: &[String]) -> Result<Words, WordsFault>
    ensures read { IfOk result (λ w. new_words (map string_bytes words.now) ≡ Some w) }
    ensures usage { IsErrOf result WordsFault.Usage → new_words (map string_bytes words.now) ≡ None }
    ensures bounds { IfOk result IsInBounds }
{
    match read_options(alloc, words) {
        Ok(given) => or_usage(new_project(&given)),
        Err(fault) => Err(fault),
    }
}

// The flags after `run`.
fn read_run(words: &[String]) -> Option<Words>
    ensures value { result ≡ run_words (map string_bytes words.now) false false }
    ensures bounds { IfSome result IsInBounds }
{
    let mut records = false;
    let mut plays = false;
    for word in words {
        if word.as_bytes() == b"--record".as_slice() {
            if records {
                return None;
            }
            records = true;
        } else if word.as_bytes() == b"--play".as_slice() {
            if plays {
                return None;
            }
            plays = true;
        } else {
            return None;
        }
    }
    Some(Words::Run { records, plays })
}

// The two numbers after `gen`.
fn read_gen(words: &[String]) -> Option<Words>
    ensures value { result ≡ gen_words (map string_bytes words.now) }
    ensures bounds { IfSome result IsInBounds }
{
    match words {
        [number, lines] => {
            let number = number_up_to(number.as_bytes(), u64::MAX)?;
            let lines = number_within(lines.as_bytes(), 2, 4096)?;
            Some(Words::Gen { number, lines })
        }
        _ => None,
    }
}

// A command that has no words after it.
fn alone(asked: Words, words: &[String]) -> Option<Words>
    requires bounds { IsInBounds asked }
    ensures value { result ≡ alone asked (map string_bytes words.now) }
    ensures bounds { IfSome result IsInBounds }
{
    if words.is_empty() { Some(asked) } else { None }
}

// A command that is not `new`, and the words after it.
fn read_other(command: &[u8], rest: &[String]) -> Option<Words>
    ensures value { result ≡ other_words command.now (map string_bytes rest.now) }
    ensures bounds { IfSome result IsInBounds }
{
    if command == b"run".as_slice() {
        read_run(rest)
    } else if command == b"try".as_slice() {
        alone(Words::Try, rest)
    } else if command == b"list".as_slice() {
        alone(Words::List, rest)
    } else if command == b"check".as_slice() {
        alone(Words::Check, rest)
    } else if command == b"gen".as_slice() {
        read_gen(rest)
    } else {
        None
    }
}

/// Reads the words with which the program was called, of which the first is its own name.
///
/// # Errors
///
/// Usage exactly where the words are no command, but for NoMemory, which comes for the word `new` alone.
pub fn read_words(alloc: Global, words: &[String]) -> Result<Words, WordsFault>
    // What is read is what the words say.
    ensures read { IfOk result (λ w. words_of (map string_bytes words.now) ≡ Some w) }
    // Its numbers are within their bounds, and the block size is even.
    ensures bounds { IfOk result IsInBounds }
    // Usage comes only where they are no command.
    ensures usage { IsErrOf result WordsFault.Usage → words_of (map string_bytes words.now) ≡ None }
    // Where they do not ask for a new project, nothing else is answered in the place of what they say.
    ensures memory { IsFalse (is_new (map string_bytes words.now)) → IfErr result (λ e. e ≡ WordsFault.Usage) }
{
    if words.len() < 2 {
        return Err(WordsFault::Usage);
    }
    if words[1].as_bytes() == b"new".as_slice() {
        return read_new(alloc, &words[1..]);
    }
    or_usage(read_other(words[1].as_bytes(), &words[2..]))
}
