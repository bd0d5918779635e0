//! Reading the words that follow the program's name, with `clap`.

ghost use Rattle.std.specs.Prelude.{◌≡◌, ◌≤◌, ◌<◌, ◌^◌, ℕ, IfOk, IfSome, IsErrOf, false, map};
ghost use Rattle.std.specs.String.{string_bytes};
ghost use Rattle.clap.specs.Words.{app_of, found_of, rows_of, rule_of};
ghost use Rattle.qs_command.specs.Words.{AreRefused, IsInRange, IsJobOf, command_of, job_in, number_in, number_option};
ghost use Rattle.qs_command.specs.Words.{required_word, simple_command};
ghost use Rattle.qs_command.specs.working.Options.{HasNumber, HasNumbers, HasSomeNumber};

use crate::job::{Command, Job};
use clap::error::ErrorKind;
use clap::{Arg, ArgAction, ArgMatches, value_parser};
use std::alloc::{AllocError, Global};
use thiserror::Error;

/// Why no job was read.
#[derive(Clone, Copy, Debug, PartialEq, Eq, Error)]
pub enum WordsEnd {
    /// The words are refused.
    #[error("the words give no job")]
    Usage,
    /// There was no memory.
    #[error("there was not enough memory to read the words")]
    Memory,
}

impl From<AllocError> for WordsEnd {
    ghost use Rattle.std.specs.Prelude.{◌≡◌};
    ghost use Rattle.qs_command.specs.declared.words.WordsEnd.TheVariants.{Memory};

    ghost from_gives = { λ _ e. e ≡ Memory };

    fn from(_: AllocError) -> WordsEnd {
        WordsEnd::Memory
    }
}

/// One word without an option before it, which has to be there.
fn required_word<'a>(alloc: Global, name: &'a str) -> Arg<'a>
    ensures rule { rule_of result ≡ required_word name.entry.now }
    ensures local { result.global ≡ false }
{
    Arg::new(alloc, name).required(true).action(ArgAction::Set)
}

/// An option that takes a number from `least` to `most`, and has that of the last text where it isn't given.
fn number_option<'a>(
    alloc: Global,
    name: &'a str,
    least: u32,
    most: u32,
    default: &'a str,
) -> Arg<'a>
    ensures rule { rule_of result ≡ number_option name.entry.now least most default.entry.now }
    ensures local { result.global ≡ false }
{
    let numbers = value_parser!(u32).range(i64::from(least)..=i64::from(most));
    Arg::new(alloc, name)
        .long(name)
        .action(ArgAction::Set)
        .value_parser(numbers)
        .default_value(default)
}

/// The simple command with which the words are matched.
fn simple_command<'a>(alloc: Global) -> Result<clap::Command<'a>, AllocError>
    ensures { IfOk result (λ command. app_of command ≡ simple_command) }
{
    clap::Command::new(alloc, "qsys")
        .no_binary_name(true)
        .arg(required_word(alloc, "command"))?
        .arg(number_option(alloc, "limit", 1, 1_000_000, "10000"))?
        .arg(number_option(alloc, "workers", 1, 32, "4"))?
        .arg(number_option(alloc, "size", 0, 13, "8"))?
        .arg(number_option(alloc, "readings", 1, 1_000, "10"))
}

/// The command that a command word names, where it is one that is known.
fn command_of(word: &str) -> Option<Command>
    ensures { result ≡ command_of word.now }
{
    match word {
        "run" => Some(Command::Run),
        "check" => Some(Command::Check),
        "graph" => Some(Command::Graph),
        "made" => Some(Command::Made),
        "explain" => Some(Command::Explain),
        "levels" => Some(Command::Levels),
        "phrase" => Some(Command::Phrase),
        _ => None,
    }
}

/// The number of an option that has one.
fn number_in(matches: &ArgMatches<'_>, name: &str) -> u32
    requires { HasSomeNumber (found_of matches.now) name.now }
    ensures number { result ≡ number_in (rows_of (found_of matches.now)) name.now }
    ensures range { (least most : ℕ) → most < 2 ^ 32 → HasNumber (found_of matches.now) name.now least most
        → (least ≤ result) × (result ≤ most) }
{
    matches.get_one(name).unwrap()
}

/// The job of a match, where its command word is known.
fn job_in(matches: &ArgMatches<'_>) -> Option<Job>
    requires { HasNumbers (found_of matches.now) }
    ensures job { result ≡ job_in (rows_of (found_of matches.now)) }
    ensures range { IfSome result IsInRange }
{
    let command = command_of(matches.get_str("command")?)?;
    Some(Job {
        command,
        limit: number_in(matches, "limit"),
        workers: number_in(matches, "workers"),
        size: number_in(matches, "size"),
        readings: number_in(matches, "readings"),
    })
}

/// Reads the words, those behind the program's name: a command word that is known, with the options `--limit` (from 1
/// to 1,000,000, else 10,000), `--workers` (from 1 to 32, else 4), `--size` (from 0 to 13, else 8) and `--readings`
/// (from 1 to 1,000, else 10) anywhere. `Usage` comes exactly where `clap` refuses the words, which it does for
/// `--help` too, or the command word isn't known; `Memory` comes where memory was wanting, and says nothing of the
/// words.
pub fn read_words(alloc: Global, words: &[String]) -> Result<Job, WordsEnd>
    ensures job { IfOk result (λ job. IsJobOf (map string_bytes words.now) job) }
    ensures range { IfOk result IsInRange }
    ensures usage { IsErrOf result WordsEnd.Usage → AreRefused (map string_bytes words.now) }
{
    let command = simple_command(alloc)?;
    match command.try_get_matches_from(words) {
        Ok(matches) => job_in(&matches).ok_or(WordsEnd::Usage),
        Err(error) if error.kind() == ErrorKind::OutOfMemory => Err(WordsEnd::Memory),
        Err(_) => Err(WordsEnd::Usage),
    }
}
