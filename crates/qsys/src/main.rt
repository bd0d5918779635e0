//! Q-systems: reads grammars and a Q-graph from standard input, runs the grammars one after another on the graph, and
//! writes what each leaves to standard output.
#![tactic(auto)]

ghost use Rattle.std.specs.Prelude.{◌≡◌, ◌↔◌, IfOk, drop};
ghost use Rattle.std.specs.IoError.{error_kind};
ghost use Rattle.std.specs.declared.io.ErrorKind.TheVariants as kind;
ghost use Rattle.std.specs.Vec.Iter.{into_iter_items};
ghost use Rattle.qs_command.specs.declared.words.WordsEnd.TheVariants as end;

use qs_command::{Status, WordsEnd, exit_code};
use qs_program::over::{refuse_over, run_over};
use std::alloc::{AllocError, Global};
use std::env::{Args, Env};
use std::io::ErrorKind;
use std::process::ExitCode;
use std::{env, io};

/// All arguments but the first, which is the program's name.
fn behind_name(alloc: Global, arguments: Args) -> Result<Vec<String>, AllocError>
    ensures { IfOk result (λ words. words.items ≡ drop 1 (into_iter_items arguments)) }
{
    arguments.skip(1).collect(alloc)
}

/// Why the arguments weren't had: `Memory` where memory was wanting, and else `Usage`, for one of them isn't UTF-8.
fn words_end(error: &io::Error) -> WordsEnd
    ensures { result ≡ end.Memory ↔ error_kind error.now ≡ kind.OutOfMemory }
{
    match error.kind() {
        ErrorKind::OutOfMemory => WordsEnd::Memory,
        _ => WordsEnd::Usage,
    }
}

/// The words that follow the program's name. `Usage` comes where one of the arguments, be it the name, isn't UTF-8, and
/// `Memory` where memory was wanting.
fn words_of<R: Env + AllocGlobal>(rt: &R) -> Result<Vec<String>, WordsEnd> {
    match env::args(rt) {
        Ok(arguments) => Ok(behind_name(rt.alloc(), arguments)?),
        Err(error) => Err(words_end(&error)),
    }
}

fn main(rt: HostRuntime) -> ExitCode {
    let status = match words_of(&rt) {
        Ok(words) => run_over(&rt, rt.alloc(), &words, rt.reader(), io::writer(&rt)).status,
        Err(WordsEnd::Usage) => refuse_over(io::writer(&rt)).status,
        Err(WordsEnd::Memory) => Status::Memory,
    };
    exit_code(status)
}
