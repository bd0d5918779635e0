//! What is told of a made deck.

ghost use Rattle.std.specs.Prelude.{◌≡◌, ◌≤◌, ◌^◌, ◌++◌, IfOk, OnOk};
ghost use Rattle.qs_deck.specs.MadeDecks.{made_grammar, made_graph};
ghost use Rattle.qs_cascade.specs.Stages.{IsStageEnd};
ghost use Rattle.qs_command.specs.Limits.{IsLimit};
ghost use Rattle.qs_telling.specs.Texts.{counts_text, summary_line};
ghost use Rattle.qs_telling.specs.Ends.{left_of};
ghost use Rattle.qs_telling.specs.Summaries.{summary};

use crate::blocks::{append_limit, append_number};
use qs_cascade::{StageEnd, stage_by};
use qs_deck::made;
use qs_worker::{Crew, Grammar};
use std::alloc::{AllocError, Global};

/// What the grammar of the made deck of this size leaves of its graph. The crew makes the run.
pub fn made_end<C: Crew>(
    alloc: Global,
    crew: &C,
    size: u32,
    limit: u32,
) -> Result<StageEnd, AllocError>
    requires crew { C.ready crew.now }
    requires limit { IsLimit limit }
    requires size { size ≤ 13 }
    ensures { IfOk result (λ end. IsStageEnd ((made_grammar size).rules) (made_graph size) limit end) }
{
    let deck = made(alloc, size)?;
    let grammar = Grammar::new(alloc, &deck.systems[0].rules)?;
    stage_by(alloc, crew, &grammar, &deck.graph, limit)
}

/// Appends the firings and the arcs that are left, with a stop behind them.
fn append_counts(
    alloc: Global,
    firings: u32,
    arcs: u32,
    out: &mut Vec<u8>,
) -> Result<(), AllocError>
    ensures { OnOk result (out.new.items ≡ out.old.items ++ counts_text firings arcs) }
{
    append_number(alloc, firings, out)?;
    out.extend_from_slice(b" ")?;
    append_number(alloc, arcs, out)?;
    out.extend_from_slice(b".")?;
    Ok(())
}

/// The line of the size, the number of words, the firings and the arcs that are left.
fn summary_line(alloc: Global, size: u32, firings: u32, arcs: u32) -> Result<Vec<u8>, AllocError>
    requires { size ≤ 13 }
    ensures { IfOk result (λ line. line.items ≡ summary_line size (2 ^ size) firings arcs) }
{
    let mut line = b"-FAIT- ".to_vec(alloc)?;
    append_number(alloc, size, &mut line)?;
    line.extend_from_slice(b" ")?;
    append_number(alloc, 2_u32.pow(size), &mut line)?;
    line.extend_from_slice(b" ")?;
    append_counts(alloc, firings, arcs, &mut line)?;
    line.extend_from_slice(b"\n")?;
    Ok(line)
}

/// The line that tells what the grammar of the made deck of this size left, with this limit.
pub fn summary(alloc: Global, size: u32, limit: u32, end: &StageEnd) -> Result<Vec<u8>, AllocError>
    requires { size ≤ 13 }
    ensures { IfOk result (λ text. text.items ≡ summary limit size (left_of end.now)) }
{
    match end {
        StageEnd::Left { graph, firings } => {
            summary_line(alloc, size, *firings, graph.edges().len() as u32)
        }
        StageEnd::Empty { firings } => summary_line(alloc, size, *firings, 0),
        StageEnd::Over => {
            let mut line = Vec::new(alloc);
            append_limit(alloc, limit, &mut line)?;
            Ok(line)
        }
    }
}
