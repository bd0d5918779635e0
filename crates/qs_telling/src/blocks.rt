//! Writing the block of a grammar.

ghost use Rattle.std.specs.Prelude.{◌≡◌, ◌<◌, ◌++◌, IfOk, OnOk, length, decimal};
ghost use Rattle.qs_cascade.specs.Stages.{IsEndNamed};
ghost use Rattle.qs_telling.specs.Texts.{title_line, counted_line, limit_line};
ghost use Rattle.qs_telling.specs.Outcomes.{block};
ghost use Rattle.qs_telling.specs.Ends.{left_of};

use qs_cascade::StageEnd;
use qs_graphtext::write_graph;
use qs_tree::{Label, Names, write_label};
use std::alloc::{AllocError, Global};

/// Appends the number in decimal.
pub fn append_number(alloc: Global, number: u32, out: &mut Vec<u8>) -> Result<(), AllocError>
    ensures { OnOk result (out.new.items ≡ out.old.items ++ decimal number) }
{
    let digits = number.to_string(alloc)?;
    out.extend_from_slice(digits.as_bytes())?;
    Ok(())
}

/// Appends the line that tells that the limit was met.
pub fn append_limit(alloc: Global, limit: u32, out: &mut Vec<u8>) -> Result<(), AllocError>
    ensures { OnOk result (out.new.items ≡ out.old.items ++ limit_line limit) }
{
    out.extend_from_slice(b"-LIMITE- ")?;
    append_number(alloc, limit, out)?;
    out.extend_from_slice(b".\n")?;
    Ok(())
}

/// The first line of a block behind a closure.
fn counted_line(
    alloc: Global,
    names: &Names,
    name: Label,
    firings: u32,
) -> Result<Vec<u8>, AllocError>
    requires { name.0 < length names.now }
    ensures { IfOk result (λ line. line.items ≡ counted_line names.now name firings) }
{
    let mut line = Vec::new(alloc);
    line.extend_from_slice(b"# ")?;
    write_label(names, name, &mut line)?;
    line.extend_from_slice(b" ")?;
    append_number(alloc, firings, &mut line)?;
    line.extend_from_slice(b"\n")?;
    Ok(line)
}

/// The first line of a block where the limit was met.
fn title_line(alloc: Global, names: &Names, name: Label) -> Result<Vec<u8>, AllocError>
    requires { name.0 < length names.now }
    ensures { IfOk result (λ line. line.items ≡ title_line names.now name) }
{
    let mut line = Vec::new(alloc);
    line.extend_from_slice(b"# ")?;
    write_label(names, name, &mut line)?;
    line.extend_from_slice(b"\n")?;
    Ok(line)
}

/// The block of a grammar with this name, by what it left.
pub fn block(
    alloc: Global,
    names: &Names,
    name: Label,
    limit: u32,
    end: &StageEnd,
) -> Result<Vec<u8>, AllocError>
    requires name { name.0 < length names.now }
    requires left { IsEndNamed (length names.now) end.now }
    ensures { IfOk result (λ text. text.items ≡ block limit names.now name (left_of end.now)) }
{
    match end {
        StageEnd::Left { graph, firings } => {
            let mut text = counted_line(alloc, names, name, *firings)?;
            write_graph(alloc, graph, names, &mut text)?;
            Ok(text)
        }
        StageEnd::Empty { firings } => {
            let mut text = counted_line(alloc, names, name, *firings)?;
            text.extend_from_slice(b"-VIDE-.\n")?;
            Ok(text)
        }
        StageEnd::Over => {
            let mut text = title_line(alloc, names, name)?;
            append_limit(alloc, limit, &mut text)?;
            Ok(text)
        }
    }
}
