//! Telling the readings of a graph.

ghost use Rattle.std.specs.Prelude.{◌≡◌, ◌<◌, ◌≤◌, ◌++◌, ℕ, List, OnOk, flat_map, length, map};
ghost use Rattle.qs_tree.specs.Lists.{◌∈◌};
ghost use Rattle.qs_tree.specs.Text.{IsNamed};
ghost use Rattle.qs_graphtext.specs.Texts.{AreArcsNamed};
ghost use Rattle.qs_telling.specs.PhraseTexts.{TellsReadings, more_line, reading_line};
ghost use Rattle.qs_telling.specs.Telling.{IsAppended};
ghost use Rattle.qs_telling.specs.working.Phrasing.{next_tree};

use qs_graph::{Edge, Graph};
use qs_phrase::readings;
use qs_tree::{Names, write_tree};
use std::alloc::{AllocError, Global};

/// Appends the first `most` readings of the graph, each on its line, and whether there are more.
pub fn append_readings(
    alloc: Global,
    names: &Names,
    graph: &Graph,
    most: u32,
    out: &mut Vec<u8>,
) -> Result<(), AllocError>
    requires most { 1 ≤ most }
    requires named { AreArcsNamed (length names.now) graph.now.arcs }
    ensures { OnOk result (IsAppended (TellsReadings most names.now graph.now) out.old.items out.new.items) }
{
    let list = readings(alloc, graph, most)?;
    append_paths(alloc, names, graph.edges(), &list.paths, out)?;
    append_more(list.more, out)?;
    Ok(())
}

/// Appends that there are more readings, where there are.
fn append_more(more: bool, out: &mut Vec<u8>) -> Result<(), AllocError>
    ensures { OnOk result (out.new.items ≡ out.old.items ++ more_line more) }
{
    if more {
        out.extend_from_slice(b"-SUITE-.\n")?;
    }
    Ok(())
}

/// Appends these readings, each on its line.
fn append_paths(
    alloc: Global,
    names: &Names,
    arcs: &[Edge],
    paths: &[Vec<u32>],
    out: &mut Vec<u8>,
) -> Result<(), AllocError>
    requires within { (path : List ℕ) → path ∈ map (λ p. p.items) paths.now
        → (k : ℕ) → k ∈ path → k < length arcs.now }
    requires named { AreArcsNamed (length names.now) arcs.now }
    ensures { OnOk result (out.new.items
        ≡ out.old.items ++ flat_map (reading_line names.now arcs.now) (map (λ p. p.items) paths.now)) }
{
    for path in paths {
        append_reading(alloc, names, arcs, path, out)?;
    }
    Ok(())
}

/// Appends the line of a reading.
fn append_reading(
    alloc: Global,
    names: &Names,
    arcs: &[Edge],
    path: &[u32],
    out: &mut Vec<u8>,
) -> Result<(), AllocError>
    requires within { (k : ℕ) → k ∈ path.now → k < length arcs.now }
    requires named { AreArcsNamed (length names.now) arcs.now }
    ensures { OnOk result (out.new.items ≡ out.old.items ++ reading_line names.now arcs.now path.now) }
{
    for (place, arc) in path.iter().enumerate() {
        append_next(alloc, names, place > 0, &arcs[*arc as usize], out)?;
    }
    out.push(b'\n')?;
    Ok(())
}

/// Appends the tree of an arc, behind a space where others stand before it.
fn append_next(
    alloc: Global,
    names: &Names,
    behind: bool,
    arc: &Edge,
    out: &mut Vec<u8>,
) -> Result<(), AllocError>
    requires { IsNamed (length names.now) arc.now.tree }
    ensures { OnOk result (out.new.items ≡ out.old.items ++ next_tree names.now behind arc.now.tree) }
{
    if behind {
        out.push(b' ')?;
    }
    write_tree(alloc, names, arc.tree.view(), out)
}
