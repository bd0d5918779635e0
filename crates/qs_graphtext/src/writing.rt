//! Writing graphs and their arcs.

ghost use Rattle.std.specs.Prelude.{◌≡◌, ◌++◌, OnOk, OnErr, length, take, decimal, flat_map};
ghost use Rattle.qs_tree.specs.Text.{IsNamed};
ghost use Rattle.qs_graphtext.specs.Texts.{node_mark, arc_line, graph_text, AreArcsNamed};

use qs_graph::{Edge, Graph};
use qs_tree::{Names, write_tree};
use std::alloc::{AllocError, Global};

/// Appends the graph as it is written: `-GRAPHE-`, a line `-from- tree -to-.` for each arc in order, and `-FIN-`, each
/// line with a line feed. Its labels are those of `names`. After `Memory`, `out` is as before.
pub fn write_graph(
    alloc: Global,
    graph: &Graph,
    names: &Names,
    out: &mut Vec<u8>,
) -> Result<(), AllocError>
    requires { AreArcsNamed (length names.now) graph.now.arcs }
    ensures ok { OnOk result (out.new.items ≡ out.old.items ++ graph_text names.now graph.now) }
    ensures err { OnErr result (out.new.items ≡ out.old.items) }
{
    let before = out.len();
    let written = append_graph(alloc, names, graph, out);
    if written.is_err() {
        out.truncate(before);
    }
    written
}

/// Appends the arc as it is written in a graph: a line `-from- tree -to-.` with a line feed. The labels of its tree are
/// those of `names`. After `Memory`, `out` is as before.
pub fn write_arc(
    alloc: Global,
    names: &Names,
    arc: &Edge,
    out: &mut Vec<u8>,
) -> Result<(), AllocError>
    requires { IsNamed (length names.now) arc.now.tree }
    ensures ok { OnOk result (out.new.items ≡ out.old.items ++ arc_line names.now arc.now) }
    ensures err { OnErr result (out.new.items ≡ out.old.items) }
{
    let before = out.len();
    let written = append_arc(alloc, names, arc, out);
    if written.is_err() {
        out.truncate(before);
    }
    written
}

// Appends the lines of the graph. After an error, a part of them may stand in `out`.
fn append_graph(
    alloc: Global,
    names: &Names,
    graph: &Graph,
    out: &mut Vec<u8>,
) -> Result<(), AllocError>
    requires { AreArcsNamed (length names.now) graph.now.arcs }
    ensures ok { OnOk result (out.new.items ≡ out.old.items ++ graph_text names.now graph.now) }
    ensures err { OnErr result (take (length out.old.items) out.new.items ≡ out.old.items) }
{
    out.extend_from_slice(b"-GRAPHE-\n")?;
    append_arcs(alloc, names, graph.edges(), out)?;
    out.extend_from_slice(b"-FIN-\n")?;
    Ok(())
}

// Appends the lines of the arcs. After an error, a part of them may stand in `out`.
fn append_arcs(
    alloc: Global,
    names: &Names,
    arcs: &[Edge],
    out: &mut Vec<u8>,
) -> Result<(), AllocError>
    requires { AreArcsNamed (length names.now) arcs.now }
    ensures ok { OnOk result (out.new.items ≡ out.old.items ++ flat_map (arc_line names.now) arcs.now) }
    ensures err { OnErr result (take (length out.old.items) out.new.items ≡ out.old.items) }
{
    for arc in arcs {
        append_arc(alloc, names, arc, out)?;
    }
    Ok(())
}

// Appends the line of the arc. After an error, a part of it may stand in `out`.
fn append_arc(alloc: Global, names: &Names, arc: &Edge, out: &mut Vec<u8>) -> Result<(), AllocError>
    requires { IsNamed (length names.now) arc.now.tree }
    ensures ok { OnOk result (out.new.items ≡ out.old.items ++ arc_line names.now arc.now) }
    ensures err { OnErr result (take (length out.old.items) out.new.items ≡ out.old.items) }
{
    append_mark(alloc, arc.from, out)?;
    out.extend_from_slice(b" ")?;
    write_tree(alloc, names, arc.tree.view(), out)?;
    out.extend_from_slice(b" ")?;
    append_mark(alloc, arc.to, out)?;
    out.extend_from_slice(b".\n")?;
    Ok(())
}

// Appends the mark of the node: `-12-`. After an error, a part of it may stand in `out`.
fn append_mark(alloc: Global, node: u32, out: &mut Vec<u8>) -> Result<(), AllocError>
    ensures ok { OnOk result (out.new.items ≡ out.old.items ++ node_mark node) }
    ensures err { OnErr result (take (length out.old.items) out.new.items ≡ out.old.items) }
{
    let digits = node.to_string(alloc)?;
    out.extend_from_slice(b"-")?;
    out.extend_from_slice(digits.as_bytes())?;
    out.extend_from_slice(b"-")?;
    Ok(())
}
