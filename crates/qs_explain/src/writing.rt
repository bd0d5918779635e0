//! Writing supports.

ghost use Rattle.std.specs.Prelude.{◌≡◌, ◌<◌, ◌-◌, ◌^◌, ◌++◌, OnOk, OnErr, ℕ, length, take, drop, decimal, flat_map};
ghost use Rattle.std.specs.Prelude.{codes};
ghost use Rattle.qs_tree.specs.Lists.{◌∈◌};
ghost use Rattle.qs_tree.specs.Text.{IsNamed};
ghost use Rattle.qs_graphtext.specs.Texts.{AreArcsNamed, arc_line, line};
ghost use Rattle.qs_firing.specs.Adding.{from_on};
ghost use Rattle.qs_clean.specs.Cleaning.{IsClosureOfValid};
ghost use Rattle.qs_explain.specs.Support.{IsSupport, next_first, added_at};
ghost use Rattle.qs_explain.specs.Texts.{arc_comment, numbers_text, firing_comment, support_text};
ghost use Rattle.qs_explain.specs.working.Numbers.{next_number};

use crate::support::Support;
use qs_canon::{Closure, Placed};
use qs_firing::Firing;
use qs_graph::Edge;
use qs_graphtext::write_arc;
use qs_tree::Names;
use std::alloc::{AllocError, Global};

/// Appends the support of a closure over a valid graph, in the closure's numbers: a line `# arc 3 -1- S(NP,VP) -2-.`
/// for each arc, and then a line `# rule 0 on 0,1 gives 3.` for each firing, with its path and the arcs that it added.
/// Rules count from 0. Each line ends with one line feed. The labels are those of `names`. After `Memory`, `out` is as
/// before.
pub fn write_support(
    alloc: Global,
    closure: &Closure,
    support: &Support,
    names: &Names,
    out: &mut Vec<u8>,
) -> Result<(), AllocError>
    requires closure { IsClosureOfValid closure.now }
    requires support { IsSupport closure.now.stage support.now }
    requires names { AreArcsNamed (length names.now) closure.now.stage.graph.arcs }
    ensures ok { OnOk result (out.new.items
        ≡ out.old.items ++ support_text names.now closure.now.stage support.now) }
    ensures err { OnErr result (out.new.items ≡ out.old.items) }
{
    let before = out.len();
    let written = append_support(alloc, closure, support, names, out);
    if written.is_err() {
        out.truncate(before);
    }
    written
}

// Appends the lines of a support. After an error, a part of them may stand in `out`.
fn append_support(
    alloc: Global,
    closure: &Closure,
    support: &Support,
    names: &Names,
    out: &mut Vec<u8>,
) -> Result<(), AllocError>
    requires closure { IsClosureOfValid closure.now }
    requires support { IsSupport closure.now.stage support.now }
    requires names { AreArcsNamed (length names.now) closure.now.stage.graph.arcs }
    ensures ok { OnOk result (out.new.items
        ≡ out.old.items ++ support_text names.now closure.now.stage support.now) }
    ensures err { OnErr result (take (length out.old.items) out.new.items ≡ out.old.items) }
{
    append_arcs(alloc, names, closure, &support.arcs, out)?;
    append_firings(alloc, closure, &support.firings, out)?;
    Ok(())
}

// Appends the lines of arcs. After an error, a part of them may stand in `out`.
fn append_arcs(
    alloc: Global,
    names: &Names,
    closure: &Closure,
    arcs: &[u32],
    out: &mut Vec<u8>,
) -> Result<(), AllocError>
    requires within { (k : ℕ) → k ∈ arcs.now → k < length closure.now.stage.graph.arcs }
    requires names { AreArcsNamed (length names.now) closure.now.stage.graph.arcs }
    ensures ok { OnOk result (out.new.items
        ≡ out.old.items ++ flat_map (arc_comment names.now closure.now.stage) arcs.now) }
    ensures err { OnErr result (take (length out.old.items) out.new.items ≡ out.old.items) }
{
    for arc in arcs {
        append_arc(alloc, names, *arc, &closure.edges[*arc as usize], out)?;
    }
    Ok(())
}

// Appends the line of an arc with its number. After an error, a part of it may stand in `out`.
fn append_arc(
    alloc: Global,
    names: &Names,
    number: u32,
    edge: &Edge,
    out: &mut Vec<u8>,
) -> Result<(), AllocError>
    requires { IsNamed (length names.now) edge.now.tree }
    ensures ok { OnOk result (out.new.items ≡ out.old.items
        ++ (codes "# arc " ++ (decimal number ++ (codes " " ++ arc_line names.now edge.now)))) }
    ensures err { OnErr result (take (length out.old.items) out.new.items ≡ out.old.items) }
{
    out.extend_from_slice(b"# arc ")?;
    append_number(alloc, number, out)?;
    out.extend_from_slice(b" ")?;
    write_arc(alloc, names, edge, out)?;
    Ok(())
}

// Appends the lines of the firings at these places. After an error, a part of them may stand in `out`.
fn append_firings(
    alloc: Global,
    closure: &Closure,
    places: &[u32],
    out: &mut Vec<u8>,
) -> Result<(), AllocError>
    requires few { length closure.now.stage.graph.arcs < 2 ^ 32 }
    requires added { (i : ℕ) → i ∈ places.now → (k : ℕ) × (k ∈ added_at closure.now.stage i) }
    ensures ok { OnOk result (out.new.items
        ≡ out.old.items ++ flat_map (firing_comment closure.now.stage) places.now) }
    ensures err { OnErr result (take (length out.old.items) out.new.items ≡ out.old.items) }
{
    let arcs = closure.edges.len() as u32;
    for place in places {
        let place = *place as usize;
        let behind = next_first(arcs, &closure.firings, place + 1);
        append_firing(alloc, &closure.firings[place], behind, out)?;
    }
    Ok(())
}

// The first arc of the first firing from this place on that met none; where there is none, the number of arcs.
fn next_first(arcs: u32, firings: &[Placed], from: usize) -> u32
    ensures { result ≡ next_first arcs (drop from firings.now) }
{
    for place in from..firings.len() {
        let placed = &firings[place];
        if !placed.met {
            return placed.first;
        }
    }
    arcs
}

// Appends the line of a firing that added the arcs from its first one up to `behind`, and without it. After an error, a
// part of it may stand in `out`.
fn append_firing(
    alloc: Global,
    placed: &Placed,
    behind: u32,
    out: &mut Vec<u8>,
) -> Result<(), AllocError>
    ensures ok { OnOk result (out.new.items ≡ out.old.items ++ line (codes "# rule "
        ++ (decimal placed.now.firing.rule ++ (codes " on " ++ (numbers_text placed.now.firing.path ++ (codes " gives "
        ++ (numbers_text (from_on placed.now.first (behind - placed.now.first)) ++ codes "."))))))) }
    ensures err { OnErr result (take (length out.old.items) out.new.items ≡ out.old.items) }
{
    append_use(alloc, &placed.firing, out)?;
    out.extend_from_slice(b" gives ")?;
    append_range(alloc, placed.first, behind, out)?;
    out.extend_from_slice(b".\n")?;
    Ok(())
}

// Appends the beginning of a firing's line: its rule and the arcs of its path. After an error, a part of it may stand
// in `out`.
fn append_use(alloc: Global, firing: &Firing, out: &mut Vec<u8>) -> Result<(), AllocError>
    ensures ok { OnOk result (out.new.items ≡ out.old.items
        ++ (codes "# rule " ++ (decimal firing.now.rule ++ (codes " on " ++ numbers_text firing.now.path)))) }
    ensures err { OnErr result (take (length out.old.items) out.new.items ≡ out.old.items) }
{
    out.extend_from_slice(b"# rule ")?;
    append_number(alloc, firing.rule, out)?;
    out.extend_from_slice(b" on ")?;
    append_numbers(alloc, &firing.path, out)?;
    Ok(())
}

// Appends these numbers, with a comma between two. After an error, a part of them may stand in `out`.
fn append_numbers(alloc: Global, numbers: &[u32], out: &mut Vec<u8>) -> Result<(), AllocError>
    ensures ok { OnOk result (out.new.items ≡ out.old.items ++ numbers_text numbers.now) }
    ensures err { OnErr result (take (length out.old.items) out.new.items ≡ out.old.items) }
{
    for (place, number) in numbers.iter().enumerate() {
        append_next(alloc, place > 0, *number, out)?;
    }
    Ok(())
}

// Appends the numbers from the one up to the other, and without it, with a comma between two. After an error, a part of
// them may stand in `out`.
fn append_range(alloc: Global, from: u32, to: u32, out: &mut Vec<u8>) -> Result<(), AllocError>
    ensures ok { OnOk result (out.new.items ≡ out.old.items ++ numbers_text (from_on from (to - from))) }
    ensures err { OnErr result (take (length out.old.items) out.new.items ≡ out.old.items) }
{
    for number in from..to {
        append_next(alloc, number > from, number, out)?;
    }
    Ok(())
}

// Appends a number, behind a comma where others stand before it. After an error, a part of it may stand in `out`.
fn append_next(
    alloc: Global,
    behind: bool,
    number: u32,
    out: &mut Vec<u8>,
) -> Result<(), AllocError>
    ensures ok { OnOk result (out.new.items ≡ out.old.items ++ next_number behind number) }
    ensures err { OnErr result (take (length out.old.items) out.new.items ≡ out.old.items) }
{
    if behind {
        out.push(b',')?;
    }
    append_number(alloc, number, out)
}

// Appends the number in decimal. After an error, a part of it may stand in `out`.
fn append_number(alloc: Global, number: u32, out: &mut Vec<u8>) -> Result<(), AllocError>
    ensures ok { OnOk result (out.new.items ≡ out.old.items ++ decimal number) }
    ensures err { OnErr result (take (length out.old.items) out.new.items ≡ out.old.items) }
{
    let digits = number.to_string(alloc)?;
    out.extend_from_slice(digits.as_bytes())?;
    Ok(())
}
