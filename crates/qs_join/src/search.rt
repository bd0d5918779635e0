//! The search for the firings whose path has an arc at a place of a rule's left side: from that arc to the left, and
//! then to the right. It recurses over the places of the side, of which there are at most 16.

ghost use Rattle.std.specs.Prelude.{◌≡◌, ◌<◌, ◌≤◌, ◌+◌, ◌∷◌, ◌++◌, [], ℕ, List, length, OnOk, slice_get, Some};
ghost use Rattle.std.specs.Prelude.{true, false, IfOk};
ghost use Rattle.qs_tree.specs.Lists.{◌∈◌};
ghost use Rattle.qs_tree.specs.Trees.{Tree};
ghost use Rattle.qs_pattern.specs.Patterns.{count};
ghost use Rattle.qs_pattern.specs.Substitutions.{Substitution};
ghost use Rattle.qs_pattern.specs.Instances.{IsMatch};
ghost use Rattle.qs_graph.specs.Graphs.{IsPath, trees_on};
ghost use Rattle.qs_firing.specs.Firings.{Firing as FiringOfRule};
ghost use Rattle.qs_firing.specs.Neighbours.{starts, ends};
ghost use Rattle.qs_join.specs.working.Searching.{AreUpTo, FiresBy, Through, Finds};
ghost use Rattle.qs_join.specs.working.Matching.{HasValues};

use qs_firing::{Firing, View, is_allowed};
use qs_match::{all_matches_apart, can_stand_for};
use qs_pattern::{Rule, Subst};
use qs_tree::TreeRef;
use std::alloc::{AllocError, Global};

/// Where firings are looked for: a rule and its number, the arcs, and the greatest of them that a path may have.
#[derive(Clone, Copy)]
pub struct Search<'a> {
    pub number: u32,
    pub rule: &'a Rule,
    pub view: &'a View,
    pub newest: u32,
}

// Whether an arc may be at this place of a path: it isn't greater than the newest one, and the pattern there can stand
// for its tree. Where it says no, no firing's path has it there.
fn can_stand(search: &Search<'_>, place: usize, arc: u32) -> bool
    requires arc { arc < length search.now.view.now }
    requires place { place < count search.now.rule.now.left }
    ensures low { result ≡ true → arc ≤ search.now.newest }
    ensures never { result ≡ false → (f : FiringOfRule)
        → FiresBy search.now.number search.now.rule.now search.now.view.now f → AreUpTo search.now.newest f.path
        → slice_get f.path place ≡ Some arc → ⊥ }
{
    if arc > search.newest {
        return false;
    }
    let tree = search.view.edge(arc).tree.view();
    can_stand_for(&search.rule.left()[place], tree)
}

// Appends the firings of the rule on a path, one for each of these matches that its condition allows.
fn add_matches(
    alloc: Global,
    search: &Search<'_>,
    path: &[u32],
    matches: Vec<Subst>,
    found: &mut Vec<Firing>,
) -> Result<(), AllocError>
    requires { (trees : List Tree)
        × ((s : Substitution) → s ∈ matches.items → IsMatch search.now.rule.now.left trees s) }
    ensures { OnOk result (Finds (HasValues search.now.number search.now.rule.now path.now matches.items)
        found.old.items found.new.items) }
{
    for subst in matches {
        if !is_allowed(alloc, search.rule, &subst)? {
            continue;
        }
        let path = Vec::from_slice(alloc, path)?;
        found.push(Firing {
            rule: search.number,
            path,
            subst,
        })?;
    }
    Ok(())
}

// The matches of the rule's left side with the trees on a path, which is as long as the side. No tree is copied; the
// buffer, whose trees don't matter, is filled with those on the path.
fn matches_on<'a>(
    alloc: Global,
    search: &Search<'a>,
    path: &[u32],
    trees: &mut Vec<TreeRef<'a>>,
) -> Result<Vec<Subst>, AllocError>
    requires path { (a : ℕ) × (b : ℕ) × IsPath search.now.view.now a path.now b }
    requires long { length path.now ≡ count search.now.rule.now.left }
    ensures sound { IfOk result (λ v. (s : Substitution) → s ∈ v.items
        → IsMatch search.now.rule.now.left (trees_on search.now.view.now path.now) s) }
    ensures all { IfOk result (λ v. (s : Substitution)
        → IsMatch search.now.rule.now.left (trees_on search.now.view.now path.now) s → s ∈ v.items) }
{
    trees.clear();
    for arc in path {
        trees.push(search.view.edge(*arc).tree.view())?;
    }
    all_matches_apart(alloc, search.rule.left(), trees)
}

// The firings on a path that is as long as the rule's left side.
fn fire<'a>(
    alloc: Global,
    search: &Search<'a>,
    path: &[u32],
    trees: &mut Vec<TreeRef<'a>>,
    found: &mut Vec<Firing>,
) -> Result<(), AllocError>
    requires path { (a : ℕ) × (b : ℕ) × IsPath search.now.view.now a path.now b }
    requires few { AreUpTo search.now.newest path.now }
    requires long { length path.now ≡ count search.now.rule.now.left }
    ensures { OnOk result (Finds (Through search.now.number search.now.rule.now search.now.view.now search.now.newest 0
        path.now) found.old.items found.new.items) }
{
    let matches = matches_on(alloc, search, path, trees)?;
    add_matches(alloc, search, path, matches, found)
}

// The firings whose path begins with this one, which ends at the node `at`. The path is given back as it was.
#[cycle(right)]
fn extend_right<'a>(
    alloc: Global,
    search: &Search<'a>,
    at: u32,
    path: &mut Vec<u32>,
    trees: &mut Vec<TreeRef<'a>>,
    found: &mut Vec<Firing>,
) -> Result<(), AllocError>
    requires path { (a : ℕ) × IsPath search.now.view.now a path.old.items at }
    requires few { AreUpTo search.now.newest path.old.items }
    requires short { length path.old.items ≤ count search.now.rule.now.left }
    ensures found { OnOk result (Finds (Through search.now.number search.now.rule.now search.now.view.now
        search.now.newest 0 path.old.items) found.old.items found.new.items) }
    ensures path { OnOk result (path.new.items ≡ path.old.items) }
{
    if path.len() == search.rule.left().len() {
        return fire(alloc, search, path, trees, found);
    }
    let mut next = search.view.last_out(at);
    while let Some(arc) = next {
        step_right(alloc, search, arc, path, trees, found)?;
        next = search.view.before_out(arc);
    }
    Ok(())
}

// The same for the path with this arc behind it.
#[cycle(right)]
fn step_right<'a>(
    alloc: Global,
    search: &Search<'a>,
    arc: u32,
    path: &mut Vec<u32>,
    trees: &mut Vec<TreeRef<'a>>,
    found: &mut Vec<Firing>,
) -> Result<(), AllocError>
    requires path { (a : ℕ) × (b : ℕ) × IsPath search.now.view.now a path.old.items b
        × (slice_get (starts search.now.view.now) arc ≡ Some b) }
    requires few { AreUpTo search.now.newest path.old.items }
    requires short { length path.old.items < count search.now.rule.now.left }
    ensures found { OnOk result (Finds (Through search.now.number search.now.rule.now search.now.view.now
        search.now.newest 0 (path.old.items ++ arc ∷ [])) found.old.items found.new.items) }
    ensures path { OnOk result (path.new.items ≡ path.old.items) }
{
    if !can_stand(search, path.len(), arc) {
        return Ok(());
    }
    let edge = search.view.edge(arc);
    path.push(arc)?;
    extend_right(alloc, search, edge.to, path, trees, found)?;
    path.pop();
    Ok(())
}

// The firings whose path goes on with this one behind `before` arcs; it leads from one node to the other. The path is
// given back as it was.
#[cycle(left)]
fn extend_left<'a>(
    alloc: Global,
    search: &Search<'a>,
    before: usize,
    from: u32,
    to: u32,
    path: &mut Vec<u32>,
    trees: &mut Vec<TreeRef<'a>>,
    found: &mut Vec<Firing>,
) -> Result<(), AllocError>
    requires path { IsPath search.now.view.now from path.old.items to }
    requires few { AreUpTo search.now.newest path.old.items }
    requires short { before + length path.old.items ≤ count search.now.rule.now.left }
    ensures found { OnOk result (Finds (Through search.now.number search.now.rule.now search.now.view.now
        search.now.newest before path.old.items) found.old.items found.new.items) }
    ensures path { OnOk result (path.new.items ≡ path.old.items) }
{
    if before == 0 {
        return extend_right(alloc, search, to, path, trees, found);
    }
    let mut next = search.view.last_in(from);
    while let Some(arc) = next {
        step_left(alloc, search, before - 1, arc, to, path, trees, found)?;
        next = search.view.before_in(arc);
    }
    Ok(())
}

// The same for the path with this arc in front of it.
#[cycle(left)]
fn step_left<'a>(
    alloc: Global,
    search: &Search<'a>,
    before: usize,
    arc: u32,
    to: u32,
    path: &mut Vec<u32>,
    trees: &mut Vec<TreeRef<'a>>,
    found: &mut Vec<Firing>,
) -> Result<(), AllocError>
    requires path { (a : ℕ) × IsPath search.now.view.now a path.old.items to
        × (slice_get (ends search.now.view.now) arc ≡ Some a) }
    requires few { AreUpTo search.now.newest path.old.items }
    requires short { before + length path.old.items < count search.now.rule.now.left }
    ensures found { OnOk result (Finds (Through search.now.number search.now.rule.now search.now.view.now
        search.now.newest before (arc ∷ path.old.items)) found.old.items found.new.items) }
    ensures path { OnOk result (path.new.items ≡ path.old.items) }
{
    if !can_stand(search, before, arc) {
        return Ok(());
    }
    let edge = search.view.edge(arc);
    path.insert(0, arc)?;
    extend_left(alloc, search, before, edge.from, to, path, trees, found)?;
    path.remove(0);
    Ok(())
}

/// Appends the firings whose path has the newest arc at this place of the rule's left side. The buffer of the path is
/// empty before and after; what that of the trees holds doesn't matter.
pub fn find_at<'a>(
    alloc: Global,
    search: &Search<'a>,
    place: u32,
    buffer: &mut Vec<u32>,
    trees: &mut Vec<TreeRef<'a>>,
    found: &mut Vec<Firing>,
) -> Result<(), AllocError>
    requires newest { search.now.newest < length search.now.view.now }
    requires place { place < count search.now.rule.now.left }
    requires empty { buffer.old.items ≡ [] }
    ensures found { OnOk result (Finds (Through search.now.number search.now.rule.now search.now.view.now
        search.now.newest place (search.now.newest ∷ [])) found.old.items found.new.items) }
    ensures empty { OnOk result (buffer.new.items ≡ []) }
{
    if !can_stand(search, place as usize, search.newest) {
        return Ok(());
    }
    let edge = search.view.edge(search.newest);
    buffer.push(search.newest)?;
    extend_left(
        alloc,
        search,
        place as usize,
        edge.from,
        edge.to,
        buffer,
        trees,
        found,
    )?;
    buffer.pop();
    Ok(())
}
