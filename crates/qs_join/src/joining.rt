//! The work of one arc.

ghost use Rattle.std.specs.Prelude.{◌≡◌, ◌↔◌, ◌<◌, [], List, length, map, OnOk, IfOk, IsTrue};
ghost use Rattle.std.specs.Arc.{arc_value};
ghost use Rattle.qs_tree.specs.Lists.{◌∈◌};
ghost use Rattle.qs_tree.specs.Trees.{kids};
ghost use Rattle.qs_tree.specs.Cells.{tree_of};
ghost use Rattle.qs_pattern.specs.Limits.{rule_bound};
ghost use Rattle.qs_pattern.specs.Patterns.{patterns, NoForestAtTop};
ghost use Rattle.qs_pattern.specs.Instances.{inst, IsCovered};
ghost use Rattle.qs_pattern.specs.Rules.{AreLeftSidesInClass};
ghost use Rattle.qs_graph.specs.Graphs.{Arc as ArcOfGraph};
ghost use Rattle.qs_firing.specs.Firings.{Firing as FiringOfRule, Fires};
ghost use Rattle.qs_firing.specs.Adding.{built};
ghost use Rattle.qs_firing.specs.Work.{IsRightFor};
ghost use Rattle.qs_join.specs.Heads.{AreHeadsOf};
ghost use Rattle.qs_join.specs.working.Listing.{first_root_of};
ghost use Rattle.qs_join.specs.working.Searching.{ArePlaces, ThroughOne, Finds};
ghost use Rattle.qs_join.specs.working.Sorting.{NeverFalls, AreOfArc, Repeats, AreMade};

use crate::heads::Heads;
use crate::search::{Search, find_at};
use qs_firing::{Firing, Joined, Made, View, order};
use qs_pattern::{Pattern, Rule, Subst, one_instance};
use qs_tree::{Label, Tree, TreeRef};
use std::alloc::{AllocError, Global};
use std::cmp::Ordering;
use std::sync::Arc;

// Appends the firings whose path has the newest arc at one of these places. The buffer of the path is empty before and
// after; what that of the trees holds doesn't matter.
fn find_all<'a>(
    alloc: Global,
    rules: &'a [Rule],
    view: &'a View,
    newest: u32,
    places: &[(u32, u32)],
    buffer: &mut Vec<u32>,
    trees: &mut Vec<TreeRef<'a>>,
    found: &mut Vec<Firing>,
) -> Result<(), AllocError>
    requires newest { newest < length view.now }
    requires places { ArePlaces rules.now places.now }
    requires empty { buffer.old.items ≡ [] }
    ensures found { OnOk result (Finds (ThroughOne rules.now view.now newest places.now) found.old.items
        found.new.items) }
    ensures empty { OnOk result (buffer.new.items ≡ []) }
{
    for place in places {
        let search = Search {
            number: place.0,
            rule: &rules[place.0 as usize],
            view,
            newest,
        };
        find_at(alloc, &search, place.1, buffer, trees, found)?;
    }
    Ok(())
}

// The root of a tree's first subtree. None where it has no subtree.
fn first_root(tree: TreeRef<'_>) -> Option<Label>
    ensures { result ≡ first_root_of (kids (tree_of tree.entry.cells.now)) }
{
    match tree.kids().first_rest() {
        Some((first, _)) => Some(first.root()),
        None => None,
    }
}

// The firings whose greatest arc is the newest one, in the order in which they are found.
fn found_of(
    alloc: Global,
    rules: &[Rule],
    heads: &Heads,
    view: &View,
    newest: u32,
) -> Result<Vec<Firing>, AllocError>
    requires heads { AreHeadsOf rules.now heads.now }
    requires newest { newest < length view.now }
    ensures { IfOk result (λ v. AreOfArc rules.now view.now newest v.items) }
{
    let mut found = Vec::new(alloc);
    let mut buffer = Vec::new(alloc);
    let mut trees = Vec::new(alloc);
    let tree = view.edge(newest).tree.view();
    let root = tree.root();
    let first = first_root(tree);
    find_all(
        alloc,
        rules,
        view,
        newest,
        heads.narrow(root, first),
        &mut buffer,
        &mut trees,
        &mut found,
    )?;
    find_all(
        alloc,
        rules,
        view,
        newest,
        heads.broad(root),
        &mut buffer,
        &mut trees,
        &mut found,
    )?;
    find_all(
        alloc,
        rules,
        view,
        newest,
        heads.wild(),
        &mut buffer,
        &mut trees,
        &mut found,
    )?;
    Ok(found)
}

// The firings, sorted by their keys.
fn sorted(firings: Vec<Firing>) -> Result<Vec<Firing>, AllocError>
    ensures rises { IfOk result (λ v. NeverFalls v.items) }
    ensures members { IfOk result (λ v. (f : FiringOfRule) → (f ∈ v.items → f ∈ firings.items)
        × (f ∈ firings.items → f ∈ v.items)) }
{
    let mut firings = firings;
    firings.sort_by(|a, b| order(a, b))?;
    Ok(firings)
}

// The trees that a side stands for, each with one owner.
fn owned_instance(
    alloc: Global,
    side: &[Pattern],
    subst: &Subst,
) -> Result<Vec<Arc<Tree>>, AllocError>
    requires single { NoForestAtTop (patterns side.now) }
    requires covered { IsCovered subst.now (patterns side.now) }
    ensures { IfOk result (λ v. map (λ t. arc_value t) v.items ≡ inst subst.now (patterns side.now)) }
{
    let mut trees = Vec::with_capacity(alloc, side.len())?;
    for pattern in side {
        let tree = one_instance(alloc, pattern, subst)?;
        let tree = Arc::new(alloc, tree)?;
        trees.push(tree)?;
    }
    Ok(trees)
}

// The trees that a firing builds.
fn built(alloc: Global, rules: &[Rule], firing: &Firing) -> Result<Vec<Arc<Tree>>, AllocError>
    requires { (arcs : List ArcOfGraph) × Fires rules.now arcs firing.now }
    ensures { IfOk result (λ v. map (λ t. arc_value t) v.items ≡ built rules.now firing.now) }
{
    let rule = &rules[firing.rule as usize];
    owned_instance(alloc, rule.right(), &firing.subst)
}

// Whether the firing is the last one once more.
fn is_repeated(made: &[Made], firing: &Firing) -> bool
    ensures { IsTrue result ↔ Repeats made.now firing.now }
{
    match made.last() {
        Some(last) => order(&last.firing, firing) == Ordering::Equal,
        None => false,
    }
}

// Each of the sorted firings once, with the trees that it builds.
fn made_of(alloc: Global, rules: &[Rule], firings: Vec<Firing>) -> Result<Vec<Made>, AllocError>
    requires in_class { AreLeftSidesInClass rules.now }
    requires fire { (arcs : List ArcOfGraph) × ((f : FiringOfRule) → f ∈ firings.items → Fires rules.now arcs f) }
    requires rises { NeverFalls firings.items }
    ensures { IfOk result (λ v. AreMade rules.now firings.items v.items) }
{
    let mut made = Vec::with_capacity(alloc, firings.len())?;
    for firing in firings {
        if is_repeated(&made, &firing) {
            continue;
        }
        let trees = built(alloc, rules, &firing)?;
        let firing = Arc::new(alloc, firing)?;
        made.push(Made { firing, trees })?;
    }
    Ok(made)
}

/// The work of the newest arc over the arcs up to it, with the trees that its firings build: the firings whose path has
/// the newest arc and no greater one, ascending, each once. The heads are those of these rules, and the newest arc is
/// one of the view. It is looked for from the newest arc, along the arcs beside it.
pub fn joined_by(
    alloc: Global,
    rules: &[Rule],
    heads: &Heads,
    view: &View,
    newest: u32,
) -> Result<Joined, AllocError>
    requires heads { AreHeadsOf rules.now heads.now }
    requires newest { newest < length view.now }
    ensures arc { IfOk result (λ joined. joined.arc ≡ newest) }
    ensures right { IfOk result (IsRightFor rules.now view.now) }
{
    let found = found_of(alloc, rules, heads, view, newest)?;
    let made = made_of(alloc, rules, sorted(found)?)?;
    Ok(Joined::new(newest, made))
}

/// The same, for which the heads are made first. There are fewer than 4,294,967,295 rules.
pub fn joined(alloc: Global, rules: &[Rule], view: &View, newest: u32) -> Result<Joined, AllocError>
    requires rules { length rules.now < rule_bound }
    requires newest { newest < length view.now }
    ensures arc { IfOk result (λ joined. joined.arc ≡ newest) }
    ensures right { IfOk result (IsRightFor rules.now view.now) }
{
    let heads = Heads::new(alloc, rules)?;
    joined_by(alloc, rules, &heads, view, newest)
}
