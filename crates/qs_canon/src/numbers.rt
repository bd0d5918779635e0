//! The closure so far, with the numbers that it gives to the arcs and nodes of a run.

ghost use Rattle.std.specs.Prelude.{◌≡◌, ◌<◌, ◌≤◌, ◌+◌, ◌^◌, ℕ, List, [], ◌∷◌, ◌++◌, length, set, drop};
ghost use Rattle.std.specs.Prelude.{if◌then◌else◌, ltb, Some, None, IsSome, IfOk, OnOk};
ghost use Rattle.std.specs.List.Sorted.{IsPermutation};
ghost use Rattle.qs_tree.specs.Lists.{◌∈◌};
ghost use Rattle.qs_canon.specs.working.CanonTables.{AreNumbered, in_numbers, IsRecorded};
ghost use Rattle.qs_firing.specs.Adding.{from_on};
ghost use Rattle.qs_core.specs.Core.{fired};
ghost use Rattle.qs_canon.specs.working.CanonNumbers.{table_of, AllAre, renumbered};
ghost use Rattle.qs_canon.specs.working.CanonNumbers.{IsReadyAt, AreInNumbers, NeverFalls};
ghost use Rattle.qs_canon.specs.working.CanonNumbers.{IsInNumbers};
ghost use Rattle.qs_canon.specs.working.CanonChains.{Chain, IsUnnumbered, IsChainAdded};
ghost use Rattle.qs_canon.specs.working.CanonSteps.{stage_of, firings_in, IsBetween, IsFinal, IsAtWork, IsOneOf};
ghost use Rattle.qs_firing.specs.Firings.{Firing as FiringOfRule};
ghost use Rattle.qs_canon.specs.Rounds.{Stage};
ghost use Rattle.qs_canon.specs.Numbering.{IsNumbering};

use crate::closure::{Closure, Placed};
use crate::numbering::Numbering;
use crate::waiting::firing_of;
use qs_core::{Fired, State};
use qs_firing::{Firing, order};
use qs_graph::Edge;
use std::alloc::{AllocError, Global};
use std::sync::Arc;

/// A recorded firing with its path in canonical numbers, and its place among the recorded ones.
#[derive(Drop)]
pub struct Next {
    pub place: u32,
    pub firing: Firing,
}

/// The firings in ascending order.
pub fn sorted(firings: Vec<Next>) -> Result<Vec<Next>, AllocError>
    ensures rises { IfOk result (λ v. NeverFalls v.items) }
    ensures permutation { IfOk result (λ v. IsPermutation firings.items v.items) }
{
    let mut firings = firings;
    firings.sort_by(|a, b| order(&a.firing, &b.firing))?;
    Ok(firings)
}

// The canonical numbers of these arcs, each of which has one.
fn numbers_of(alloc: Global, table: &[Option<u32>], arcs: &[u32]) -> Result<Vec<u32>, AllocError>
    requires { (ls : List ℕ) × AreNumbered (table_of table.now) arcs.now ls }
    ensures { IfOk result (λ v. AreNumbered (table_of table.now) arcs.now v.items) }
{
    let mut numbers = Vec::with_capacity(alloc, arcs.len())?;
    for arc in arcs {
        numbers.push(table[*arc as usize].unwrap())?;
    }
    Ok(numbers)
}

// The firing with its path in these numbers, of which each of its arcs has one.
fn firing_in_numbers(
    alloc: Global,
    firing: &Firing,
    table: &[Option<u32>],
) -> Result<Firing, AllocError>
    requires { (ls : List ℕ) × AreNumbered (table_of table.now) firing.now.path ls }
    ensures { IfOk result (λ f. (ls : List ℕ) × AreNumbered (table_of table.now) firing.now.path ls
        × (f ≡ in_numbers firing.now ls)) }
{
    Ok(Firing {
        rule: firing.rule,
        path: numbers_of(alloc, table, &firing.path)?,
        subst: firing.subst.copy()?,
    })
}

// The numbers, of which there is one at each place.
fn all_of(alloc: Global, table: &[Option<u32>]) -> Result<Vec<u32>, AllocError>
    requires { (ns : List ℕ) × AllAre table.now ns }
    ensures { IfOk result (λ v. AllAre table.now v.items) }
{
    let mut numbers = Vec::with_capacity(alloc, table.len())?;
    for number in table {
        numbers.push(number.unwrap())?;
    }
    Ok(numbers)
}

// All but the first place.
fn without_first(table: &[Option<u32>]) -> &[Option<u32>]
    requires { 0 < length table.now }
    ensures { result.now ≡ drop 1 table.now }
{
    &table[1..]
}

// A table of so many places, the first of which have their own numbers, and the others none.
fn opening_table(alloc: Global, len: usize, first: usize) -> Result<Vec<Option<u32>>, AllocError>
    requires within { first ≤ len }
    requires few { first ≤ 2 ^ 32 }
    ensures len { IfOk result (λ v. length v.items ≡ len) }
    ensures own { IfOk result (λ v. (k : ℕ) → table_of v.items k ≡ (if ltb k first then Some k else None)) }
{
    let mut table = vec![in alloc; None; len]?;
    for number in 0..first {
        table[number] = Some(number as u32);
    }
    Ok(table)
}

/// The closure so far. For each arc and each node of the run there is its number in the closure, or none so far; and
/// for each arc of the closure its number in the run.
#[derive(Drop)]
pub struct Numbers {
    arcs: Vec<Option<u32>>,
    // One place for each number from 0 to that of the last node; 0 isn't the number of a node.
    nodes: Vec<Option<u32>>,
    origins: Vec<u32>,
    last_node: u32,
    edges: Vec<Edge>,
    placed: Vec<Placed>,
}

impl Numbers {
    /// The graph from which the run started: its arcs and nodes have their own numbers.
    pub fn of_start(alloc: Global, end: &State) -> Result<Numbers, AllocError>
        requires { IsRecorded end.now.machine.base.rules end.now.machine.base.start (fired end.now.machine.state)
            end.now.machine.state.graph }
        ensures between { IfOk result (λ n. IsBetween end.now.machine n.arcs.items n.nodes.items 0
            (stage_of n.last_node n.edges.items n.placed.items)) }
        ensures origins { IfOk result (λ n. n.origins.items
            ≡ from_on 0 (length end.now.machine.base.start.arcs)) }
    {
        let start = end.start_arcs();
        let mut edges = Vec::with_capacity(alloc, start as usize)?;
        let mut origins = Vec::with_capacity(alloc, start as usize)?;
        for arc in 0..start {
            edges.push(end.edge(arc).copy()?)?;
            origins.push(arc)?;
        }
        let last_node = end.start_nodes();
        let arcs = opening_table(alloc, end.arcs() as usize, start as usize)?;
        let nodes = opening_table(alloc, end.nodes() as usize + 1, last_node as usize + 1)?;
        Ok(Numbers {
            arcs,
            nodes,
            origins,
            last_node,
            edges,
            placed: Vec::new(alloc),
        })
    }

    /// How many arcs the closure so far has.
    pub fn arcs(&self) -> usize
        ensures { result ≡ length self.now.origins.items }
    {
        self.origins.len()
    }

    /// For each arc of the closure so far, from this one on, its number in the run.
    pub fn origins_from(&self, first: usize) -> &[u32]
        requires { first ≤ length self.now.origins.items }
        ensures { result.now ≡ drop first self.now.origins.items }
    {
        &self.origins[first..]
    }

    /// The recorded firings at these places, with their paths in canonical numbers. All arcs of their paths have such
    /// numbers.
    pub fn in_numbers(
        &self,
        alloc: Global,
        fired: &[Fired],
        places: &[u32],
    ) -> Result<Vec<Next>, AllocError>
        requires { (i : ℕ) → i ∈ places.now → IsReadyAt (table_of self.now.arcs.items) fired.now i }
        ensures { IfOk result (λ v. AreInNumbers (table_of self.now.arcs.items) fired.now places.now v.items) }
    {
        let mut firings = Vec::with_capacity(alloc, places.len())?;
        for place in places {
            let firing = firing_of(&fired[*place as usize]);
            let firing = firing_in_numbers(alloc, firing, &self.arcs)?;
            firings.push(Next {
                place: *place,
                firing,
            })?;
        }
        Ok(firings)
    }

    // Gives an arc of the run, which leads between nodes that have numbers, the next number.
    fn add_arc(&mut self, arc: u32, edge: &Edge) -> Result<(), AllocError>
        requires arc { arc < length self.old.arcs.items }
        requires few { length self.old.edges.items < 2 ^ 32 }
        requires from { IsSome (table_of self.old.nodes.items edge.now.from) }
        requires to { IsSome (table_of self.old.nodes.items edge.now.to) }
        ensures arcs { OnOk result (self.new.arcs.items
            ≡ set self.old.arcs.items arc (Some (length self.old.edges.items))) }
        ensures edges { OnOk result (self.new.edges.items
            ≡ self.old.edges.items ++ renumbered (table_of self.old.nodes.items) edge.now ∷ []) }
        ensures origins { OnOk result (self.new.origins.items ≡ self.old.origins.items ++ arc ∷ []) }
        ensures nodes { self.new.nodes.items ≡ self.old.nodes.items }
        ensures last_node { self.new.last_node ≡ self.old.last_node }
        ensures placed { self.new.placed.items ≡ self.old.placed.items }
    {
        let number = self.edges.len() as u32;
        let from = self.nodes[edge.from as usize].unwrap();
        let to = self.nodes[edge.to as usize].unwrap();
        let tree = Arc::try_clone(&edge.tree)?;
        self.edges.push(Edge { from, to, tree })?;
        self.origins.push(arc)?;
        self.arcs[arc as usize] = Some(number);
        Ok(())
    }

    // Gives the arcs of a result their numbers, from this one on up to the first that leads to a node that has one, and
    // the nodes on the way.
    fn add_result(&mut self, end: &State, first: u32) -> Result<(), AllocError>
        requires { (c : Chain) × IsUnnumbered end.now.machine.state.graph self.old first c }
        ensures { OnOk result ((c : Chain) → IsUnnumbered end.now.machine.state.graph self.old first c
            → IsChainAdded first c self.old self.new) }
    {
        for arc in first..end.arcs() {
            let edge = end.edge(arc);
            if self.nodes[edge.to as usize].is_some() {
                self.add_arc(arc, edge)?;
                return Ok(());
            }
            self.last_node += 1;
            self.nodes[edge.to as usize] = Some(self.last_node);
            self.add_arc(arc, edge)?;
        }
        Ok(())
    }

    // Does the next firing of a round, which is a recorded one in canonical numbers. It meets an arc exactly where the
    // first arc of its recorded result has a number.
    fn place(
        &mut self,
        end: &State,
        fired: &Fired,
        firing: Firing,
        round: u32,
    ) -> Result<(), AllocError>
        requires at_work { (n : ℕ) × (S : Stage) × (E : List FiringOfRule) × (F : List FiringOfRule)
            × (round ≡ n + 1) × IsAtWork end.now.machine self.old n S E (firing ∷ F) }
        requires one { IsOneOf end.now.machine self.old.arcs.items fired.now firing }
        ensures work { OnOk result ((n : ℕ) (S : Stage) (E F : List FiringOfRule) → round ≡ n + 1
            → IsAtWork end.now.machine self.old n S E (firing ∷ F)
            → IsAtWork end.now.machine self.new n S (E ++ firing ∷ []) F) }
        ensures stay { OnOk result ((ks ls : List ℕ) → AreNumbered (table_of self.old.arcs.items) ks ls
            → AreNumbered (table_of self.new.arcs.items) ks ls) }
    {
        if let Some(first) = self.arcs[fired.first as usize] {
            self.placed.push(Placed {
                firing,
                first,
                round,
                met: true,
            })?;
            return Ok(());
        }
        let first = self.edges.len() as u32;
        self.add_result(end, fired.first)?;
        self.placed.push(Placed {
            firing,
            first,
            round,
            met: false,
        })?;
        Ok(())
    }

    /// Does the firings of this round in their order.
    pub fn do_round(
        &mut self,
        end: &State,
        firings: Vec<Next>,
        round: u32,
    ) -> Result<(), AllocError>
        requires at_work { (n : ℕ) × (S : Stage) × (round ≡ n + 1)
            × IsAtWork end.now.machine self.old n S [] (firings_in firings.items) }
        requires recorded { (next : Next) → next ∈ firings.items
            → IsInNumbers (table_of self.old.arcs.items) end.now.machine.state.done next.place next }
        ensures work { OnOk result ((n : ℕ) (S : Stage) → round ≡ n + 1
            → IsAtWork end.now.machine self.old n S [] (firings_in firings.items)
            → IsAtWork end.now.machine self.new n S (firings_in firings.items) []) }
        ensures stay { OnOk result ((ks ls : List ℕ) → AreNumbered (table_of self.old.arcs.items) ks ls
            → AreNumbered (table_of self.new.arcs.items) ks ls) }
    {
        for Next { place, firing } in firings {
            self.place(end, &end.fired()[place as usize], firing, round)?;
        }
        Ok(())
    }

    /// The closure, with the numbers of all arcs and nodes of the run.
    pub fn into_numbering(self, alloc: Global, end: &State) -> Result<Numbering, AllocError>
        requires { IsFinal end.now.machine self.arcs.items self.nodes.items
            (stage_of self.last_node self.edges.items self.placed.items) }
        ensures { IfOk result (λ n. IsNumbering end.now.machine n.closure n.arcs.items n.nodes.items) }
    {
        let Numbers {
            arcs,
            nodes,
            last_node,
            edges,
            placed,
            ..
        } = self;
        Ok(Numbering {
            closure: Closure {
                nodes: last_node,
                entry: end.entry(),
                exit: end.exit(),
                start: end.start_arcs(),
                edges,
                firings: placed,
            },
            arcs: all_of(alloc, &arcs)?,
            nodes: all_of(alloc, without_first(&nodes))?,
        })
    }
}
