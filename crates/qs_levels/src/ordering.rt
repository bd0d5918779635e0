//! The nodes in an order in which all steps lead on, with the lengths of the longest chains of steps.

ghost use Rattle.std.specs.Prelude.{ℕ, ◌≡◌, ◌<◌, ◌-◌, ◌^◌, IfOk, OnOk, MatchOption, length, true, false, None};
ghost use Rattle.qs_levels.specs.working.Steps.{AreChains};
ghost use Rattle.qs_levels.specs.working.Ordering.{AreSteps, IsPassed, ArePassed, AreDoneBelow, IsGoing, IsVisited};
ghost use Rattle.qs_levels.specs.working.Ordering.{IsUndone, AreDepths, IsStuck, IsHeldUp, AreStarted};

use crate::chains::{Chains, chains_of};
use crate::steps::Steps;
use std::alloc::{AllocError, Global};

/// How far a node has come: the length of the longest chain of steps that leads to it by the steps that were passed,
/// the last step into it that wasn't passed, and whether all were passed.
#[derive(Clone, Copy)]
pub struct Node {
    pub depth: usize,
    pub unpassed: Option<usize>,
    pub done: bool,
}

// Nodes, as many as the limit, with the lengths of the longest chains of steps that lead to them. None where some
// nodes wait for one another.
pub fn depths_of(
    alloc: Global,
    limit: usize,
    steps: &Steps,
) -> Result<Option<Vec<Node>>, AllocError>
    requires { AreSteps limit steps.now.sources.items steps.now.targets.items }
    ensures { IfOk result (λ o. MatchOption o (IsStuck limit steps.now.sources.items steps.now.targets.items)
        (λ nodes. AreDepths limit steps.now.sources.items steps.now.targets.items nodes.items)) }
{
    let leaving = chains_of(alloc, limit, &steps.sources)?;
    let entering = chains_of(alloc, limit, &steps.targets)?;
    let mut nodes = started(alloc, &entering.last)?;
    let mut order = Vec::with_capacity(alloc, limit)?;
    for number in 0..limit {
        visit(&mut nodes, &mut order, steps, &entering, number)?;
    }
    let mut next = 0;
    while next < order.len() {
        let mut step = leaving.last[order[next]];
        while let Some(place) = step {
            visit(
                &mut nodes,
                &mut order,
                steps,
                &entering,
                steps.targets[place],
            )?;
            step = leaving.before[place];
        }
        next += 1;
    }
    if all_done(&nodes) {
        Ok(Some(nodes))
    } else {
        Ok(None)
    }
}

// Nodes that have passed no step, by the last steps into them.
fn started(alloc: Global, last: &[Option<usize>]) -> Result<Vec<Node>, AllocError>
    ensures { IfOk result (λ v. AreStarted last.now v.items) }
{
    let mut nodes = Vec::with_capacity(alloc, last.len())?;
    for unpassed in last {
        nodes.push(Node {
            depth: 0,
            unpassed: *unpassed,
            done: false,
        })?;
    }
    Ok(nodes)
}

// Passes what steps into a node can be passed, and puts it behind the order where it comes to be done.
fn visit(
    nodes: &mut [Node],
    order: &mut Vec<usize>,
    steps: &Steps,
    entering: &Chains,
    number: usize,
) -> Result<(), AllocError>
    requires steps { AreSteps (length nodes.old) steps.now.sources.items steps.now.targets.items }
    requires chains { AreChains (length nodes.old) steps.now.targets.items entering.now.last.items
        entering.now.before.items }
    requires number { number < length nodes.old }
    requires going { IsGoing steps.now.sources.items steps.now.targets.items nodes.old order.old.items }
    ensures { OnOk result (IsVisited steps.now.sources.items steps.now.targets.items nodes.old nodes.new
        order.old.items order.new.items number) }
{
    if nodes[number].done {
        return Ok(());
    }
    let limit = order.len();
    let node = pass(nodes, steps, entering, limit, number);
    nodes[number] = node;
    if node.done {
        order.push(number)?;
    }
    Ok(())
}

// What becomes of a node when the steps into it are passed, the last one first, until one comes from a node that isn't
// done. The depths of nodes that are done are below the limit.
fn pass(nodes: &[Node], steps: &Steps, entering: &Chains, limit: usize, number: usize) -> Node
    requires steps { AreSteps (length nodes.now) steps.now.sources.items steps.now.targets.items }
    requires chains { AreChains (length nodes.now) steps.now.targets.items entering.now.last.items
        entering.now.before.items }
    requires number { number < length nodes.now }
    requires passed { ArePassed steps.now.sources.items steps.now.targets.items nodes.now }
    requires low { AreDoneBelow nodes.now limit }
    ensures passed { IsPassed steps.now.sources.items steps.now.targets.items nodes.now number result.depth
        result.unpassed }
    ensures done { result.done ≡ true → result.unpassed ≡ None }
    ensures held_up { result.done ≡ false → IsHeldUp steps.now.sources.items nodes.now result.unpassed }
{
    let mut depth = nodes[number].depth;
    let mut unpassed = nodes[number].unpassed;
    while let Some(place) = unpassed {
        let source = nodes[steps.sources[place]];
        if !source.done {
            return Node {
                depth,
                unpassed,
                done: false,
            };
        }
        depth = depth.max(source.depth + 1);
        unpassed = entering.before[place];
    }
    Node {
        depth,
        unpassed: None,
        done: true,
    }
}

// Whether all nodes are done.
fn all_done(nodes: &[Node]) -> bool
    ensures yes { result ≡ true → (n : ℕ) → IsUndone nodes.now n → ⊥ }
    ensures no { result ≡ false → (n : ℕ) × IsUndone nodes.now n }
{
    for node in nodes {
        if !node.done {
            return false;
        }
    }
    true
}
