//! Links between nodes, and the nodes to which they lead.

ghost use Rattle.std.specs.Prelude.{◌≡◌, ◌↔◌, ◌≤◌, ◌<◌, ◌+◌, ℕ, [], IfOk, OnOk, length, map};
ghost use Rattle.qs_tree.specs.Lists.{◌∈◌};
ghost use Rattle.qs_clean.specs.declared.links.Link.{Link};
ghost use Rattle.qs_clean.specs.Marks.{IsMarked};
ghost use Rattle.qs_clean.specs.working.Links.{Reaches, AreGroups, AreMarked, turned};

use std::alloc::{AllocError, Global};

/// A step from one node to another.
#[derive(Clone, Copy)]
pub struct Link {
    pub from: u32,
    pub to: u32,
}

// The same links in the other direction.
pub fn all_turned(alloc: Global, links: &[Link]) -> Result<Vec<Link>, AllocError>
    ensures { IfOk result (λ v. v.items ≡ map turned links.now) }
{
    links
        .iter()
        .map(|link| Link {
            from: link.to,
            to: link.from,
        })
        .collect(alloc)
}

// For each node up to `nodes`, whether links lead to it from the start.
pub fn reached(
    alloc: Global,
    nodes: u32,
    links: &[Link],
    start: u32,
) -> Result<Vec<bool>, AllocError>
    requires start_in { start ≤ nodes }
    requires links_in { (link : Link) → link ∈ links.now → (link.from ≤ nodes) × (link.to ≤ nodes) }
    ensures len { IfOk result (λ v. length v.items ≡ nodes + 1) }
    ensures few { IfOk result (λ v. length v.items ≤ 4294967296) }
    ensures marks { IfOk result (λ v. (n : ℕ) → IsMarked v.items n ↔ Reaches links.now start n) }
{
    let groups = grouped(alloc, nodes, links)?;
    let mut marks = vec![in alloc; false; nodes as usize + 1]?;
    let mut waiting = Vec::new(alloc);
    waiting.push(start)?;
    marks[start as usize] = true;
    while let Some(node) = waiting.pop() {
        mark_all(&mut marks, &mut waiting, &groups[node as usize])?;
    }
    Ok(marks)
}

// Marks the targets. Those that were not marked wait behind the others.
fn mark_all(marks: &mut [bool], waiting: &mut Vec<u32>, targets: &[u32]) -> Result<(), AllocError>
    requires { (n : ℕ) → n ∈ targets.now → n < length marks.old }
    ensures { OnOk result (AreMarked targets.now marks.old marks.new waiting.old.items waiting.new.items) }
{
    for target in targets {
        if !marks[*target as usize] {
            waiting.push(*target)?;
            marks[*target as usize] = true;
        }
    }
    Ok(())
}

// For each node up to `nodes`, the nodes to which a link leads from it.
fn grouped(alloc: Global, nodes: u32, links: &[Link]) -> Result<Vec<Vec<u32>>, AllocError>
    requires { (link : Link) → link ∈ links.now → link.from ≤ nodes }
    ensures len { IfOk result (λ v. length v.items ≡ nodes + 1) }
    ensures groups { IfOk result (λ v. AreGroups links.now (map (λ group. group.items) v.items)) }
{
    let mut groups = empty_groups(alloc, nodes)?;
    for link in links {
        groups[link.from as usize].push(link.to)?;
    }
    Ok(groups)
}

// For each node up to `nodes`, an empty list.
fn empty_groups(alloc: Global, nodes: u32) -> Result<Vec<Vec<u32>>, AllocError>
    ensures len { IfOk result (λ v. length v.items ≡ nodes + 1) }
    ensures groups { IfOk result (λ v. AreGroups [] (map (λ group. group.items) v.items)) }
{
    let mut groups = Vec::with_capacity(alloc, nodes as usize + 1)?;
    for node in 0..nodes as usize + 1 {
        groups.push(Vec::new(alloc))?;
    }
    Ok(groups)
}
