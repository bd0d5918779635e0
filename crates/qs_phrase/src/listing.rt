//! The first readings of a graph.

ghost use Rattle.std.specs.Prelude.{◌≡◌, ◌≤◌, ◌↔◌, IsTrue, IfOk};
ghost use Rattle.qs_phrase.specs.Readings.{AreFirst, HasFurther};
ghost use Rattle.qs_phrase.specs.ReadingLists.{paths_of};

use crate::leaving::leaving_of;
use crate::walking::{go_on, go_over};
use qs_graph::Graph;
use std::alloc::{AllocError, Global};

/// Readings of a graph, each by the numbers of its arcs, and whether there are more.
#[derive(Drop)]
pub struct ReadingList {
    pub paths: Vec<Vec<u32>>,
    pub more: bool,
}

/// The first `most` readings of a graph, in the dictionary order of their arc numbers, or all of them where there are
/// fewer; and whether there are more. `most` is at least 1. A reading is a path from the entry to the exit. Readings
/// are listed and never counted: time is linear in the nodes, the arcs, and the length of the readings that are listed
/// and of one more.
pub fn readings(alloc: Global, g: &Graph, most: u32) -> Result<ReadingList, AllocError>
    requires { 1 ≤ most }
    ensures first { IfOk result (λ list. AreFirst g.now most (paths_of list)) }
    ensures more { IfOk result (λ list. IsTrue list.more ↔ HasFurther g.now (paths_of list)) }
{
    let leaving = leaving_of(alloc, g)?;
    let mut path = Vec::new(alloc);
    go_on(g, &leaving, g.entry(), &mut path)?;
    let mut paths = Vec::new(alloc);
    let mut more = true;
    while more && paths.len() < most as usize {
        let reading = Vec::from_slice(alloc, &path)?;
        paths.push(reading)?;
        more = go_over(g, &leaving, &mut path)?;
    }
    Ok(ReadingList { paths, more })
}
