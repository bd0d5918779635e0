//! Lists of arcs that grow.

ghost use Rattle.std.specs.Prelude.{◌≡◌, ◌<◌, ◌≤◌, ◌+◌, ◌-◌, ◌^◌, ◌++◌, ◌∷◌, [], ℕ, length, take, OnOk, OnErr, Some};
ghost use Rattle.std.specs.Prelude.{slice_get};
ghost use Rattle.qs_firing.specs.Neighbours.{starts, ends, IsLastPlace};

use crate::places::Places;
use qs_graph::Edge;
use std::alloc::{AllocError, Global};
use std::marker::Model;

/// A list of arcs, of which there are at most 4,294,967,295. Firings over it are those of its arcs. The arcs at a node
/// are found one after the other, from the last one down. Nodes may have any numbers: memory grows with the number of
/// arcs alone.
#[derive(Drop)]
pub struct View {
    edges: Vec<Edge>,
    // The nodes at which the arcs start, and at which they end.
    sources: Places,
    targets: Places,
}

impl Model for View {
    ghost use Rattle.std.specs.Prelude.{List, ◌≡◌, ◌<◌, ◌^◌, length};
    ghost use Rattle.std.specs.Coded.{coded_list};
    ghost use Rattle.qs_graph.specs.Graphs.{Arc};
    ghost use Rattle.qs_graph.specs.working.Codes.{arc_code};
    ghost use Rattle.qs_firing.specs.Neighbours.{starts, ends};

    ghost Value = { List Arc };

    ghost coded = { coded_list arc_code };

    ghost view = { λ v. v.edges.items };

    ghost invariant = { λ v. (length v.edges.items < 2 ^ 32) × (v.sources ≡ starts v.edges.items)
        × (v.targets ≡ ends v.edges.items) };
}

impl View {
    /// No arc. Takes no memory.
    pub fn empty(alloc: Global) -> View
        ensures { result ≡ [] }
    {
        View {
            edges: Vec::new(alloc),
            sources: Places::new(alloc),
            targets: Places::new(alloc),
        }
    }

    /// The number of arcs. Takes no memory.
    pub fn len(&self) -> u32
        ensures { result ≡ length self.now }
    {
        self.edges.len() as u32
    }

    /// The arc of this number, which is below the number of arcs. Takes no memory.
    pub fn edge(&self, arc: u32) -> &Edge
        requires { arc < length self.now }
        ensures { slice_get self.now arc ≡ Some result.now }
    {
        &self.edges[arc as usize]
    }

    /// The arcs in their order. Takes no memory.
    pub fn edges(&self) -> &[Edge]
        ensures value { result.now ≡ self.now }
        ensures few { length result.now < 2 ^ 32 }
    {
        &self.edges
    }

    /// The greatest number of an arc that starts at the node. None exactly where there is none. Takes no memory.
    pub fn last_out(&self, node: u32) -> Option<u32>
        ensures { IsLastPlace (starts self.now) node result }
    {
        self.sources.last(node)
    }

    /// The greatest number of an arc that ends at the node. None exactly where there is none. Takes no memory.
    pub fn last_in(&self, node: u32) -> Option<u32>
        ensures { IsLastPlace (ends self.now) node result }
    {
        self.targets.last(node)
    }

    /// The greatest smaller number of an arc that starts at the same node as this one. None exactly where there is
    /// none. Takes no memory.
    pub fn before_out(&self, arc: u32) -> Option<u32>
        requires { arc < length self.now }
        ensures { (n : ℕ) → slice_get (starts self.now) arc ≡ Some n
            → IsLastPlace (take arc (starts self.now)) n result }
    {
        self.sources.before(arc)
    }

    /// The greatest smaller number of an arc that ends at the same node as this one. None exactly where there is none.
    /// Takes no memory.
    pub fn before_in(&self, arc: u32) -> Option<u32>
        requires { arc < length self.now }
        ensures { (n : ℕ) → slice_get (ends self.now) arc ≡ Some n
            → IsLastPlace (take arc (ends self.now)) n result }
    {
        self.targets.before(arc)
    }

    /// Appends copies of all these arcs, which own the same trees: no tree is copied. After `Memory` the list is as
    /// before.
    pub fn add(&mut self, edges: &[Edge]) -> Result<(), AllocError>
        requires { length self.old + length edges.now < 2 ^ 32 }
        ensures ok { OnOk result (self.new ≡ self.old ++ edges.now) }
        ensures err { OnErr result (self.new ≡ self.old) }
    {
        let len = self.len();
        for edge in edges {
            if self.push(edge).is_err() {
                self.shorten(len);
                return Err(AllocError);
            }
        }
        Ok(())
    }

    // Appends a copy of one arc. After an error the list is as before.
    fn push(&mut self, edge: &Edge) -> Result<(), AllocError>
        requires { length self.old < 2 ^ 32 - 1 }
        ensures ok { OnOk result (self.new ≡ self.old ++ edge.now ∷ []) }
        ensures err { OnErr result (self.new ≡ self.old) }
    {
        let copy = edge.copy()?;
        self.sources.push(edge.from)?;
        if self.targets.push(edge.to).is_err() {
            self.sources.pop();
            return Err(AllocError);
        }
        if self.edges.push(copy).is_err() {
            self.sources.pop();
            self.targets.pop();
            return Err(AllocError);
        }
        Ok(())
    }

    // Takes the last arc away.
    fn pop(&mut self)
        ensures { self.new ≡ take (length self.old - 1) self.old }
    {
        self.edges.pop();
        self.sources.pop();
        self.targets.pop();
    }

    // Leaves the first so many arcs alone.
    fn shorten(&mut self, len: u32)
        requires { len ≤ length self.old }
        ensures { self.new ≡ take len self.old }
    {
        for _ in len..self.len() {
            self.pop();
        }
    }
}
