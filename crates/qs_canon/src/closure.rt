//! Closures.

use qs_firing::Firing;
use qs_graph::Edge;
use std::marker::Model;

/// A firing that is done, the number of the first arc of its result, the number of its round, from 1, and whether it
/// met that arc, which stood already: then it added none, and that arc alone is its result.
#[derive(Drop)]
pub struct Placed {
    pub firing: Firing,
    pub first: u32,
    pub round: u32,
    pub met: bool,
}

impl Model for Placed {
    ghost use Rattle.qs_canon.specs.Rounds.{Done};
    ghost use Rattle.qs_canon.specs.working.Codes.{done_code};

    ghost Value = { Done };

    ghost coded = { done_code };

    ghost view = { λ p. record { firing = p.firing; first = p.first; round = p.round; met = p.met } };
}

/// A graph that rounds have reached, with the firings that were done: its number of nodes, its entry and its exit, the
/// number of arcs with which it started, its arcs, and the firings in the order in which they were done.
#[derive(Drop)]
pub struct Closure {
    pub nodes: u32,
    pub entry: u32,
    pub exit: u32,
    pub start: u32,
    pub edges: Vec<Edge>,
    pub firings: Vec<Placed>,
}

impl Model for Closure {
    ghost use Rattle.qs_canon.specs.Closures.{ClosureOf};
    ghost use Rattle.qs_canon.specs.working.Codes.{closure_code};

    ghost Value = { ClosureOf };

    ghost coded = { closure_code };

    ghost view = { λ c.
        record {
          stage = record { graph = record { nodes = c.nodes; arcs = c.edges.items }; done = c.firings.items };
          entry = c.entry;
          exit = c.exit;
          start = c.start;
        } };
}
