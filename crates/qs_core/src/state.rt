//! The machine.

ghost use Rattle.std.specs.Prelude.{◌≡◌, ◌<◌, ◌≤◌, ◌+◌, ◌*◌, ◌^◌, ◌++◌, List, length, slice_get, IfOk, OnOk, OnErr};
ghost use Rattle.std.specs.Prelude.{Some};
ghost use Rattle.std.specs.Arc.{arc_value};
ghost use Rattle.qs_tree.specs.Lists.{◌∈◌};
ghost use Rattle.qs_pattern.specs.Limits.{most_patterns, rule_bound};
ghost use Rattle.qs_pattern.specs.Rules.{Rule as RuleOfPatterns, IsAccepted, all_unique};
ghost use Rattle.qs_graph.specs.Graphs.{Arc as GraphArc, IsValid, IsEntry, IsExit};
ghost use Rattle.qs_core.specs.Runs.{IsReplayed};
ghost use Rattle.qs_core.specs.Answers.{opened, IsEnd};

use crate::answers::End;
use crate::arcs::Arcs;
use crate::fired::Fired;
use crate::sharing::share_rules;
use crate::statuses::Statuses;
use crate::step::{Step, Stop};
use qs_firing::View;
use qs_graph::{Edge, Graph};
use qs_pattern::Rule;
use std::alloc::{AllocError, Global};
use std::marker::Model;
use std::sync::Arc;

/// The machine in which seats claim arcs and do the firings that are their work, step by step. It keeps what no step
/// changes, the steps that were made, which are its journal, and the state behind them; so replaying its journal, and
/// then its stop, from the opening gives that state. Contracts see beside it for how many steps it has room. A claim is
/// ready where there is room for one; that is no part of the machine.
#[derive(Drop)]
pub struct State {
    pub(crate) alloc: Global,
    rules: Arc<Vec<Rule>>,
    // Whether the rules are all marked unique.
    pub(crate) unique: bool,
    // The nodes and the arcs with which it started, and the entry and the exit.
    start_nodes: u32,
    start_arcs: u32,
    entry: u32,
    exit: u32,
    pub(crate) limit: u32,
    pub(crate) arcs: Arcs,
    pub(crate) statuses: Statuses,
    pub(crate) fired: Vec<Fired>,
    pub(crate) journal: Vec<Step>,
    pub(crate) stop: Option<Stop>,
}

impl Model for State {
    ghost use Rattle.std.specs.Prelude.{◌-◌, vec_len, vec_capacity};
    ghost use Rattle.std.specs.Arc.{arc_value};
    ghost use Rattle.qs_core.specs.Runs.{MachineWithRoom};
    ghost use Rattle.qs_core.specs.Machines.{machine_from, IsSound};
    ghost use Rattle.qs_core.specs.working.Codes.{machine_code};

    ghost Value = { MachineWithRoom };

    ghost coded = { machine_code };

    ghost view = { λ s. record {
      machine = machine_from (arc_value s.rules).items s.start_nodes s.start_arcs s.limit s.arcs s.statuses
          s.fired.items s.journal.items s.stop;
      room = vec_capacity s.journal - vec_len s.journal;
    } };

    ghost invariant = { λ s. IsSound (machine_from (arc_value s.rules).items s.start_nodes s.start_arcs s.limit s.arcs
        s.statuses s.fired.items s.journal.items s.stop) s.entry s.exit s.start_arcs s.unique };
}

// Whether the rules are all marked unique. Each of them is an accepted one, by its type.
fn are_unique(rules: &[Rule]) -> bool
    ensures value { result ≡ all_unique rules.now }
    ensures accepted { (rule : RuleOfPatterns) → rule ∈ rules.now → IsAccepted rule }
{
    let mut all = true;
    for rule in rules {
        all &= rule.unique();
    }
    all
}

impl State {
    /// The machine with these rules, which starts from this graph, may do this number of firings and has this number
    /// of seats. Every arc waits, and nothing is done. The limit and the number of seats are at least 1, and the
    /// numbers of arcs and of nodes of the graph, each with 16 times the limit, fit a `u32`.
    pub fn open(
        alloc: Global,
        rules: &[Rule],
        start: &Graph,
        limit: u32,
        seats: u32,
    ) -> Result<State, AllocError>
        requires limit { 1 ≤ limit }
        requires seats { 1 ≤ seats }
        requires rules { length rules.now < rule_bound }
        requires arcs { length start.now.arcs + most_patterns * limit < 2 ^ 32 }
        requires nodes { start.now.nodes + most_patterns * limit < 2 ^ 32 }
        ensures { IfOk result (λ s. s.machine
            ≡ opened (record { rules = rules.now; start = start.now; limit = limit; seats = seats })) }
    {
        let rules = share_rules(alloc, rules)?;
        State::open_shared(alloc, rules, start, limit, seats)
    }

    /// Does what `open` does, with rules that may have further owners. None is copied.
    pub fn open_shared(
        alloc: Global,
        rules: Arc<Vec<Rule>>,
        start: &Graph,
        limit: u32,
        seats: u32,
    ) -> Result<State, AllocError>
        requires limit { 1 ≤ limit }
        requires seats { 1 ≤ seats }
        requires rules { length (arc_value rules).items < rule_bound }
        requires arcs { length start.now.arcs + most_patterns * limit < 2 ^ 32 }
        requires nodes { start.now.nodes + most_patterns * limit < 2 ^ 32 }
        ensures { IfOk result (λ s. s.machine ≡ opened (record {
          rules = (arc_value rules).items;
          start = start.now;
          limit = limit;
          seats = seats;
        })) }
    {
        let unique = are_unique(&rules);
        let arcs = Arcs::of(alloc, start.nodes(), start.edges())?;
        let statuses = Statuses::of(alloc, arcs.len(), seats)?;
        Ok(State {
            alloc,
            rules,
            unique,
            start_nodes: arcs.nodes(),
            start_arcs: arcs.len(),
            entry: start.entry(),
            exit: start.exit(),
            limit,
            arcs,
            statuses,
            fired: Vec::new(alloc),
            journal: Vec::new(alloc),
            stop: None,
        })
    }

    /// The number of arcs. Takes no memory.
    pub fn arcs(&self) -> u32
        ensures { result ≡ length self.now.machine.state.graph.arcs }
    {
        self.arcs.len()
    }

    /// The number of nodes. Takes no memory.
    pub fn nodes(&self) -> u32
        ensures { result ≡ self.now.machine.state.graph.nodes }
    {
        self.arcs.nodes()
    }

    /// The arc of this number, which is below the number of arcs. Takes no memory.
    pub fn edge(&self, arc: u32) -> &Edge
        requires { arc < length self.now.machine.state.graph.arcs }
        ensures { slice_get self.now.machine.state.graph.arcs arc ≡ Some result.now }
    {
        self.arcs.edge(arc)
    }

    /// The arcs, as a view of them. Takes no memory.
    pub fn view(&self) -> &View
        ensures { result.now ≡ self.now.machine.state.graph.arcs }
    {
        self.arcs.view()
    }

    /// The firings that are done, in the order in which they were done. Takes no memory.
    pub fn fired(&self) -> &[Fired]
        ensures { result.now ≡ self.now.machine.state.done }
    {
        &self.fired
    }

    /// The steps that were made, in their order: they and then the stop lead from the opening to the state. Takes no
    /// memory.
    pub fn journal(&self) -> &[Step]
        ensures value { result.now ≡ self.now.machine.journal }
        ensures replayed { IsReplayed self.now.machine }
    {
        &self.journal
    }

    /// The stop, where one stands. Takes no memory.
    pub fn stop(&self) -> Option<Stop>
        ensures { result ≡ self.now.machine.state.stop }
    {
        self.stop
    }

    /// The rules, which are accepted ones. Takes no memory.
    pub fn rules(&self) -> &[Rule]
        ensures value { result.now ≡ self.now.machine.base.rules }
        ensures accepted { (rule : RuleOfPatterns) → rule ∈ self.now.machine.base.rules → IsAccepted rule }
    {
        &self.rules
    }

    /// How many firings may be done. Takes no memory.
    pub fn limit(&self) -> u32
        ensures { result ≡ self.now.machine.base.limit }
    {
        self.limit
    }

    /// The number of seats. Takes no memory.
    pub fn seats(&self) -> u32
        ensures { result ≡ self.now.machine.base.seats }
    {
        self.statuses.seats()
    }

    /// The number of arcs with which it started. It leaves room for 16 arcs for each firing that may be done. Takes no
    /// memory.
    pub fn start_arcs(&self) -> u32
        ensures value { result ≡ length self.now.machine.base.start.arcs }
        ensures fit { length self.now.machine.base.start.arcs + most_patterns * self.now.machine.base.limit < 2 ^ 32 }
    {
        self.start_arcs
    }

    /// The number of nodes with which it started. It leaves room for 16 nodes for each firing that may be done. Takes
    /// no memory.
    pub fn start_nodes(&self) -> u32
        ensures value { result ≡ self.now.machine.base.start.nodes }
        ensures fit { self.now.machine.base.start.nodes + most_patterns * self.now.machine.base.limit < 2 ^ 32 }
    {
        self.start_nodes
    }

    /// The entry of the graph from which it started, which is valid. Takes no memory.
    pub fn entry(&self) -> u32
        ensures value { IsEntry self.now.machine.base.start result }
        ensures valid { IsValid self.now.machine.base.start }
    {
        self.entry
    }

    /// The exit of the graph from which it started. Takes no memory.
    pub fn exit(&self) -> u32
        ensures { IsExit self.now.machine.base.start result }
    {
        self.exit
    }

    /// How the run has ended, if it has: closed, where no stop stands and every arc is done; or as its stop says. Takes
    /// no memory.
    pub fn end(&self) -> Option<End>
        ensures { IsEnd self.now.machine.state result }
    {
        match self.stop {
            Some(stop) => Some(stop.end()),
            None if self.statuses.all_done() => Some(End::Closed),
            None => None,
        }
    }

    /// Gives the view the arcs that it lacks. It has the first arcs of the machine. No tree is copied. After `Memory`
    /// the view is as before.
    pub fn catch_up(&self, view: &mut View) -> Result<(), AllocError>
        requires { (more : List GraphArc) × (self.now.machine.state.graph.arcs ≡ view.old ++ more) }
        ensures ok { OnOk result (view.new ≡ self.now.machine.state.graph.arcs) }
        ensures err { OnErr result (view.new ≡ view.old) }
    {
        let seen = view.len() as usize;
        view.add(&self.arcs.edges()[seen..])
    }
}
