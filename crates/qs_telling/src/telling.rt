//! Running one grammar, and telling what it left.

ghost use Rattle.std.specs.Prelude.{◌<◌, ◌^◌, IfOk, IfSome, OnOk, length};
ghost use Rattle.qs_graphtext.specs.Texts.{AreArcsNamed};
ghost use Rattle.qs_clean.specs.Cleaning.{IsClosureOfValid};
ghost use Rattle.qs_telling.specs.Telling.{CanBeTold, IsAppended, TellsStage};
ghost use Rattle.qs_telling.specs.working.Telling.{IsSupportIn};

use crate::blocks::block;
use qs_canon::Closure;
use qs_cascade::{StageEnd, closure_by, end_behind, stage_by};
use qs_deck::System;
use qs_explain::{explain, write_support};
use qs_graph::Graph;
use qs_tree::{Label, Names};
use qs_worker::{Crew, Grammar};
use std::alloc::{AllocError, Global};

/// What is told of each grammar.
#[derive(Clone, Copy, Debug, PartialEq, Eq)]
pub enum Telling {
    /// The block of what it left.
    Blocks,
    /// The block, and behind that of a graph the support of the closure of which it was left.
    Supports,
}

/// What is the same for all grammars of a cascade: the names of the labels, the limit on the firings of each, and what
/// is told of each.
#[derive(Drop)]
pub struct Teller<'a> {
    pub names: &'a Names,
    pub limit: u32,
    pub telling: Telling,
}

/// What a grammar left, and the text that tells it.
#[derive(Drop)]
pub struct Told {
    pub end: StageEnd,
    pub text: Vec<u8>,
}

impl Teller<'_> {
    /// Runs the grammar on the graph, and tells what it left. The crew makes the run.
    pub fn tell<C: Crew>(
        &self,
        alloc: Global,
        crew: &C,
        system: &System,
        graph: &Graph,
    ) -> Result<Told, AllocError>
        requires crew { C.ready crew.now }
        requires can_tell { CanBeTold self.now.limit self.now.names.now system.now.name system.now.rules.items
            graph.now }
        ensures { IfOk result (λ told. TellsStage self.now.telling self.now.limit self.now.names.now system.now.name
            system.now.rules.items graph.now told.end told.text.items) }
    {
        let grammar = Grammar::new(alloc, &system.rules)?;
        match self.telling {
            Telling::Blocks => self.tell_block(alloc, crew, system.name, &grammar, graph),
            Telling::Supports => self.tell_support(alloc, crew, system.name, &grammar, graph),
        }
    }

    // Tells its block.
    fn tell_block<C: Crew>(
        &self,
        alloc: Global,
        crew: &C,
        name: Label,
        grammar: &Grammar,
        graph: &Graph,
    ) -> Result<Told, AllocError>
        requires crew { C.ready crew.now }
        requires can_tell { CanBeTold self.now.limit self.now.names.now name grammar.now graph.now }
        ensures { IfOk result (λ told. TellsStage Telling.Blocks self.now.limit self.now.names.now name grammar.now
            graph.now told.end told.text.items) }
    {
        let end = stage_by(alloc, crew, grammar, graph, self.limit)?;
        let text = block(alloc, self.names, name, self.limit, &end)?;
        Ok(Told { end, text })
    }

    // Tells its block, and behind that of a graph the support of the closure.
    fn tell_support<C: Crew>(
        &self,
        alloc: Global,
        crew: &C,
        name: Label,
        grammar: &Grammar,
        graph: &Graph,
    ) -> Result<Told, AllocError>
        requires crew { C.ready crew.now }
        requires can_tell { CanBeTold self.now.limit self.now.names.now name grammar.now graph.now }
        ensures { IfOk result (λ told. TellsStage Telling.Supports self.now.limit self.now.names.now name grammar.now
            graph.now told.end told.text.items) }
    {
        let closure = closure_by(alloc, crew, grammar, graph, self.limit)?;
        let end = end_behind(alloc, &closure)?;
        let mut text = block(alloc, self.names, name, self.limit, &end)?;
        append_support(alloc, self.names, &closure, &end, &mut text)?;
        Ok(Told { end, text })
    }
}

/// Appends the support of the closure, where a graph was left of it.
fn append_support(
    alloc: Global,
    names: &Names,
    closure: &Option<Closure>,
    end: &StageEnd,
    out: &mut Vec<u8>,
) -> Result<(), AllocError>
    requires valid { IfSome closure.now IsClosureOfValid }
    requires few { IfSome closure.now (λ c. length c.stage.done < 2 ^ 32) }
    requires named { IfSome closure.now (λ c. AreArcsNamed (length names.now) c.stage.graph.arcs) }
    ensures { OnOk result (IsAppended (IsSupportIn names.now closure.now end.now) out.old.items out.new.items) }
{
    match closure {
        Some(closure) => match end {
            StageEnd::Left { .. } => {
                let support = explain(alloc, closure)?;
                write_support(alloc, closure, &support, names, out)
            }
            StageEnd::Empty { .. } | StageEnd::Over => Ok(()),
        },
        None => Ok(()),
    }
}
