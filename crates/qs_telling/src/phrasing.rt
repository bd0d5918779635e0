//! Running the grammars on a line of words, and telling the readings of what they leave.

ghost use Rattle.std.specs.Prelude.{◌≡◌, ◌<◌, ◌≤◌, ◌++◌, IfOk, OnOk, codes, length, map};
ghost use Rattle.qs_graphtext.specs.Texts.{line};
ghost use Rattle.qs_tree.specs.declared.cell.Label.{Label};
ghost use Rattle.qs_tree.specs.Lists.{◌∈◌};
ghost use Rattle.qs_deck.specs.Limits.{most_systems, most_words};
ghost use Rattle.qs_deck.specs.Decks.{grammar_of};
ghost use Rattle.qs_deck.specs.Named.{AreSystemsNamed};
ghost use Rattle.qs_command.specs.Limits.{IsLimit};
ghost use Rattle.qs_telling.specs.Cascading.{AreAccepted};
ghost use Rattle.qs_telling.specs.PhraseTexts.{phrase_line};
ghost use Rattle.qs_telling.specs.working.Cascading.{CanGoOn};
ghost use Rattle.qs_telling.specs.Telling.{IsAppended};
ghost use Rattle.qs_telling.specs.Phrasing.{AreReady, IsBlockOf};
ghost use Rattle.qs_telling.specs.working.Phrasing.{IsLineEnd, IsLineEndNamed, TellsEnd};

use crate::blocks::append_limit;
use crate::reading_lines::append_readings;
use qs_cascade::{StageEnd, stage_by};
use qs_deck::System;
use qs_graph::Graph;
use qs_phrase::linear;
use qs_tree::{Label, Names};
use qs_worker::{Crew, Grammar};
use std::alloc::{AllocError, Global};

/// What is the same for all lines of words: the names of the labels, the grammars, as they were read and, in the same
/// order, ready for runs, the limit on the firings of each, and how many readings of a line are told at most.
#[derive(Drop)]
pub struct PhraseTeller<'a> {
    pub names: &'a Names,
    pub systems: &'a [System],
    pub grammars: &'a [Grammar],
    pub limit: u32,
    pub readings: u32,
}

/// What the grammars leave of a line of words: a graph, or no arc; or one of them needs more firings than the limit.
#[derive(Drop)]
pub enum LineEnd {
    Left(Graph),
    Empty,
    Over,
}

/// What the grammars left of a line, and its block.
#[derive(Drop)]
pub struct ToldPhrase {
    pub end: LineEnd,
    pub text: Vec<u8>,
}

/// The grammars of these systems, in their order, ready for runs.
pub fn grammars_of(alloc: Global, systems: &[System]) -> Result<Vec<Grammar>, AllocError>
    ensures { IfOk result (λ grammars. AreReady systems.now grammars.items) }
{
    let mut grammars = Vec::with_capacity(alloc, systems.len())?;
    for system in systems {
        grammars.push(Grammar::new(alloc, &system.rules)?)?;
    }
    Ok(grammars)
}

impl PhraseTeller<'_> {
    /// Runs the grammars on the line of these words, and tells what they leave in a block with this number. The crew
    /// makes the runs.
    pub fn tell<C: Crew>(
        &self,
        alloc: Global,
        crew: &C,
        number: usize,
        words: &[Label],
    ) -> Result<ToldPhrase, AllocError>
        requires crew { C.ready crew.now }
        requires limit { IsLimit self.now.limit }
        requires readings { 1 ≤ self.now.readings }
        requires ready { AreReady self.now.systems.now self.now.grammars.now }
        requires named { AreSystemsNamed (length self.now.names.now) self.now.systems.now }
        requires accepted { AreAccepted (map grammar_of self.now.systems.now) }
        requires systems { length self.now.systems.now ≤ most_systems }
        requires some { 0 < length words.now }
        requires few { length words.now ≤ most_words }
        requires words { (word : Label) → word ∈ words.now → word.0 < length self.now.names.now }
        ensures { IfOk result (λ told. IsBlockOf self.now.limit self.now.readings self.now.names.now
            (map grammar_of self.now.systems.now) number words.now told.end told.text.items) }
    {
        let start = linear(alloc, words)?;
        let end = self.run(alloc, crew, start)?;
        let mut text = phrase_line(alloc, number)?;
        self.append_end(alloc, &end, &mut text)?;
        Ok(ToldPhrase { end, text })
    }

    // Runs the grammars one after another, each on the graph that the one before it left.
    fn run<C: Crew>(&self, alloc: Global, crew: &C, start: Graph) -> Result<LineEnd, AllocError>
        requires crew { C.ready crew.now }
        requires limit { IsLimit self.now.limit }
        requires ready { AreReady self.now.systems.now self.now.grammars.now }
        requires named { AreSystemsNamed (length self.now.names.now) self.now.systems.now }
        requires accepted { AreAccepted (map grammar_of self.now.systems.now) }
        requires can_go_on { CanGoOn self.now.names.now start (length self.now.systems.now) }
        ensures end { IfOk result (IsLineEnd self.now.limit (map grammar_of self.now.systems.now) start) }
        ensures named { IfOk result (IsLineEndNamed (length self.now.names.now)) }
    {
        let mut graph = start;
        for grammar in self.grammars {
            let end = stage_by(alloc, crew, grammar, &graph, self.limit)?;
            match end {
                StageEnd::Left { graph: left, .. } => graph = left,
                StageEnd::Empty { .. } => return Ok(LineEnd::Empty),
                StageEnd::Over => return Ok(LineEnd::Over),
            }
        }
        Ok(LineEnd::Left(graph))
    }

    // Appends what is told of a line that ends so.
    fn append_end(&self, alloc: Global, end: &LineEnd, out: &mut Vec<u8>) -> Result<(), AllocError>
        requires readings { 1 ≤ self.now.readings }
        requires named { IsLineEndNamed (length self.now.names.now) end.now }
        ensures { OnOk result (IsAppended
            (TellsEnd self.now.limit self.now.readings self.now.names.now end.now) out.old.items out.new.items) }
    {
        match end {
            LineEnd::Left(graph) => append_readings(alloc, self.names, graph, self.readings, out),
            LineEnd::Empty => append_none(out),
            LineEnd::Over => append_limit(alloc, self.limit, out),
        }
    }
}

/// Appends that no arc is left.
fn append_none(out: &mut Vec<u8>) -> Result<(), AllocError>
    ensures { OnOk result (out.new.items ≡ out.old.items ++ line (codes "-VIDE-.")) }
{
    out.extend_from_slice(b"-VIDE-.\n")?;
    Ok(())
}

/// The first line of the block with this number.
fn phrase_line(alloc: Global, number: usize) -> Result<Vec<u8>, AllocError>
    ensures { IfOk result (λ line. line.items ≡ phrase_line number) }
{
    let digits = number.to_string(alloc)?;
    let mut line = b"# PHRASE ".to_vec(alloc)?;
    line.extend_from_slice(digits.as_bytes())?;
    line.extend_from_slice(b"\n")?;
    Ok(line)
}
