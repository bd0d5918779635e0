//! Large decks, made from a number.

ghost use Rattle.std.specs.Prelude.{◌≡◌, ◌≤◌, ◌<◌, ◌+◌, ◌-◌, ◌^◌, ℕ, [], ◌∷◌, ◌++◌, IfOk, OnOk, Contains, length, map};
ghost use Rattle.std.specs.List.{range_with_len};
ghost use Rattle.std.specs.String.{string_bytes};
ghost use Rattle.qs_deck.specs.Limits.{most_size};
ghost use Rattle.qs_pattern.specs.Patterns.{Patterns, no_pattern, node_first, pattern_before, patterns};
ghost use Rattle.qs_deck.specs.Decks.{grammar_of};
ghost use Rattle.qs_deck.specs.MadeDecks.{made_names, first_var, second_var, of_level, level_rule, made_grammar};
ghost use Rattle.qs_deck.specs.MadeDecks.{word_tree, words, made_graph};
ghost use Rattle.qs_deck.specs.working.MadeParts.{numbered};

use crate::deck::Deck;
use crate::system::System;
use qs_graph::Graph;
use qs_pattern::{Head, Pattern, Rule, Var};
use qs_tree::{Forest, Label, Names, Tree};
use std::alloc::{AllocError, Global};

/// The label of the grammar's name.
const NAME: Label = Label(0);

/// The number of words in the made deck of this size.
pub fn word_count(size: u32) -> u32
    requires { size ≤ most_size }
    ensures value { result ≡ 2 ^ size }
    ensures some { 1 ≤ result }
    ensures few { result ≤ 8192 }
{
    2_u32.pow(size)
}

/// The letter and the number in decimal.
fn numbered(alloc: Global, letter: &str, number: u32) -> Result<String, AllocError>
    ensures { IfOk result (λ name. string_bytes name ≡ numbered letter.now number) }
{
    format!(in alloc; "{letter}{number}")
}

/// Gives so many texts, the letter with the numbers from `first` on, the next labels. No text is one of them yet.
fn intern_numbered(
    alloc: Global,
    letter: &str,
    first: u32,
    count: u32,
    names: &mut Names,
) -> Result<(), AllocError>
    requires few { length names.old + count ≤ 8208 }
    requires low { first ≤ 1 }
    requires new { (number : ℕ) → number ≤ 8208 → ¬ Contains names.old (numbered letter.now number) }
    ensures { OnOk result (names.new ≡ names.old ++ map (numbered letter.now) (range_with_len first count)) }
{
    for number in first..first + count {
        let name = numbered(alloc, letter, number)?;
        names.intern(&name)?;
    }
    Ok(())
}

/// The names of the made deck of this size.
fn made_names(alloc: Global, size: u32) -> Result<Names, AllocError>
    requires { size ≤ most_size }
    ensures { IfOk result (λ names. names ≡ made_names size) }
{
    let mut names = Names::new(alloc);
    names.intern("M")?;
    intern_numbered(alloc, "T", 0, size + 1, &mut names)?;
    intern_numbered(alloc, "M", 1, word_count(size), &mut names)?;
    Ok(names)
}

/// The variable `I*`.
fn first_var() -> Var
    ensures { result ≡ first_var }
{
    Var {
        letter: b'I',
        number: 0,
    }
}

/// The variable `J*`.
fn second_var() -> Var
    ensures { result ≡ second_var }
{
    Var {
        letter: b'J',
        number: 0,
    }
}

/// The pattern of a tree with this label, and with these patterns of its subtrees.
fn labelled(label: Label, kids: Vec<Pattern>) -> Pattern
    ensures { (behind : Patterns)
        → pattern_before result behind ≡ node_first (Head.Label label) (patterns kids.items) behind }
{
    Pattern::Node {
        head: Head::Label(label),
        kids,
    }
}

/// This pattern alone.
fn one(alloc: Global, pattern: Pattern) -> Result<Vec<Pattern>, AllocError>
    ensures { IfOk result (λ list. patterns list.items ≡ pattern_before pattern no_pattern) }
{
    let mut list = Vec::new(alloc);
    list.push(pattern)?;
    Ok(list)
}

/// The pattern of a tree of this level that has one subtree, for which the variable stands.
fn of_level(alloc: Global, level: u32, var: Var) -> Result<Pattern, AllocError>
    requires { level ≤ most_size }
    ensures { IfOk result (λ pattern. (behind : Patterns) → pattern_before pattern behind ≡ of_level level var behind) }
{
    Ok(labelled(Label(level + 1), one(alloc, Pattern::Tree(var))?))
}

/// The left side of the rule that joins two trees of this level.
fn level_left(alloc: Global, level: u32) -> Result<Vec<Pattern>, AllocError>
    requires { level ≤ most_size }
    ensures { IfOk result (λ side.
        patterns side.items ≡ of_level level first_var (of_level level second_var no_pattern)) }
{
    let first = of_level(alloc, level, first_var())?;
    let second = of_level(alloc, level, second_var())?;
    let mut side = Vec::new(alloc);
    side.push(first)?;
    side.push(second)?;
    Ok(side)
}

/// A side of one tree of this level.
fn level_right(alloc: Global, level: u32) -> Result<Vec<Pattern>, AllocError>
    requires { level ≤ most_size }
    ensures { IfOk result (λ side. patterns side.items ≡ of_level level first_var no_pattern) }
{
    let tree = of_level(alloc, level, first_var())?;
    one(alloc, tree)
}

/// The rule that joins two trees of this level.
fn level_rule(alloc: Global, level: u32) -> Result<Rule, AllocError>
    requires { level < most_size }
    ensures { IfOk result (λ rule. rule ≡ level_rule level) }
{
    let left = level_left(alloc, level)?;
    let right = level_right(alloc, level + 1)?;
    Ok(Rule::new(alloc, left, right, None, false))
}

/// The grammar of the made deck of this size.
fn made_grammar(alloc: Global, size: u32) -> Result<System, AllocError>
    requires { size ≤ most_size }
    ensures { IfOk result (λ system. grammar_of system ≡ made_grammar size) }
{
    let mut rules = Vec::new(alloc);
    for level in 0..size {
        rules.push(level_rule(alloc, level)?)?;
    }
    Ok(System {
        name: NAME,
        unique: false,
        rules,
    })
}

/// The tree of a word.
fn word_tree(alloc: Global, size: u32, word: u32) -> Result<Tree, AllocError>
    requires size { size ≤ most_size }
    requires word { word ≤ 8192 }
    ensures { IfOk result (λ tree. tree ≡ word_tree size word) }
{
    let leaf = Tree::leaf(alloc, Label(size + 1 + word))?;
    let mut kids = Forest::empty(alloc);
    kids.push(leaf.view())?;
    Tree::node(alloc, Label(1), kids.view())
}

/// The trees of the words of the made deck of this size.
fn word_trees(alloc: Global, size: u32) -> Result<Vec<Tree>, AllocError>
    requires { size ≤ most_size }
    ensures { IfOk result (λ trees. trees.items ≡ map (word_tree size) (words size)) }
{
    let mut trees = Vec::new(alloc);
    for word in 1..1 + word_count(size) {
        trees.push(word_tree(alloc, size, word)?)?;
    }
    Ok(trees)
}

/// The graph of the made deck of this size.
fn made_graph(alloc: Global, size: u32) -> Result<Graph, AllocError>
    requires { size ≤ most_size }
    ensures { IfOk result (λ graph. graph ≡ made_graph size) }
{
    let trees = word_trees(alloc, size)?;
    Graph::line(alloc, 1, 2, trees)
}

/// The made deck of this size, from 0 to 13: a chain of 2^size words, and a grammar that joins two trees of one level
/// into a tree of the next, until one tree is left. The error comes where memory was wanting.
pub fn made(alloc: Global, size: u32) -> Result<Deck, AllocError>
    requires { size ≤ most_size }
    ensures version { IfOk result (λ deck. deck.version ≡ 1) }
    ensures names { IfOk result (λ deck. deck.names ≡ made_names size) }
    ensures systems { IfOk result (λ deck. map grammar_of deck.systems.items ≡ made_grammar size ∷ []) }
    ensures graph { IfOk result (λ deck. deck.graph ≡ made_graph size) }
{
    let names = made_names(alloc, size)?;
    let mut systems = Vec::new(alloc);
    systems.push(made_grammar(alloc, size)?)?;
    let graph = made_graph(alloc, size)?;
    Ok(Deck {
        version: 1,
        names,
        systems,
        graph,
    })
}
