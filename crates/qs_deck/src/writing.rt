//! Decks, written.

ghost use Rattle.std.specs.Prelude.{◌≡◌, ◌++◌, ◌<◌, OnOk, OnErr, length, map, take, flat_map};
ghost use Rattle.qs_tree.specs.Lists.{◌∈◌};
ghost use Rattle.qs_pattern.specs.Rules.{Rule};
ghost use Rattle.qs_deck.specs.Decks.{grammar_of};
ghost use Rattle.qs_deck.specs.Named.{IsRuleNamed, IsSystemNamed, AreSystemsNamed};
ghost use Rattle.qs_deck.specs.Texts.{rule_line, grammar_text, mark_text, version_text, deck_text};

use crate::deck::Deck;
use crate::system::System;
use qs_graphtext::write_graph;
use qs_pattern::Rule;
use qs_ruletext::write_rule;
use qs_tree::{Names, write_label};
use std::alloc::{AllocError, Global};

/// Appends the deck in canonical spelling: in version 2 the line `-VERSION- 2.`; then for each grammar the line
/// `-SYSTEME- S.`, or `-SYSTEME- S -UNIQUE-.` where it is marked, and a line for each rule; then the graph. Where there
/// is no memory, `out` is left as it was.
pub fn write_deck(alloc: Global, deck: &Deck, out: &mut Vec<u8>) -> Result<(), AllocError>
    ensures ok { OnOk result (out.new.items ≡ out.old.items
        ++ deck_text deck.now.version deck.now.names (map grammar_of deck.now.systems.items) deck.now.graph) }
    ensures err { OnErr result (out.new.items ≡ out.old.items) }
{
    let before = out.len();
    let written = append_deck(alloc, deck, out);
    if written.is_err() {
        out.truncate(before);
    }
    written
}

/// Appends the deck. After an error, a part of it may stand in `out`.
fn append_deck(alloc: Global, deck: &Deck, out: &mut Vec<u8>) -> Result<(), AllocError>
    ensures ok { OnOk result (out.new.items ≡ out.old.items
        ++ deck_text deck.now.version deck.now.names (map grammar_of deck.now.systems.items) deck.now.graph) }
    ensures err { OnErr result (take (length out.old.items) out.new.items ≡ out.old.items) }
{
    append_version(deck.version, out)?;
    append_systems(alloc, &deck.names, &deck.systems, out)?;
    write_graph(alloc, &deck.graph, &deck.names, out)
}

/// Appends the line of the version, which is there in version 2 alone. After an error, a part of it may stand in `out`.
fn append_version(version: u8, out: &mut Vec<u8>) -> Result<(), AllocError>
    ensures ok { OnOk result (out.new.items ≡ out.old.items ++ version_text version) }
    ensures err { OnErr result (take (length out.old.items) out.new.items ≡ out.old.items) }
{
    if version == 2 {
        out.extend_from_slice(b"-VERSION- 2.\n")?;
    }
    Ok(())
}

/// Appends the grammars. After an error, a part of them may stand in `out`.
fn append_systems(
    alloc: Global,
    names: &Names,
    systems: &[System],
    out: &mut Vec<u8>,
) -> Result<(), AllocError>
    requires { AreSystemsNamed (length names.now) systems.now }
    ensures ok { OnOk result (out.new.items
        ≡ out.old.items ++ flat_map (grammar_text names.now) (map grammar_of systems.now)) }
    ensures err { OnErr result (take (length out.old.items) out.new.items ≡ out.old.items) }
{
    for system in systems {
        append_system(alloc, names, system, out)?;
    }
    Ok(())
}

/// Appends the mark of a grammar that has it. After an error, a part of it may stand in `out`.
fn append_mark(unique: bool, out: &mut Vec<u8>) -> Result<(), AllocError>
    ensures ok { OnOk result (out.new.items ≡ out.old.items ++ mark_text unique) }
    ensures err { OnErr result (take (length out.old.items) out.new.items ≡ out.old.items) }
{
    if unique {
        out.extend_from_slice(b" -UNIQUE-")?;
    }
    Ok(())
}

/// Appends the grammar: the line of its name, with its mark if it has it, and a line for each rule. After an error,
/// a part of it may stand in `out`.
fn append_system(
    alloc: Global,
    names: &Names,
    system: &System,
    out: &mut Vec<u8>,
) -> Result<(), AllocError>
    requires { IsSystemNamed (length names.now) system.now }
    ensures ok { OnOk result (out.new.items ≡ out.old.items ++ grammar_text names.now (grammar_of system.now)) }
    ensures err { OnErr result (take (length out.old.items) out.new.items ≡ out.old.items) }
{
    out.extend_from_slice(b"-SYSTEME- ")?;
    write_label(names, system.name, out)?;
    append_mark(system.unique, out)?;
    out.extend_from_slice(b".\n")?;
    append_rules(alloc, names, &system.rules, out)
}

/// Appends the lines of the rules. After an error, a part of them may stand in `out`.
fn append_rules(
    alloc: Global,
    names: &Names,
    rules: &[Rule],
    out: &mut Vec<u8>,
) -> Result<(), AllocError>
    requires { (rule : Rule) → rule ∈ rules.now → IsRuleNamed (length names.now) rule }
    ensures ok { OnOk result (out.new.items ≡ out.old.items ++ flat_map (rule_line names.now) rules.now) }
    ensures err { OnErr result (take (length out.old.items) out.new.items ≡ out.old.items) }
{
    for rule in rules {
        append_rule(alloc, names, rule, out)?;
    }
    Ok(())
}

/// Appends the line of the rule. After an error, it may stand in `out` without its line feed.
fn append_rule(
    alloc: Global,
    names: &Names,
    rule: &Rule,
    out: &mut Vec<u8>,
) -> Result<(), AllocError>
    requires { IsRuleNamed (length names.now) rule.now }
    ensures ok { OnOk result (out.new.items ≡ out.old.items ++ rule_line names.now rule.now) }
    ensures err { OnErr result (take (length out.old.items) out.new.items ≡ out.old.items) }
{
    write_rule(alloc, rule.left(), rule.right(), rule.cond(), names, out)?;
    out.extend_from_slice(b"\n")?;
    Ok(())
}
