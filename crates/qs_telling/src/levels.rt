//! Telling the levels of grammars.

ghost use Rattle.std.specs.Prelude.{◌≡◌, ◌<◌, ◌++◌, IfOk, OnOk, flat_map, length, map};
ghost use Rattle.qs_deck.specs.Decks.{grammar_of};
ghost use Rattle.qs_deck.specs.Named.{AreSystemsNamed};
ghost use Rattle.qs_telling.specs.LevelTexts.{level_line, levels_block, levels_front, TellsLevels};
ghost use Rattle.qs_telling.specs.working.Named.{AreLabelsNamed, AreLevelsNamed};

use crate::blocks::append_number;
use qs_deck::System;
use qs_levels::{Levels, find};
use qs_tree::{Label, Names, write_label};
use std::alloc::{AllocError, Global};

/// Appends what stands in front of the number of levels of a grammar with this name.
fn append_front(
    alloc: Global,
    names: &Names,
    name: Label,
    out: &mut Vec<u8>,
) -> Result<(), AllocError>
    requires { name.0 < length names.now }
    ensures { OnOk result (out.new.items ≡ out.old.items ++ levels_front names.now name) }
{
    out.extend_from_slice(b"-NIVEAUX- ")?;
    write_label(names, name, out)?;
    out.extend_from_slice(b" ")?;
    Ok(())
}

/// Appends the line of a label with its level.
fn append_level(
    alloc: Global,
    names: &Names,
    level: &(Label, u32),
    out: &mut Vec<u8>,
) -> Result<(), AllocError>
    requires { level.now.0.0 < length names.now }
    ensures { OnOk result (out.new.items ≡ out.old.items ++ level_line names.now level.now) }
{
    append_number(alloc, level.1, out)?;
    out.extend_from_slice(b" ")?;
    write_label(names, level.0, out)?;
    out.extend_from_slice(b"\n")?;
    Ok(())
}

/// Appends the lines on the levels of a grammar with this name, by what was found for its rules.
fn append_levels(
    alloc: Global,
    names: &Names,
    name: Label,
    found: &Option<Levels>,
    out: &mut Vec<u8>,
) -> Result<(), AllocError>
    requires name { name.0 < length names.now }
    requires labels { AreLevelsNamed (length names.now) found.now }
    ensures { OnOk result (out.new.items ≡ out.old.items ++ levels_block names.now name found.now) }
{
    append_front(alloc, names, name, out)?;
    match found {
        Some(levels) => {
            append_number(alloc, levels.count, out)?;
            out.extend_from_slice(b".\n")?;
            append_lines(alloc, names, &levels.of, out)
        }
        None => {
            out.extend_from_slice(b"-.\n")?;
            Ok(())
        }
    }
}

/// Appends the lines of labels with their levels.
fn append_lines(
    alloc: Global,
    names: &Names,
    levels: &[(Label, u32)],
    out: &mut Vec<u8>,
) -> Result<(), AllocError>
    requires { AreLabelsNamed (length names.now) levels.now }
    ensures { OnOk result (out.new.items ≡ out.old.items ++ flat_map (level_line names.now) levels.now) }
{
    for level in levels {
        append_level(alloc, names, level, out)?;
    }
    Ok(())
}

/// The text on the levels of grammars, one behind the other.
pub fn levels_text(alloc: Global, names: &Names, systems: &[System]) -> Result<Vec<u8>, AllocError>
    requires { AreSystemsNamed (length names.now) systems.now }
    ensures { IfOk result (λ text. TellsLevels names.now (map grammar_of systems.now) text.items) }
{
    let mut text = Vec::new(alloc);
    for system in systems {
        let found = find(alloc, &system.rules)?;
        append_levels(alloc, names, system.name, &found, &mut text)?;
    }
    Ok(text)
}
