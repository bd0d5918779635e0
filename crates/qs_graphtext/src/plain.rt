//! Trees without variables, read from tokens.

ghost use Rattle.std.specs.Prelude.{◌≡◌, ◌^◌, ◌+◌, ◌<◌, OnOk, IfOk, IfErr, ◌++◌, length};
ghost use Rattle.qs_lex.specs.Grammar.{comma, part};
ghost use Rattle.qs_tree.specs.Trees.{Forest, Tree as LabelledTree};
ghost use Rattle.qs_tree.specs.Cells.{cells_of, cells_of_tree};
ghost use Rattle.qs_reader.specs.Names.{KeepsNames};
ghost use Rattle.qs_reader.specs.Readers.{rest_of};
ghost use Rattle.qs_graphtext.specs.Grammar.{plain};
ghost use Rattle.qs_graphtext.specs.working.Readers.{IsRead, Ends, plains_with, in_parentheses};
ghost use Rattle.qs_graphtext.specs.working.Readers.{APlain, Subtrees, Plains, ARooted};

use qs_lex::Kind;
use qs_reader::{Reader, TextEnd};
use qs_tree::{Cell, Names, Tree, TreeRef};

/// A tree. Its cells come behind those that are there.
#[cycle(trees)]
fn plain(reader: &mut Reader<'_>, names: &mut Names, cells: &mut Vec<Cell>) -> Result<(), TextEnd>
    requires room { length names.old + length (rest_of reader.old) < 2 ^ 32 }
    ensures keeps { KeepsNames names.old names.new }
    ensures read { OnOk result ((tree : LabelledTree) × (cells.new.items ≡ cells.old.items ++ cells_of_tree tree)
        × IsRead (part plain) (APlain tree) reader.old reader.new names.old names.new) }
    ensures ends { IfErr result (Ends (part plain) reader.old) }
{
    let label = reader.label(names)?;
    let root = cells.len();
    cells.push(Cell { label, extent: 1 })?;
    subtrees(reader, names, cells)?;
    cells[root] = Cell {
        label,
        extent: cells.len() - root,
    };
    Ok(())
}

/// What stands in parentheses behind a label, if anything does.
/// The cells of these trees come behind those that are there.
#[cycle(trees)]
fn subtrees(
    reader: &mut Reader<'_>,
    names: &mut Names,
    cells: &mut Vec<Cell>,
) -> Result<(), TextEnd>
    requires room { length names.old + length (rest_of reader.old) < 2 ^ 32 }
    ensures keeps { KeepsNames names.old names.new }
    ensures read { OnOk result ((kids : Forest) × (cells.new.items ≡ cells.old.items ++ cells_of kids)
        × IsRead in_parentheses (Subtrees kids) reader.old reader.new names.old names.new) }
    ensures ends { IfErr result (Ends in_parentheses reader.old) }
{
    if !reader.pass(Kind::Opening) {
        return Ok(());
    }
    if reader.pass(Kind::Closing) {
        return Ok(());
    }
    plains(reader, names, cells)?;
    reader.expect(Kind::Closing)?;
    Ok(())
}

/// Trees with a comma between two. Their cells come behind those that are there.
#[cycle(trees)]
fn plains(reader: &mut Reader<'_>, names: &mut Names, cells: &mut Vec<Cell>) -> Result<(), TextEnd>
    requires room { length names.old + length (rest_of reader.old) < 2 ^ 32 }
    ensures keeps { KeepsNames names.old names.new }
    ensures read { OnOk result ((kids : Forest) × (cells.new.items ≡ cells.old.items ++ cells_of kids)
        × IsRead (plains_with comma) (Plains kids) reader.old reader.new names.old names.new) }
    ensures ends { IfErr result (Ends (plains_with comma) reader.old) }
{
    plain(reader, names, cells)?;
    while reader.pass(Kind::Comma) {
        plain(reader, names, cells)?;
    }
    Ok(())
}

/// A tree.
fn tree(reader: &mut Reader<'_>, names: &mut Names) -> Result<Tree, TextEnd>
    requires room { length names.old + length (rest_of reader.old) < 2 ^ 32 }
    ensures keeps { KeepsNames names.old names.new }
    ensures read { IfOk result
        (λ tree. IsRead (part plain) (APlain tree) reader.old reader.new names.old names.new) }
    ensures ends { IfErr result (Ends (part plain) reader.old) }
{
    let mut cells = Vec::new(reader.alloc());
    plain(reader, names, &mut cells)?;
    let tree = Tree::of(reader.alloc(), TreeRef { cells: &cells })?;
    Ok(tree)
}

/// A tree, and the byte of the text at which it begins.
pub fn rooted(reader: &mut Reader<'_>, names: &mut Names) -> Result<(Tree, u32), TextEnd>
    requires room { length names.old + length (rest_of reader.old) < 2 ^ 32 }
    ensures keeps { KeepsNames names.old names.new }
    ensures read { IfOk result
        (λ found. IsRead (part plain) (ARooted found.0 found.1) reader.old reader.new names.old names.new) }
    ensures ends { IfErr result (Ends (part plain) reader.old) }
{
    let first = reader.next_token()?;
    let tree = tree(reader, names)?;
    Ok((tree, first.from))
}
