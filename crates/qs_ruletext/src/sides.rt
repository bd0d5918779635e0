//! Trees, lists of trees and sides of rules, read from tokens.

ghost use Rattle.std.specs.Prelude.{◌≡◌, ◌^◌, ◌+◌, ◌<◌, false, IfOk, IfErr, IfSome, IfNone, IsTrue, IsFalse, length};
ghost use Rattle.qs_lex.specs.Grammar.{sort_of, part};
ghost use Rattle.qs_lex.specs.Expecting.{NextIsNo};
ghost use Rattle.qs_pattern.specs.Patterns.{patterns};
ghost use Rattle.qs_pattern.specs.working.Patterns.{one_pattern};
ghost use Rattle.qs_reader.specs.Names.{KeepsNames};
ghost use Rattle.qs_reader.specs.Readers.{rest_of, IsNext, Stays};
ghost use Rattle.qs_ruletext.specs.Grammar.{tree, list, item, side};
ghost use Rattle.qs_ruletext.specs.working.Readers.{IsGood, begins_tree};
ghost use Rattle.qs_ruletext.specs.working.Readers.{is_variable, sort_of_class, PassesVariable, IsTreeSort, BeginsTree};
ghost use Rattle.qs_ruletext.specs.working.Readers.{a_head, in_parentheses, ReadsHead, IsRead, Ends, AList, ASide};
ghost use Rattle.qs_ruletext.specs.working.Readers.{ATree, AnItem, Subtrees};

use qs_lex::Kind;
use qs_pattern::{Head, Pattern, Var, VarClass};
use qs_reader::{Reader, TextEnd};
use qs_tree::Names;

/// The variable that a token of this kind is.
fn variable_of(kind: Kind) -> Option<Var>
    requires { IsGood kind }
    ensures some { IfSome result (λ var. kind ≡ Kind.Variable var.letter var.number) }
    ensures none { IfNone result (is_variable (sort_of kind) ≡ false) }
{
    match kind {
        Kind::Variable { letter, number } => Var::new(letter, number),
        _ => None,
    }
}

/// The variable of this class that the next token is, which is passed. None where it is none.
fn variable(reader: &mut Reader<'_>, class: VarClass) -> Option<Var>
    ensures some { IfSome result (λ var. PassesVariable (sort_of_class class) var reader.old reader.new) }
    ensures none { IfNone result (Stays (sort_of_class class) reader.old reader.new) }
{
    let var = variable_of(reader.peek()?.kind)?;
    if var.class() != class {
        return None;
    }
    reader.take();
    Some(var)
}

/// Whether a token of this kind begins a tree.
fn begins_tree(kind: Kind) -> bool
    ensures yes { IsTrue result → IsTreeSort (sort_of kind) }
    ensures no { IsFalse result → begins_tree (sort_of kind) ≡ false }
{
    match kind {
        Kind::Bare | Kind::Quoted => true,
        Kind::Variable { letter, .. } => matches!(letter, b'A'..=b'F' | b'I'..=b'N'),
        _ => false,
    }
}

/// Whether the next token begins a tree.
pub fn is_at_tree(reader: &Reader<'_>) -> bool
    ensures yes { IsTrue result → BeginsTree reader.now }
    ensures no { IsFalse result → NextIsNo begins_tree (rest_of reader.now) }
{
    match reader.peek() {
        Some(next) => begins_tree(next.kind),
        None => false,
    }
}

/// A label or a label variable.
fn head(reader: &mut Reader<'_>, names: &mut Names) -> Result<Head, TextEnd>
    requires room { length names.old + length (rest_of reader.old) < 2 ^ 32 }
    ensures keeps { KeepsNames names.old names.new }
    ensures shorter { IfOk result (λ _. length (rest_of reader.new) < length (rest_of reader.old)) }
    ensures read { IfOk result (λ head. IsRead a_head (ReadsHead head) reader.old reader.new names.old names.new) }
    ensures ends { IfErr result (Ends a_head reader.old) }
{
    match variable(reader, VarClass::Label) {
        Some(var) => Ok(Head::Var(var)),
        None => Ok(Head::Label(reader.label(names)?)),
    }
}

/// What stands in parentheses behind a head, if anything does.
#[cycle(trees)]
fn subtrees(reader: &mut Reader<'_>, names: &mut Names) -> Result<Vec<Pattern>, TextEnd>
    requires room { length names.old + length (rest_of reader.old) < 2 ^ 32 }
    ensures keeps { KeepsNames names.old names.new }
    ensures read { IfOk result
        (λ kids. IsRead in_parentheses (Subtrees (patterns kids.items)) reader.old reader.new names.old names.new) }
    ensures ends { IfErr result (Ends in_parentheses reader.old) }
{
    if !reader.pass(Kind::Opening) {
        return Ok(Vec::new(reader.alloc()));
    }
    if reader.pass(Kind::Closing) {
        return Ok(Vec::new(reader.alloc()));
    }
    let kids = list(reader, names)?;
    reader.expect(Kind::Closing)?;
    Ok(kids)
}

/// A tree.
#[cycle(trees)]
fn tree(reader: &mut Reader<'_>, names: &mut Names) -> Result<Pattern, TextEnd>
    requires room { length names.old + length (rest_of reader.old) < 2 ^ 32 }
    ensures keeps { KeepsNames names.old names.new }
    ensures read { IfOk result
        (λ found. IsRead (part tree) (ATree (one_pattern found)) reader.old reader.new names.old names.new) }
    ensures ends { IfErr result (Ends (part tree) reader.old) }
{
    if let Some(var) = variable(reader, VarClass::Tree) {
        return Ok(Pattern::Tree(var));
    }
    let head = head(reader, names)?;
    let kids = subtrees(reader, names)?;
    Ok(Pattern::Node { head, kids })
}

/// An item of a list.
#[cycle(trees)]
fn item(reader: &mut Reader<'_>, names: &mut Names) -> Result<Pattern, TextEnd>
    requires room { length names.old + length (rest_of reader.old) < 2 ^ 32 }
    ensures keeps { KeepsNames names.old names.new }
    ensures read { IfOk result
        (λ one. IsRead (part item) (AnItem (one_pattern one)) reader.old reader.new names.old names.new) }
    ensures ends { IfErr result (Ends (part item) reader.old) }
{
    match variable(reader, VarClass::Forest) {
        Some(var) => Ok(Pattern::Forest(var)),
        None => tree(reader, names),
    }
}

/// A list.
#[cycle(trees)]
pub fn list(reader: &mut Reader<'_>, names: &mut Names) -> Result<Vec<Pattern>, TextEnd>
    requires room { length names.old + length (rest_of reader.old) < 2 ^ 32 }
    ensures keeps { KeepsNames names.old names.new }
    ensures read { IfOk result
        (λ found. IsRead (part list) (AList (patterns found.items)) reader.old reader.new names.old names.new) }
    ensures ends { IfErr result (Ends (part list) reader.old) }
{
    let first = item(reader, names)?;
    let mut items = vec![in reader.alloc(); first]?;
    while reader.pass(Kind::Comma) {
        let next = item(reader, names)?;
        items.push(next)?;
    }
    Ok(items)
}

/// A side of a rule.
pub fn side(reader: &mut Reader<'_>, names: &mut Names) -> Result<Vec<Pattern>, TextEnd>
    requires room { length names.old + length (rest_of reader.old) < 2 ^ 32 }
    ensures keeps { KeepsNames names.old names.new }
    ensures read { IfOk result
        (λ found. IsRead (part side) (ASide (patterns found.items)) reader.old reader.new names.old names.new) }
    ensures ends { IfErr result (Ends (part side) reader.old) }
{
    let first = tree(reader, names)?;
    let mut trees = vec![in reader.alloc(); first]?;
    while reader.pass(Kind::Plus) {
        let next = tree(reader, names)?;
        trees.push(next)?;
    }
    Ok(trees)
}
