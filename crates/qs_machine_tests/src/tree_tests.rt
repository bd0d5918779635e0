//! What no clause says: that calls succeed where memory is left, and that deep trees and long lists are no trouble.

ghost use Rattle.std.specs.Prelude.{◌<◌, ◌+◌, IfOk};
ghost use Rattle.qs_tree.specs.Cells.{IsTree, tree_of};
ghost use Rattle.qs_tree.specs.Text.{IsNamed};

use qs_tree::{
    Cell, Forest, ForestRef, Label, Memory, Names, Tree, TreeRef, same, same_forest, write_tree,
};
use std::alloc::Global;
use std::process::Abort;

/// Whether a copy of the tree is equal to it.
fn is_copied<R: Abort>(rt: &R, tree: &Tree) -> bool {
    let copy = tree.copy().expect(rt, "a copy");
    same(copy.view(), tree.view())
}

/// Whether copies of a list of two trees, and of twice that list, are equal to them.
fn is_list_copied<R: Abort>(rt: &R, alloc: Global, trees: ForestRef<'_>) -> bool {
    let mut list = Forest::of(alloc, trees).expect(rt, "a copy");
    let is_equal = same_forest(list.view(), trees);
    list.splice(trees).expect(rt, "the list twice");
    let copy = list.copy().expect(rt, "a second copy");
    is_equal && list.view().len() == 4 && same_forest(copy.view(), list.view())
}

/// The tree with the label 0 and two subtrees of one node each, 1 and 2.
fn pair<R: Abort>(rt: &R, alloc: Global) -> Tree {
    let mut kids = Forest::empty(alloc);
    for label in 1..3 {
        let leaf = Tree::leaf(alloc, Label(label)).expect(rt, "a tree");
        kids.push(leaf.view()).expect(rt, "a tree more");
    }
    Tree::node(alloc, Label(0), kids.view()).expect(rt, "a tree of two")
}

#[test]
fn copies_of_a_tree_and_of_its_list_are_equal(rt: HostRuntime) {
    let tree = pair(&rt, rt.alloc());
    let second = Tree::of(rt.alloc(), tree.view()).expect(&rt, "a copy");
    assert!(rt; is_copied(&rt, &tree) && same(second.view(), tree.view()));
    assert!(rt; is_list_copied(&rt, rt.alloc(), tree.view().kids()));
}

/// Whether the list has just one tree, and this one.
fn is_alone(list: ForestRef<'_>, tree: TreeRef<'_>) -> bool {
    matches!(list.first_rest(), Some((first, rest)) if same(first, tree) && rest.len() == 0)
}

#[test]
fn a_tree_alone_is_the_list_of_this_tree(rt: HostRuntime) {
    let tree = pair(&rt, rt.alloc());
    assert!(rt; tree.view().alone().len() == 1 && is_alone(tree.view().alone(), tree.view()));
}

/// The cells of a tree in which each node but the last has one subtree.
fn chain(alloc: Global, label: Label, depth: usize) -> Result<Vec<Cell>, Memory>
    requires { 0 < depth }
    ensures tree { IfOk result (λ cells. IsTree cells.items) }
    ensures named { IfOk result (λ cells. IsNamed (label.0 + 1) (tree_of cells.items)) }
{
    let mut cells = Vec::new(alloc);
    let mut left = depth;
    while left > 0 {
        cells.push(Cell {
            label,
            extent: left,
        })?;
        left -= 1;
    }
    Ok(cells)
}

/// The text of the tree with the label A in which each node but the last has one subtree.
fn chain_text<R: Abort>(rt: &R, alloc: Global) -> String {
    let mut text = "A(".repeat(alloc, 99_999).expect(rt, "the front");
    text.push('A').expect(rt, "the last label");
    let end = ")".repeat(alloc, 99_999).expect(rt, "the end");
    text.push_str(&end).expect(rt, "the whole");
    text
}

#[test]
fn a_tree_of_depth_100_000_is_copied_compared_and_written(rt: HostRuntime) {
    let alloc = rt.alloc();
    let cells = chain(alloc, Label(0), 100_000).expect(&rt, "its cells");
    let deep = TreeRef { cells: &cells };
    assert!(rt; is_copied(&rt, &Tree::of(alloc, deep).expect(&rt, "the tree")));
    let mut names = Names::new(alloc);
    names.intern("A").expect(&rt, "a name");
    assert!(rt; names.len() == 1);
    let mut out = Vec::new(alloc);
    write_tree(alloc, &names, deep, &mut out).expect(&rt, "its text");
    assert!(rt; out.as_slice() == chain_text(&rt, alloc).as_bytes());
}

#[test]
fn a_list_of_100_000_trees_is_copied_and_compared(rt: HostRuntime) {
    let alloc = rt.alloc();
    let leaf = Tree::leaf(alloc, Label(1)).expect(&rt, "a tree");
    let mut list = Forest::empty(alloc);
    for _ in 0..100_000 {
        list.push(leaf.view()).expect(&rt, "a tree more");
    }
    assert!(rt; list.view().len() == 100_000);
    let copy = list.copy().expect(&rt, "a copy");
    assert!(rt; same_forest(copy.view(), list.view()));
    let tree = Tree::node(alloc, Label(0), copy.view()).expect(&rt, "a tree of them");
    assert!(rt; tree.view().kids().len() == 100_000);
}
