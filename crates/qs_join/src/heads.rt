//! The places of left sides by the roots that they ask for.

ghost use Rattle.std.specs.Prelude.{◌≡◌, ◌<◌, ◌++◌, ◌∷◌, [], List, length, map, IfOk, OnOk, Option};
ghost use Rattle.std.specs.Prelude.{if◌then◌else◌};
ghost use Rattle.qs_tree.specs.declared.cell.Label.{Label};
ghost use Rattle.qs_pattern.specs.Limits.{rule_bound};
ghost use Rattle.qs_pattern.specs.Rules.{IsAccepted};
ghost use Rattle.qs_join.specs.Heads.{roots_asked, is_same_root, places_from, key_of, exact_of, wild_of, below_of};
ghost use Rattle.qs_join.specs.Heads.{AreHeadsOf};
ghost use Rattle.qs_join.specs.working.Listing.{root_of, first_of, places_of, narrow_of};
ghost use Rattle.qs_join.specs.working.Below.{Adds, IsOne, AsksOne, IsOfRule, AsksIn};

use crate::lists::Lists;
use qs_pattern::{Head, Pattern, Rule};
use qs_tree::Label;
use std::alloc::{AllocError, Global};

/// For each label, the places of left sides at which a node with this label as head stands; and the places at which a
/// tree of any root can stand. A place is the number of a rule and the place in its left side, both counted from 0.
#[derive(Drop)]
pub struct Heads {
    exact: Lists,
    wild: Vec<(u32, u32)>,
    // The places of `exact` once more: those that ask for no root of the first subtree, by the label; and those that
    // ask for one, by both labels.
    broad: Lists,
    narrow: Lists,
}

// The root that a tree must have to stand at the pattern; None where any root does.
fn asked_root(pattern: &Pattern) -> Option<Label>
    ensures { result ≡ root_of pattern.now }
{
    match pattern {
        Pattern::Node { head, .. } => match head {
            Head::Label(label) => Some(*label),
            Head::Var(_) => None,
        },
        _ => None,
    }
}

// The root that the first subtree of a tree must have to stand at the pattern; None where the pattern doesn't tell.
fn asked_first(pattern: &Pattern) -> Option<Label>
    ensures { result ≡ first_of pattern.now }
{
    match pattern {
        Pattern::Node { kids, .. } => match kids.first() {
            Some(first) => asked_root(first),
            None => None,
        },
        _ => None,
    }
}

// The key of two labels.
fn key(root: Label, first: Label) -> u64
    ensures { result ≡ key_of root first }
{
    root.0 as u64 * 4_294_967_296 + first.0 as u64
}

impl Heads {
    /// The places of the left sides of these rules, of which there are fewer than 4,294,967,295.
    pub fn new(alloc: Global, rules: &[Rule]) -> Result<Heads, AllocError>
        requires { length rules.now < rule_bound }
        ensures { IfOk result (λ heads. AreHeadsOf rules.now heads) }
    {
        let mut heads = Heads {
            exact: Lists::new(alloc),
            wild: Vec::new(alloc),
            broad: Lists::new(alloc),
            narrow: Lists::new(alloc),
        };
        for (number, rule) in rules.iter().enumerate() {
            heads.add_rule(number as u32, rule)?;
        }
        Ok(heads)
    }

    /// The ascending list of exactly the pairs of a rule and a place of its left side at which a node with this label
    /// as head stands. Takes no memory.
    pub fn exact(&self, label: Label) -> &[(u32, u32)]
        ensures { result.now ≡ exact_of self.now label }
    {
        self.exact.at(label.0 as u64)
    }

    /// The same for tree variables and for nodes with a label variable as head. Takes no memory.
    pub fn wild(&self) -> &[(u32, u32)]
        ensures { result.now ≡ wild_of self.now }
    {
        &self.wild
    }

    /// Those of the exact places of a label that don't ask for the root of the first subtree. Takes no memory.
    pub(crate) fn broad(&self, label: Label) -> &[(u32, u32)]
        ensures { result.now ≡ below_of self.now label None }
    {
        self.broad.at(label.0 as u64)
    }

    /// Those that ask for this root of the first subtree, if any. Takes no memory.
    pub(crate) fn narrow(&self, label: Label, first: Option<Label>) -> &[(u32, u32)]
        ensures { result.now ≡ narrow_of self.now label first }
    {
        match first {
            Some(first) => self.narrow.at(key(label, first)),
            None => &[],
        }
    }

    // Appends the places of a rule's left side.
    fn add_rule(&mut self, number: u32, rule: &Rule) -> Result<(), AllocError>
        ensures places { OnOk result ((r : Option Label) → places_of self.new r ≡ places_of self.old r
            ++ map (λ place. (number, place)) (places_from r 0 (roots_asked rule.now.left))) }
        ensures below { OnOk result (Adds (IsOfRule number rule.now.left) (AsksIn number rule.now.left) self.old
            self.new) }
        ensures accepted { IsAccepted rule.now }
    {
        for (place, pattern) in rule.left().iter().enumerate() {
            self.add_place(
                asked_root(pattern),
                asked_first(pattern),
                (number, place as u32),
            )?;
        }
        Ok(())
    }

    // Appends one place, at which this root is asked for, and this one of the first subtree.
    fn add_place(
        &mut self,
        root: Option<Label>,
        first: Option<Label>,
        place: (u32, u32),
    ) -> Result<(), AllocError>
        ensures places { OnOk result ((r : Option Label) → places_of self.new r ≡ places_of self.old r
            ++ (if is_same_root r root then place ∷ [] else [])) }
        ensures below { OnOk result (Adds (IsOne place) (AsksOne root first place) self.old self.new) }
    {
        match root {
            Some(label) => {
                self.exact.add(label.0 as u64, place)?;
                self.add_below(label, first, place)
            }
            None => {
                self.wild.push(place)?;
                Ok(())
            }
        }
    }

    // Appends one place to those that are listed by the root of the first subtree as well.
    fn add_below(
        &mut self,
        root: Label,
        first: Option<Label>,
        place: (u32, u32),
    ) -> Result<(), AllocError>
        ensures below { OnOk result (Adds (IsOne place) (AsksOne (Some root) first place) self.old self.new) }
        ensures exact { (l : Label) → exact_of self.new l ≡ exact_of self.old l }
        ensures wild { wild_of self.new ≡ wild_of self.old }
    {
        match first {
            Some(first) => self.narrow.add(key(root, first), place),
            None => self.broad.add(root.0 as u64, place),
        }
    }
}
