//! Laws of rules, over their definitions alone.

ghost use Rattle.std.specs.Prelude.{◌≡◌, ◌↔◌, ℕ, true, List, Some};
ghost use Rattle.qs_tree.specs.Lists.{◌∈◌};
ghost use Rattle.qs_tree.specs.Trees.{Tree};
ghost use Rattle.qs_tree.specs.Text.{IsNamed};
ghost use Rattle.qs_pattern.specs.Substitutions.{Substitution};
ghost use Rattle.qs_pattern.specs.Instances.{IsCovered, IsMatch, inst};
ghost use Rattle.qs_pattern.specs.Conditions.{Condition, IsConditionCovered};
ghost use Rattle.qs_pattern.specs.Rules.{Rule, IsAccepted, AreLeftSidesInClass, IsUnique, all_unique};
ghost use Rattle.qs_pattern.specs.Named.{ArePatternsNamed};

/// Accepted rules have their variables at places of their classes.
pub fn accepted_rules_are_in_class()
    ensures { (rules : List Rule) → ((rule : Rule) → rule ∈ rules → IsAccepted rule) → AreLeftSidesInClass rules }
{}

/// A match of an accepted rule's left side gives each variable of its right side and of its condition a value of its
/// class, as `instance` and `holds` ask.
pub fn a_match_covers_its_rule()
    ensures right { (rule : Rule) (trees : List Tree) (s : Substitution) → IsAccepted rule → IsMatch rule.left trees s
        → IsCovered s rule.right }
    ensures condition { (rule : Rule) (trees : List Tree) (s : Substitution) (c : Condition) → IsAccepted rule
        → IsMatch rule.left trees s → rule.condition ≡ Some c → IsConditionCovered s c }
{}

/// The trees that an accepted rule builds have no labels but those of its right side and of the trees that its left
/// side matches: where all of these are among the first n, so are theirs.
pub fn rules_make_no_labels()
    ensures { (n : ℕ) (rule : Rule) → IsAccepted rule → ArePatternsNamed n rule.right
        → (ts : List Tree) (s : Substitution) → IsMatch rule.left ts s
        → ((t : Tree) → t ∈ ts → IsNamed n t) → (t : Tree) → t ∈ inst s rule.right → IsNamed n t }
{}

/// Rules are all marked unique exactly where `all_unique` says so.
pub fn unique_rules_are_marked()
    ensures { (rules : List Rule) → IsUnique rules ↔ (all_unique rules ≡ true) }
{}
