//! Laws of matches, over their definitions alone.

ghost use Rattle.std.specs.Prelude.{◌≡◌, List};
ghost use Rattle.qs_tree.specs.Trees.{Tree};
ghost use Rattle.qs_pattern.specs.Patterns.{Patterns, AreInClass};
ghost use Rattle.qs_pattern.specs.Substitutions.{Substitution, forest_lengths};
ghost use Rattle.qs_pattern.specs.Instances.{IsMatch};

/// The lengths of the forest variables' values tell the matches of a side with a list of trees apart: two with equal
/// lengths are equal.
pub fn lengths_tell()
    ensures { (side : Patterns) (trees : List Tree) (s r : Substitution) → AreInClass side → IsMatch side trees s
        → IsMatch side trees r → forest_lengths s ≡ forest_lengths r → s ≡ r }
{}
