//! Examples of closures, of cleaning and of cascades, worked out from their definitions.

ghost use Rattle.std.specs.Prelude.{◌≡◌, [], ◌∷◌, length};
ghost use Rattle.qs_canon.specs.Rounds.{Closes, Needs};
ghost use Rattle.qs_clean.specs.Cleaning.{Cleans};
ghost use Rattle.qs_clean.specs.Cascades.{Cascade, a_graph, no_arc, over, all_done, by_limit};
ghost use Rattle.qs_clean.specs.Examples as example;

/// The rule A == B on one arc A closes with one firing, and cleaning leaves one arc B.
pub fn a_becomes_b()
    ensures closes { Closes example.one_rule example.one_arc example.one_rule_closure }
    ensures once { length example.one_rule_closure.done ≡ 1 }
    ensures cleans { Cleans example.one_rule_closure example.one_rule_cleaned }
    ensures cascade { Cascade 1 example.one_arc (example.one_rule ∷ [])
        (a_graph 1 example.one_rule_cleaned ∷ []) all_done }
{}

/// Two equal rules A == B on one arc A fire both, and cleaning leaves two equal arcs B.
pub fn equal_rules_give_two_arcs()
    ensures closes { Closes example.equal_rules example.one_arc example.equal_rules_closure }
    ensures twice { length example.equal_rules_closure.done ≡ 2 }
    ensures cleans { Cleans example.equal_rules_closure example.equal_rules_cleaned }
    ensures cascade { Cascade 2 example.one_arc (example.equal_rules ∷ [])
        (a_graph 2 example.equal_rules_cleaned ∷ []) all_done }
{}

/// The rule A == A on one arc A needs more than five firings, so that a cascade with that limit ends by it.
pub fn an_endless_rule_meets_the_limit()
    ensures needs { Needs example.endless_rule example.one_arc 5 }
    ensures cascade { Cascade 5 example.one_arc (example.endless_rule ∷ []) (over ∷ []) by_limit }
{}

/// The rules A + B == X and B + C == Y on the arcs A, B, C fire both, and cleaning leaves nothing.
pub fn overlapping_rules_leave_nothing()
    ensures closes { Closes example.overlapping_rules example.three_arcs example.overlapping_closure }
    ensures twice { length example.overlapping_closure.done ≡ 2 }
    ensures cleans { Cleans example.overlapping_closure example.nothing }
    ensures cascade { Cascade 2 example.three_arcs (example.overlapping_rules ∷ []) (no_arc 2 ∷ []) all_done }
{}
