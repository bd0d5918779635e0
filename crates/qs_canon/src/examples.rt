//! Examples of closures in which equal arcs are merged, and of runs that are carried into them, worked out from the
//! definitions.

ghost use Rattle.std.specs.Prelude.{◌≡◌, length, None, Some};
ghost use Rattle.qs_core.specs.declared.step.Stop.TheVariants as stop;
ghost use Rattle.qs_core.specs.Core.{fired, IsClosed};
ghost use Rattle.qs_core.specs.Runs.{Run};
ghost use Rattle.qs_canon.specs.Rounds.{firings, Closes, Needs};
ghost use Rattle.qs_canon.specs.Carrying.{AreSame};
ghost use Rattle.qs_canon.specs.Merging as example;
ghost use Rattle.qs_canon.specs.RunExamples as order;

/// Unique rules merge equal arcs. A == A on one arc A closes with one firing, which meets its own arc. A == B twice on
/// one arc A adds one arc B, which the second firing meets. A == B + C twice adds two arcs for each firing. A == B
/// beside two arcs B meets the first of them. A == B with B == A on one arc A closes with two firings, and needs more
/// than one. A == B with C == B on an arc A beside an arc C adds one arc B.
pub fn equal_arcs_are_merged()
    ensures itself { Closes example.itself example.one_arc example.itself_closure }
    ensures twice { Closes example.twice example.one_arc example.twice_closure }
    ensures several { Closes example.several example.one_arc example.several_closure }
    ensures at_start { Closes example.at_start example.equal_arcs example.at_start_closure }
    ensures circle { Closes example.circle example.one_arc example.circle_closure }
    ensures itself_once { length example.itself_closure.done ≡ 1 }
    ensures circle_twice { length example.circle_closure.done ≡ 2 }
    ensures circle_needs { Needs example.circle example.one_arc 1 }
    ensures either { Closes example.either example.two_arcs example.either_closure }
{}

/// Unique rules A == B and C == B on an arc A beside an arc C, run by one seat. The seat claims the arc C first; so the
/// second rule adds an arc B, and the first one meets it. In the rounds it is the other way round. The run closes, and
/// is the closure up to numbering. With the limit 1 it is stopped, and the rounds need more than one firing.
pub fn order_decides_what_is_met()
    ensures closed { Run (order.base 2) order.closing_journal None order.closed_state × IsClosed order.closed_state }
    ensures same { AreSame example.either example.two_arcs (fired order.closed_state) order.closed_state.graph
        (firings example.either_closure) example.either_closure.graph }
    ensures stopped { Run (order.base 1) order.stopped_journal (Some (stop.Over 0)) order.stopped_state }
    ensures needs { Needs example.either example.two_arcs 1 }
{}
