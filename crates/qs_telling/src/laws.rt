//! A law of outcomes, over their definition alone.

ghost use Rattle.std.specs.Prelude.{◌≡◌, ℕ, List};
ghost use Rattle.qs_graph.specs.Graphs.{QGraph};
ghost use Rattle.qs_clean.specs.Cascades.{Ending};
ghost use Rattle.qs_deck.specs.Decks.{Grammar};
ghost use Rattle.qs_telling.specs.Outcomes.{IsOutcome};

use qs_clean::laws::one_cascade;

/// A cascade has one text and one ending.
pub fn one_outcome()
    ensures { (limit : ℕ) (names : List (List ℕ)) (graph : QGraph) (grammars : List Grammar) (t u : List ℕ)
        (e d : Ending)
        → IsOutcome limit names graph grammars t e → IsOutcome limit names graph grammars u d → (t ≡ u) × (e ≡ d) }
{
    one_cascade();
}
