//! A law of cascades, over the definitions alone.

ghost use Rattle.std.specs.Prelude.{◌≡◌, ℕ, List, ◌++◌};
ghost use Rattle.qs_graph.specs.Graphs.{QGraph};
ghost use Rattle.qs_clean.specs.Cascades.{Ending};
ghost use Rattle.qs_deck.specs.Decks.{Grammar, IsDeckOf};
ghost use Rattle.qs_telling.specs.Outcomes.{IsOutcome};
ghost use Rattle.qs_pieces.specs.Pieces.{CanBeCut, TwoPieces};

use qs_telling::laws::one_outcome;

/// A cascade of two parts may be run in two pieces.
///
/// Let the rules of the grammars `front` and `back` be accepted, and those of `back` have the marks of their grammars,
/// the graph be valid, and each label have a name, with no two names equal. Let `front`, run on the graph, leave a
/// graph, and let `first` be the blocks that are written for it. Let the text of the grammars `back` and of the graph
/// that is left, behind them, in some version, be accepted: it means a deck with names, grammars and a graph of its
/// own, and `second` is written for the cascade of that deck. Then for the cascade of `front` and `back` is written
/// `first` and `second` behind it, and nothing else can be (`together`, `same`). It ends as that of the deck does: both
/// by the limit, or both done. One limit is meant throughout, whatever it is. The names, the grammars and the graph of
/// an accepted text are as is asked (`decks`).
pub fn two_pieces()
    ensures together { (p : TwoPieces)
        → IsOutcome p.limit p.names p.graph (p.front ++ p.back) (p.first ++ p.second) p.ending }
    ensures same { (p : TwoPieces) (text : List ℕ) (ending : Ending)
        → IsOutcome p.limit p.names p.graph (p.front ++ p.back) text ending
        → (text ≡ p.first ++ p.second) × (ending ≡ p.ending) }
    ensures decks { (text : List ℕ) (version : ℕ) (names : List (List ℕ)) (graph : QGraph) (front back : List Grammar)
        → IsDeckOf text version names (front ++ back) graph → CanBeCut names graph front back }
{
    one_outcome();
}
