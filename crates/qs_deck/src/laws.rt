//! Laws of decks, over their definitions alone.

ghost use Rattle.std.specs.Prelude.{◌≡◌, ◌⊎◌, ℕ, List};
ghost use Rattle.qs_lex.specs.declared.refusal.Refusal.{Refusal};
ghost use Rattle.qs_graph.specs.Graphs.{QGraph};
ghost use Rattle.qs_tree.specs.declared.cell.Label.{Label};
ghost use Rattle.qs_lex.specs.Refusals.{IsRefusedFor};
ghost use Rattle.qs_deck.specs.Decks.{Grammar, IsDeckOf};
ghost use Rattle.qs_deck.specs.GrammarLists.{AreGrammarsOf, IsGrammarsFault};
ghost use Rattle.qs_deck.specs.PhraseTexts.{IsPhraseText, IsPhraseFault};
ghost use Rattle.qs_deck.specs.Refusals.{IsRefusalOf};
ghost use Rattle.qs_deck.specs.Texts.{deck_text};

/// A text has one meaning or one first fault, and not both.
pub fn one_answer()
    ensures deck { (text : List ℕ) (v w : ℕ) (names others : List (List ℕ)) (grammars more : List Grammar)
        → (G H : QGraph) → IsDeckOf text v names grammars G → IsDeckOf text w others more H
        → (v ≡ w) × (names ≡ others) × (grammars ≡ more) × (G ≡ H) }
    ensures refusal { (text : List ℕ) (r s : Refusal) → IsRefusalOf text r → IsRefusalOf text s → r ≡ s }
    ensures some { (text : List ℕ)
        → ((version : ℕ) × (names : List (List ℕ)) × (grammars : List Grammar) × (G : QGraph)
        × IsDeckOf text version names grammars G)
        ⊎ ((r : Refusal) × IsRefusalOf text r) }
    ensures not_both { (text : List ℕ) (version : ℕ) (names : List (List ℕ)) (grammars : List Grammar) (G : QGraph)
        (r : Refusal) → IsDeckOf text version names grammars G → IsRefusalOf text r → ⊥ }
{}

/// A text means one list of grammars or has one first fault of such a list, and not both.
pub fn one_list_of_grammars()
    ensures grammars { (text : List ℕ) (v w : ℕ) (names others : List (List ℕ)) (grammars more : List Grammar)
        → AreGrammarsOf text v names grammars → AreGrammarsOf text w others more
        → (v ≡ w) × (names ≡ others) × (grammars ≡ more) }
    ensures refusal { (text : List ℕ) (r s : Refusal) → IsRefusedFor IsGrammarsFault text r
        → IsRefusedFor IsGrammarsFault text s → r ≡ s }
    ensures not_both { (text : List ℕ) (version : ℕ) (names : List (List ℕ)) (grammars : List Grammar) (r : Refusal)
        → AreGrammarsOf text version names grammars → IsRefusedFor IsGrammarsFault text r → ⊥ }
    ensures some { (text : List ℕ)
        → ((version : ℕ) × (names : List (List ℕ)) × (grammars : List Grammar)
        × AreGrammarsOf text version names grammars)
        ⊎ ((r : Refusal) × IsRefusedFor IsGrammarsFault text r) }
{}

/// A text means one phrase text or has one first fault, and not both.
pub fn one_phrase_text()
    ensures phrases { (text : List ℕ) (v w : ℕ) (names others : List (List ℕ)) (grammars more : List Grammar)
        → (lines further : List (List Label)) → IsPhraseText text v names grammars lines
        → IsPhraseText text w others more further
        → (v ≡ w) × (names ≡ others) × (grammars ≡ more) × (lines ≡ further) }
    ensures refusal { (text : List ℕ) (r s : Refusal) → IsRefusedFor IsPhraseFault text r
        → IsRefusedFor IsPhraseFault text s → r ≡ s }
    ensures some { (text : List ℕ)
        → ((version : ℕ) × (names : List (List ℕ)) × (grammars : List Grammar) × (lines : List (List Label))
        × IsPhraseText text version names grammars lines)
        ⊎ ((r : Refusal) × IsRefusedFor IsPhraseFault text r) }
    ensures not_both { (text : List ℕ) (version : ℕ) (names : List (List ℕ)) (grammars : List Grammar)
        (lines : List (List Label)) (r : Refusal) → IsPhraseText text version names grammars lines
        → IsRefusedFor IsPhraseFault text r → ⊥ }
{}

/// What is written of a deck that a text means is a text that means this deck: the same version, grammars and graph,
/// with the same names for the labels, in the same order.
pub fn what_is_written_is_read()
    ensures { (text : List ℕ) (version : ℕ) (names : List (List ℕ)) (grammars : List Grammar) (G : QGraph)
        → IsDeckOf text version names grammars G
        → IsDeckOf (deck_text version names grammars G) version names grammars G }
{}
