//! Examples of phrase texts, worked out from their definitions.

ghost use Rattle.std.specs.Prelude.{◌≡◌, [], ◌∷◌, ◌++◌, codes, Some, None};
ghost use Rattle.qs_graphtext.specs.Texts.{line};
ghost use Rattle.qs_deck.specs.PhraseTexts.{border_of, grammar_part, lines_behind, lines_with_words};
ghost use Rattle.qs_deck.specs.PhraseExamples.{one_text, places, texts};

/// The first line `-PHRASES-` ends the grammar part. Behind it spaces, tabs and carriage returns part words, a comma
/// doesn't, and `-PHRASES-` is a word like any other.
pub fn a_text_has_a_grammar_part_and_lines_of_words()
    ensures border { border_of one_text ≡ Some 13 }
    ensures part { grammar_part one_text ≡ line (codes "-SYSTEME- S.") }
    ensures words { texts (lines_with_words (lines_behind one_text 13))
        ≡ (codes "LE" ∷ codes "CHAT" ∷ []) ∷ (codes "-PHRASES-" ∷ []) ∷ (codes "A,B" ∷ []) ∷ [] }
    ensures places { places (lines_with_words (lines_behind one_text 13))
        ≡ (23 ∷ 27 ∷ []) ∷ (36 ∷ []) ∷ (46 ∷ []) ∷ [] }
{}

/// Where the text is this line alone, its grammar part is empty, and nothing stands behind it.
pub fn a_line_of_phrases_may_stand_alone()
    ensures border { border_of (codes "-PHRASES-") ≡ Some 0 }
    ensures part { grammar_part (codes "-PHRASES-") ≡ [] }
    ensures lines { lines_with_words (lines_behind (codes "-PHRASES-") 0) ≡ [] }
{}

/// A line with a space or a carriage return behind the word isn't this line, nor is one with a comment before it.
pub fn a_line_of_phrases_is_exact()
    ensures space { border_of (codes "-PHRASES- ") ≡ None }
    ensures carriage_return { border_of (line (codes "-PHRASES-\r")) ≡ None }
    ensures comment { border_of (line (codes "# -PHRASES-")) ≡ None }
{}
