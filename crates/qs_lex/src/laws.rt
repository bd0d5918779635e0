//! What holds of the definitions, whatever the program does.

ghost use Rattle.std.specs.Prelude.{◌≡◌, ℕ, List, [], ◌∷◌, ◌<◌, ◌≤◌, ◌⊎◌, length, slice_index, encode_utf8, IsUtf8};
ghost use Rattle.std.specs.Prelude.{IsCharBoundary};
ghost use Rattle.qs_tree.specs.Text.{is_label_byte, between_quotes};
ghost use Rattle.qs_lex.specs.Characters.{is_space, is_sign};
ghost use Rattle.qs_lex.specs.Tokens.{StandsIn, AreTokensOf, IsTokenOf, HasLabelText};
ghost use Rattle.qs_lex.specs.Refusals.{IsFirstFault, IsRefusalOf};
ghost use Rattle.qs_lex.specs.declared.token.Token.{Token};
ghost use Rattle.qs_lex.specs.declared.refusal.Cause.{Cause};
ghost use Rattle.qs_lex.specs.declared.refusal.Refusal.{Refusal};

/// One token at most stands at a place.
pub fn one_token()
    ensures { (text : List ℕ) (t u : Token) → t.from ≡ u.from → StandsIn text t → StandsIn text u → t ≡ u }
{}

/// Each token of a text stands in it and takes at least one byte. In UTF-8 it begins and ends between characters.
pub fn each_token()
    ensures stands { (text : List ℕ) (t : Token) → IsTokenOf text t → StandsIn text t }
    ensures some { (text : List ℕ) (t : Token) → IsTokenOf text t → t.from < t.to }
    ensures from { (text : List ℕ) (t : Token) → IsUtf8 text → IsTokenOf text t → IsCharBoundary text t.from }
    ensures to { (text : List ℕ) (t : Token) → IsUtf8 text → IsTokenOf text t → IsCharBoundary text t.to }
{}

/// A text has one list of tokens or one first fault, and not both. So it has at most one refusal.
pub fn one_reading()
    ensures tokens { (text : List ℕ) (ts us : List Token) → AreTokensOf text ts → AreTokensOf text us → ts ≡ us }
    ensures place { (text : List ℕ) (p q : ℕ) (c d : Cause) → IsFirstFault text p c → IsFirstFault text q d → p ≡ q }
    ensures cause { (text : List ℕ) (p q : ℕ) (c d : Cause) → IsFirstFault text p c → IsFirstFault text q d → c ≡ d }
    ensures refusal { (text : List ℕ) (r s : Refusal) → IsRefusalOf text r → IsRefusalOf text s → r ≡ s }
    ensures some { (text : List ℕ)
        → ((ts : List Token) × AreTokensOf text ts) ⊎ ((p : ℕ) × (c : Cause) × IsFirstFault text p c) }
    ensures not_both { (text : List ℕ) (ts : List Token) (p : ℕ) (c : Cause) → AreTokensOf text ts
        → IsFirstFault text p c → ⊥ }
{}

/// A label has one text.
pub fn one_label_text()
    ensures quoted { (a b : List ℕ) → between_quotes a ≡ between_quotes b → a ≡ b }
    ensures label { (text : List ℕ) (t : Token) (a b : List ℕ) → HasLabelText text t a → HasLabelText text t b → a ≡ b }
{}

/// Bytes may stand for characters. A character up to U+007F is one byte, and each byte of any other is 128 or more. So
/// a byte is of a label character, of white space or of a sign exactly where its character is one: no byte of a
/// character from U+0080 on is a space, a quote, a dash or punctuation.
pub fn bytes_of_characters()
    ensures ascii { (c : ℕ) → c < 128 → encode_utf8 c ≡ c ∷ [] }
    ensures other { (c k : ℕ) → 128 ≤ c → k < length (encode_utf8 c) → 128 ≤ slice_index (encode_utf8 c) k }
    ensures label { (c k : ℕ) → k < length (encode_utf8 c)
        → is_label_byte (slice_index (encode_utf8 c) k) ≡ is_label_byte c }
    ensures space { (c k : ℕ) → k < length (encode_utf8 c) → is_space (slice_index (encode_utf8 c) k) ≡ is_space c }
    ensures sign { (c k : ℕ) → k < length (encode_utf8 c) → is_sign (slice_index (encode_utf8 c) k) ≡ is_sign c }
{}
