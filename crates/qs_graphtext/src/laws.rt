//! Laws of what is read, over the definitions alone. Their calls do nothing.

ghost use Rattle.std.specs.Prelude.{◌≡◌, ℕ, ◌<◌, List, length};
ghost use Rattle.qs_lex.specs.declared.token.Token.{Token};
ghost use Rattle.std.specs.List.{All};
ghost use Rattle.qs_lex.specs.Tokens.{IsTokenOf};
ghost use Rattle.qs_lex.specs.Grammar.{part, IsWhole};
ghost use Rattle.qs_reader.specs.Names.{NamesGrow};
ghost use Rattle.qs_tree.specs.Names.{AreDistinct};
ghost use Rattle.qs_graphtext.specs.WrittenChains.{WrittenChain};
ghost use Rattle.qs_graphtext.specs.Grammar.{graph, line};
ghost use Rattle.qs_tree.specs.Lists.{◌∈◌};
ghost use Rattle.qs_graphtext.specs.GraphOfChains.{IsWhole as IsWholeChain, places_in};
ghost use Rattle.qs_graphtext.specs.Reading.{ReadsGraph, IsByteOf};

/// Law: the tokens that are read as a graph are a graph by the grammar.
pub fn what_is_read_is_whole()
    ensures { (names : List (List ℕ)) (text : List ℕ) (tokens : List Token) (chains : List WrittenChain)
        (rest : List Token) → ReadsGraph names text tokens chains rest → IsWhole line (part graph) tokens rest }
{}

/// Law: the tokens that are a graph by the grammar are read as one, in names that have grown by the tokens.
pub fn what_is_whole_is_read()
    ensures { (text : List ℕ) (tokens rest : List Token) (old names : List (List ℕ))
        → All (IsTokenOf text) tokens → NamesGrow text tokens old names → IsWhole line (part graph) tokens rest
        → (chains : List WrittenChain) × ReadsGraph names text tokens chains rest }
{}

/// Law: what is read as a graph makes one: there is a chain, each has a tree and a byte for each of its trees, and each
/// of these bytes is that of one of the tokens.
pub fn what_is_read_makes_chains()
    ensures some { (names : List (List ℕ)) (text : List ℕ) (tokens : List Token) (chains : List WrittenChain)
        (rest : List Token) → ReadsGraph names text tokens chains rest → 0 < length chains }
    ensures whole { (names : List (List ℕ)) (text : List ℕ) (tokens : List Token) (chains : List WrittenChain)
        (rest : List Token) → ReadsGraph names text tokens chains rest → (chain : WrittenChain) → chain ∈ chains
        → IsWholeChain chain }
    ensures bytes { (names : List (List ℕ)) (text : List ℕ) (tokens : List Token) (chains : List WrittenChain)
        (rest : List Token) → ReadsGraph names text tokens chains rest → (byte : ℕ) → byte ∈ places_in chains
        → IsByteOf tokens byte }
{}

/// Law: where no two names are equal, tokens are read as a graph in one way only: as one list of chains with one rest.
pub fn one_reading()
    ensures { (names : List (List ℕ)) (text : List ℕ) (tokens rest end : List Token) (chains others : List WrittenChain)
        → AreDistinct names → ReadsGraph names text tokens chains rest → ReadsGraph names text tokens others end
        → (chains ≡ others) × (rest ≡ end) }
{}
