//! Tokens, and the words of the language.

/// A word of the language, written between dashes as `-SYSTEME-`. Words head the parts of a deck (`SYSTEME`, `GRAPHE`,
/// `FIN`), compare lists (`DANS`, `HORS`) and join conditions (`ET`, `OU`, `NON`). Texts of version 2 have three more:
/// one heads the text (`VERSION`), one compares lists (`EGAL`), and one marks a grammar (`UNIQUE`).
#[derive(Clone, Copy, Debug, PartialEq, Eq)]
pub enum Word {
    Systeme,
    Graphe,
    Fin,
    Dans,
    Hors,
    Et,
    Ou,
    Non,
    Version,
    Egal,
    Unique,
}

impl Word {
    ghost use Rattle.std.specs.Prelude.{◌≡◌};
    ghost use Rattle.qs_lex.specs.Spelling.{name_of, since};
    ghost use Rattle.qs_lex.specs.working.Scan.{word_of};

    const ALL: [Word; 11] = [
        Word::Systeme,
        Word::Graphe,
        Word::Fin,
        Word::Dans,
        Word::Hors,
        Word::Et,
        Word::Ou,
        Word::Non,
        Word::Version,
        Word::Egal,
        Word::Unique,
    ];

    /// The name of the word, without its dashes.
    fn name(self) -> &'static [u8]
        ensures { result.now ≡ name_of self }
    {
        match self {
            Word::Systeme => b"SYSTEME",
            Word::Graphe => b"GRAPHE",
            Word::Fin => b"FIN",
            Word::Dans => b"DANS",
            Word::Hors => b"HORS",
            Word::Et => b"ET",
            Word::Ou => b"OU",
            Word::Non => b"NON",
            Word::Version => b"VERSION",
            Word::Egal => b"EGAL",
            Word::Unique => b"UNIQUE",
        }
    }

    /// The first version whose texts have the word.
    fn since(self) -> u8
        ensures { result ≡ since self }
    {
        match self {
            Word::Version | Word::Egal | Word::Unique => 2,
            _ => 1,
        }
    }

    /// The word of texts of this version that has this name.
    pub(crate) fn named(name: &[u8], version: u8) -> Option<Word>
        ensures { result ≡ word_of version name.now }
    {
        Word::ALL
            .iter()
            .copied()
            .find(|word| word.name() == name && word.since() <= version)
    }
}

/// What a token is.
#[derive(Clone, Copy, Debug, PartialEq, Eq)]
pub enum Kind {
    /// A label without quotes, as `A'1`.
    Bare,
    /// A label between quotes, as `"a b"`; two quotes inside stand for one, and it may be empty.
    Quoted,
    /// A variable, as `U*` or `U*12`. Its letter is the ASCII code of one of A to F (for a label), I to N (for a tree)
    /// or U to Z (for a list of trees). Its number is from 1 to 99, or 0 where none is written.
    Variable { letter: u8, number: u8 },
    /// A node mark, as `-12-`, with its number from 1 to 999,999,999.
    Node(u32),
    /// A word, as `-FIN-`.
    Word(Word),
    /// `(`
    Opening,
    /// `)`
    Closing,
    /// `,`
    Comma,
    /// `+`
    Plus,
    /// `/`
    Slash,
    /// `==`
    Equals,
    /// `.`
    Stop,
}

/// A token of a text, and its span: the bytes that it takes are those from `from` up to, and without, `to`.
#[derive(Clone, Copy, Debug, PartialEq, Eq)]
pub struct Token {
    pub kind: Kind,
    pub from: u32,
    pub to: u32,
}
