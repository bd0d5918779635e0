//! Variables.

ghost use Rattle.std.specs.Prelude.{◌≡◌, ◌↔◌, IsSome, IfSome};
ghost use Rattle.qs_pattern.specs.Letters.{IsVariable};

/// What a variable stands for, by its letter.
#[derive(Clone, Copy, Debug, PartialEq, Eq)]
pub enum VarClass {
    /// A to F: one label.
    Label,
    /// I to N: one tree.
    Tree,
    /// U to Z: a list of trees, which may be empty.
    Forest,
}

/// A variable: a letter, as its ASCII code, and a number of at most 99, which is 0 in the bare form.
#[derive(Clone, Copy, Debug, PartialEq, Eq)]
pub struct Var {
    pub letter: u8,
    pub number: u8,
    ghost known: { IsVariable letter number },
}

impl Var {
    ghost use Rattle.qs_pattern.specs.Classes.{IsClassOf};

    /// The variable of this letter and number. None exactly where there is none: the letter isn't one of A to F, I to N
    /// or U to Z, or the number is above 99.
    pub fn new(letter: u8, number: u8) -> Option<Var>
        ensures some { IsSome result ↔ IsVariable letter number }
        ensures letter { IfSome result (λ v. v.letter ≡ letter) }
        ensures number { IfSome result (λ v. v.number ≡ number) }
    {
        match letter {
            b'A'..=b'F' | b'I'..=b'N' | b'U'..=b'Z' if number <= 99 => Some(Var { letter, number }),
            _ => None,
        }
    }

    /// What the variable stands for.
    pub fn class(self) -> VarClass
        ensures { IsClassOf self result }
    {
        match self.letter {
            b'A'..=b'F' => VarClass::Label,
            b'I'..=b'N' => VarClass::Tree,
            _ => VarClass::Forest,
        }
    }
}
