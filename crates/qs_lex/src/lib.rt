//! The tokens of a text of Q-systems, their places, and the first place where a text is faulty.
//!
//! White space is a space, a tab, a line feed or a carriage return. A comment goes from a `#` that no quoted label
//! holds to the next line feed or the end of the text. Both separate tokens and mean nothing else. A label character is
//! an ASCII letter, an ASCII digit, `_`, `'`, or any character from U+0080 on. At the next place that isn't white space
//! or in a comment stands one token:
//!
//! | first character | token | fault, at this place |
//! |---|---|---|
//! | label character | the longest run of label characters that no `*` follows: a bare label | |
//! | label character | one letter of A to F, I to N or U to Z, `*`, and the longest run of digits, which is empty or a
//! number from 1 to 99 without leading zero:
//! a variable | `BadVariable` where a `*` follows the run of label characters and this isn't so |
//! | `"` | a quoted label, to the first quote that no quote follows; two quotes inside stand for one | `OpenQuote`
//! where a line feed, a carriage return or the end comes first |
//! | `-` | `-`, a number from 1 to 999,999,999 without leading zero, `-`:
//! a node mark | `BadWord` where it is neither this nor a word |
//! | `-` | `-SYSTEME-`, `-GRAPHE-`, `-FIN-`, `-DANS-`, `-HORS-`, `-ET-`, `-OU-` or `-NON-`: a word | |
//! | `-` | in texts of version 2, `-VERSION-`, `-EGAL-` or `-UNIQUE-`: a word | |
//! | `=` | `==` | `BadCharacter` where no second `=` follows |
//! | `(` `)` `,` `+` `.` `/` | itself | |
//! | any other | | `BadCharacter` |
//!
//! The version of a text is 2 where, behind white space and comments, it begins with `-VERSION-`; otherwise it is 1.
//!
//! The language is Colmerauer's of 1970; this spelling of it in UTF-8 is this project's own.
#![tactic(auto)]

mod characters;
mod labels;
pub mod laws;
mod lexer;
mod nesting;
mod places;
mod refusal;
mod scanner;
mod token;

pub use labels::label_text;
pub use lexer::{tokens, version};
pub use nesting::too_deep;
pub use places::place;
pub use refusal::{Cause, LexEnd, Refusal};
pub use std::alloc::AllocError as Memory;
pub use token::{Kind, Token, Word};
