//! The classes of bytes, and their longest runs.

ghost use Rattle.std.specs.Prelude.{◌≡◌, ◌≤◌, length};
ghost use Rattle.std.specs.List.{prefix_len};
ghost use Rattle.std.specs.Char.{is_ascii_digit};
ghost use Rattle.qs_tree.specs.Text.{is_label_byte};
ghost use Rattle.qs_lex.specs.Characters.{is_variable_letter, ends_line};
ghost use Rattle.qs_lex.specs.working.Characters.{is_capital_or_digit};
ghost use Rattle.qs_lex.specs.Tokens.{blank_len};

use qs_tree::is_label_byte;

/// Whether the byte may stand in a word or a node mark.
pub fn is_capital_or_digit(byte: u8) -> bool
    ensures { result ≡ is_capital_or_digit byte }
{
    byte.is_ascii_uppercase() || byte.is_ascii_digit()
}

/// Whether the byte is the letter of a variable.
pub fn is_variable_letter(byte: u8) -> bool
    ensures { result ≡ is_variable_letter byte }
{
    matches!(byte, b'A'..=b'F' | b'I'..=b'N' | b'U'..=b'Z')
}

/// How many label characters' bytes stand at the front.
pub fn label_len(bytes: &[u8]) -> usize
    ensures value { result ≡ prefix_len is_label_byte bytes.now }
    ensures bound { result ≤ length bytes.now }
{
    bytes.iter().take_while(|b| is_label_byte(**b)).count()
}

/// How many capitals and digits stand at the front.
pub fn capital_or_digit_len(bytes: &[u8]) -> usize
    ensures value { result ≡ prefix_len is_capital_or_digit bytes.now }
    ensures bound { result ≤ length bytes.now }
{
    bytes
        .iter()
        .take_while(|b| is_capital_or_digit(**b))
        .count()
}

/// How many digits stand at the front.
pub fn digit_len(bytes: &[u8]) -> usize
    ensures value { result ≡ prefix_len is_ascii_digit bytes.now }
    ensures bound { result ≤ length bytes.now }
{
    bytes.iter().take_while(|b| b.is_ascii_digit()).count()
}

/// How many bytes of white space and comments stand at the front.
pub fn blank_len(bytes: &[u8]) -> usize
    ensures value { result ≡ blank_len bytes.now }
    ensures bound { result ≤ length bytes.now }
{
    let mut in_comment = false;
    for (i, b) in bytes.iter().enumerate() {
        match *b {
            b'\n' => in_comment = false,
            b'#' => in_comment = true,
            b' ' | b'\t' | b'\r' => {}
            _ => {
                if !in_comment {
                    return i;
                }
            }
        }
    }
    bytes.len()
}
