//! Lines and columns.

ghost use Rattle.std.specs.Prelude.{◌≡◌, ◌≤◌, ◌==◌, not, length, count_by, chars, IsCharBoundary};
ghost use Rattle.std.specs.List.{suffix_len};
ghost use Rattle.qs_lex.specs.Characters.{line_feed};
ghost use Rattle.qs_io.specs.Limits.{most_text_bytes};
ghost use Rattle.qs_lex.specs.Places.{line_of, column_of};

/// How many line feeds the text has.
fn line_feeds(text: &str) -> usize
    ensures value { result ≡ count_by (λ c. c == line_feed) (chars text.now) }
    ensures bound { result ≤ length text.now }
{
    text.chars().filter(|c| *c == '\n').count()
}

/// How many characters the last line of the text has.
fn last_line_len(text: &str) -> usize
    ensures value { result ≡ suffix_len (λ c. not (c == line_feed)) (chars text.now) }
    ensures bound { result ≤ length text.now }
{
    let mut len = 0;
    for c in text.chars() {
        len = if c == '\n' { 0 } else { len + 1 };
    }
    len
}

/// The line and the column of a place of the text, which is the number of bytes before it. Each is counted from 1. A
/// line ends at each line feed. A column counts characters, not bytes, and a tab or a carriage return is one of them.
/// The place is between characters, and the text has at most 4,194,304 bytes. It takes no memory.
pub fn place(text: &str, byte: u32) -> (u32, u32)
    requires border { IsCharBoundary text.now byte }
    requires short { length text.now ≤ most_text_bytes }

    ensures line { result.0 ≡ line_of text.now byte }
    ensures column { result.1 ≡ column_of text.now byte }
{
    let before = &text[..byte as usize];
    let line = line_feeds(before) as u32 + 1;
    let column = last_line_len(before) as u32 + 1;
    (line, column)
}
