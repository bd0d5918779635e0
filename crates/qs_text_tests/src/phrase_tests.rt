//! Phrase texts.

use qs_deck::{DeckEnd, WordLines, read_phrases};
use qs_lex::{Cause, Refusal};

/// Whether these are the numbers of the words of the lines.
fn are_lines(lines: &WordLines, wanted: &[&[u32]]) -> bool {
    if lines.len() != wanted.len() {
        return false;
    }
    for index in 0..lines.len() {
        let line = lines.line(index);
        if line.len() != wanted[index].len() {
            return false;
        }
        for (word, number) in line.iter().zip(wanted[index]) {
            if word.0 != *number {
                return false;
            }
        }
    }
    true
}

/// A text, its version, how many labels it has, and the numbers of the words of its lines.
type Row = (&'static str, u8, u32, &'static [&'static [u32]]);

#[test]
fn lines_are_read_behind_the_grammars(rt: HostRuntime) {
    let rows: [Row; 7] = [
        (
            "-SYSTEME- S.\n-PHRASES-\nLE CHAT\n\n \t\r\nLE\t LE\r\nS",
            1,
            3,
            &[&[1, 2], &[1, 1], &[0]],
        ),
        ("-SYSTEME- S.\n-PHRASES-", 1, 1, &[]),
        ("-SYSTEME- S.\n-PHRASES-\n", 1, 1, &[]),
        (
            "-SYSTEME- S.\n-PHRASES-\nA,B \"S\" -FIN- (S)\n# S.\n",
            1,
            7,
            &[&[1, 2, 3, 4], &[5, 6]],
        ),
        ("# -PHRASES-\n-SYSTEME- S.#\n-PHRASES-\nS", 1, 1, &[&[0]]),
        ("-SYSTEME- S.\n-PHRASES-\n-PHRASES-\nS", 1, 2, &[&[1], &[0]]),
        (
            "-VERSION- 2.\n-SYSTEME- S -UNIQUE-.\nA == B.\n-PHRASES-\n2 B",
            2,
            4,
            &[&[3, 2]],
        ),
    ];
    for row in rows {
        assert!(rt; row.0.len() <= 4_194_304);
        let found = read_phrases(rt.alloc(), row.0.as_bytes()).expect(&rt, row.0);
        assert!(rt;
            (found.version, found.names.len()) == (row.1, row.2),
            "at {}",
            row.0
        );
        assert!(rt; are_lines(&found.lines, row.3), "at {}", row.0);
    }
}

/// A text, and the line, the column and the cause of its first fault.
type Fault = (&'static [u8], u32, u32, Cause);

#[test]
fn what_is_no_phrase_text_is_refused_at_its_first_fault(rt: HostRuntime) {
    let faults: [Fault; 11] = [
        (b"-PHRASES-", 1, 1, Cause::Syntax),
        (b"", 1, 1, Cause::Syntax),
        (b"-SYSTEME- S.\n# A", 2, 4, Cause::Syntax),
        (b"-SYSTEME- S.\nA == B*9.\n", 3, 1, Cause::Syntax),
        (b"-SYSTEME- S.\nA == B*9.\n-PHRASES-", 2, 6, Cause::Unbound),
        (b"-SYSTEME- S.\nA ==\n-PHRASES-\nB", 3, 1, Cause::Syntax),
        (b"-SYSTEME- S.\n-PHRASES- \nA", 2, 1, Cause::BadWord),
        (b"-SYSTEME- S.\n-PHRASES-\r\nA", 2, 1, Cause::BadWord),
        (b"-SYSTEME- S. -PHRASES-\nA", 1, 14, Cause::BadWord),
        (b"-SYSTEME- S.\n-GRAPHE-\n-PHRASES-\nA", 2, 1, Cause::Syntax),
        (b"-SYSTEME- S\n-PHRASES-\nA \xFF", 3, 3, Cause::NotUtf8),
    ];
    for (text, line, column, cause) in faults {
        assert!(rt; text.len() <= 4_194_304);
        let told = read_phrases(rt.alloc(), text).err();
        let wanted = Refusal {
            line,
            column,
            cause,
        };
        assert!(rt; told == Some(DeckEnd::Refused(wanted)));
    }
}

#[test]
fn a_line_has_at_most_65536_words(rt: HostRuntime) {
    let words = "A ".repeat(rt.alloc(), 65_536).expect(&rt, "words");
    for (last, few) in [("\nA", true), ("B\nA", false)] {
        let text = format!(in rt.alloc(); "-SYSTEME- S.\n-PHRASES-\nA\n{words}{last}").expect(
            &rt, "a text",
        );
        assert!(rt; text.len() <= 4_194_304);
        match read_phrases(rt.alloc(), text.as_bytes()) {
            Ok(found) => {
                assert!(rt; few);
                assert!(rt; found.lines.len() == 3);
                assert!(rt; found.lines.line(1).len() == 65_536);
            }
            Err(end) => {
                let wanted = Refusal {
                    line: 4,
                    column: 131_073,
                    cause: Cause::TooManyArcs,
                };
                assert!(rt; !few);
                assert!(rt; end == DeckEnd::Refused(wanted));
            }
        }
    }
}
