//! The tokens, places and labels of small texts.

ghost use Rattle.std.specs.Prelude.{◌≡◌, ◌≤◌, ◌⊎◌, length};

use qs_lex::{Kind, Token, Word, label_text, place, tokens, too_deep};
use std::alloc::Global;
use std::process::Abort;

#[test]
fn a_text_without_fault_has_tokens(rt: HostRuntime) {
    let rows = [
        ("", 0),
        ("# É \"\n\t\r ", 0),
        ("A == B*9.", 4),
        ("-999999999--1--FIN-", 3),
        ("A*99B", 2),
        ("A*", 1),
        ("U*1A", 2),
        ("\"\" \"#\"#\"", 2),
        ("É'_1+(a,b)/.", 9),
        ("# é\n\t-VERSION- 2. -EGAL--UNIQUE--DANS-", 6),
    ];
    for (text, count) in rows {
        assert!(rt; text.len() <= 4_194_304);
        let found = tokens(rt.alloc(), text).expect(&rt, text);
        assert!(rt; found.len() == count, "at {text}");
    }
}

#[test]
fn tokens_have_kinds_and_spans(rt: HostRuntime) {
    let wanted = [
        (Kind::Quoted, 0, 6),
        (Kind::Node(12), 11, 15),
        (
            Kind::Variable {
                letter: b'Y',
                number: 7,
            },
            16,
            19,
        ),
        (Kind::Word(Word::Et), 20, 24),
        (Kind::Bare, 24, 26),
    ];
    let found = tokens(rt.alloc(), "\"a\"\"b\" # c\n-12- Y*7 -ET-É").expect(&rt, "tokens");
    assert!(rt; found.len() == 5);
    for (token, (kind, from, to)) in found.iter().zip(wanted) {
        assert!(rt; *token == Token { kind, from, to });
    }
}

/// Whether this is the text of the label that is the one token of a text.
fn is_label<R: Abort>(rt: &R, alloc: Global, text: &str, kind: Kind, wanted: &str) -> bool
    requires short { length text.now ≤ 4194304 }
    requires label { (kind ≡ Kind.Bare) ⊎ (kind ≡ Kind.Quoted) }
{
    let found = tokens(alloc, text).expect(rt, "tokens");
    found.len() == 1
        && found[0].kind == kind
        && label_text(alloc, text, &found[0])
            .expect(rt, "its text")
            .as_str()
            == wanted
}

#[test]
fn two_quotes_inside_a_label_stand_for_one(rt: HostRuntime) {
    let alloc = rt.alloc();
    assert!(rt;
        is_label(
            &rt,
            alloc,
            "# label\n\"a\"\"\"\"É\"",
            Kind::Quoted,
            "a\"\"É"
        )
    );
    assert!(rt; is_label(&rt, alloc, " É'A ", Kind::Bare, "É'A"));
    assert!(rt; is_label(&rt, alloc, "\"\"", Kind::Quoted, ""));
}

#[test]
fn columns_count_characters(rt: HostRuntime) {
    let rows = [
        ("", 0, 1, 1),
        ("a\tb", 2, 1, 3),
        ("a\rb", 2, 1, 3),
        ("a\r\nb", 3, 2, 1),
        ("\nÉa", 3, 2, 2),
        ("a\n", 2, 2, 1),
    ];
    for (text, byte, line, column) in rows {
        assert!(rt; text.len() <= 4_194_304 && text.is_char_boundary(byte as usize));
        assert!(rt; place(text, byte) == (line, column), "at {byte} of {text}");
    }
}

#[test]
fn a_thousand_and_one_open_are_too_deep(rt: HostRuntime) {
    let mut found = tokens(rt.alloc(), "))(").expect(&rt, "tokens");
    for from in 3..1003 {
        assert!(rt; too_deep(&found).is_none());
        let next = Token {
            kind: Kind::Opening,
            from,
            to: from + 1,
        };
        found.push(next).expect(&rt, "room for it");
    }
    assert!(rt; too_deep(&found) == Some(1002));
}

#[test]
fn four_mebibytes_are_one_label_or_no_token_or_as_many_tokens(rt: HostRuntime) {
    for (byte, count) in [("A", 1), (" ", 0), ("(", 4_194_304)] {
        let text = byte.repeat(rt.alloc(), 4_194_304).expect(&rt, "a text");
        assert!(rt; text.len() == 4_194_304);
        assert!(rt;
            tokens(rt.alloc(), &text).expect(&rt, byte).len() == count,
            "bytes {byte}"
        );
    }
}
