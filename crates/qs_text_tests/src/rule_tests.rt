//! What is read of small rules: how many there are, where they end, and the byte of each label and variable.

ghost use Rattle.std.specs.Prelude.{◌≡◌, ◌≤◌, [], length};
ghost use Rattle.std.specs.List.{All};
ghost use Rattle.qs_ruletext.specs.Rules.{IsWellRead};

use qs_lex::{tokens, too_deep};
use qs_ruletext::{Memory, RawRule, read_rules, write_rule};
use qs_tree::Names;
use std::alloc::Global;
use std::process::Abort;

/// The rules that are read from a place of the tokens of a text, with the place behind them.
fn read<R: Abort>(
    rt: &R,
    alloc: Global,
    text: &str,
    from: usize,
    names: &mut Names,
) -> (Vec<RawRule>, usize)
    requires short { length text.now ≤ 4194304 }
    requires none { names.old ≡ [] }
    ensures { All (λ raw. IsWellRead (length names.new) raw.rule) result.0.items }
{
    let found = tokens(alloc, text).expect(rt, "tokens");
    let None = too_deep(&found) else {
        panic!(rt; "too deep")
    };
    assert!(rt; from <= found.len() && found.len() <= 4_194_304);
    let answer = read_rules(alloc, text, &found, from, names);
    answer.expect(rt, "rules")
}

/// Appends a rule that was read, in canonical spelling.
fn append_raw(alloc: Global, raw: &RawRule, names: &Names, out: &mut Vec<u8>) -> Result<(), Memory>
    requires { IsWellRead (length names.now) raw.now.rule }
{
    match &raw.cond {
        Some(cond) => write_rule(alloc, &raw.left, &raw.right, Some(cond), names, out),
        None => write_rule(alloc, &raw.left, &raw.right, None, names, out),
    }
}

#[test]
fn rules_end_where_the_next_token_begins_none(rt: HostRuntime) {
    let rows = [
        ("", 0, (0, 0, 0)),
        ("-GRAPHE- -1- A -2-. -FIN-", 0, (0, 0, 0)),
        ("A == B. -GRAPHE- -1- A -2-. -FIN-", 0, (1, 4, 2)),
        ("-SYSTEME- S.\nA == B.\nB == A(C).\n-GRAPHE-", 3, (2, 14, 3)),
        ("-SYSTEME- S.\nA == B.\n-SYSTEME- R.", 3, (1, 7, 2)),
        ("-SYSTEME- S.\nU* == A.", 3, (0, 3, 0)),
        ("A == B. U* == C.", 0, (1, 4, 2)),
        ("A == B. == C.", 0, (1, 4, 2)),
        ("A == B.", 4, (0, 4, 0)),
        // Labels with equal texts have one number.
        ("A + \"A\" == \"A\"(A,B).", 0, (1, 11, 2)),
        ("A == a / \"\" -DANS- A,\"a\".", 0, (1, 10, 3)),
        ("-VERSION- 2. A(U*,V*) == B / U* -EGAL- V*.", 3, (1, 16, 2)),
    ];
    for (text, from, wanted) in rows {
        assert!(rt; text.len() <= 4_194_304);
        let mut names = Names::new(rt.alloc());
        let (rules, behind) = read(&rt, rt.alloc(), text, from, &mut names);
        assert!(rt; (rules.len(), behind, names.len()) == wanted, "at {text}");
    }
}

#[test]
fn each_cell_has_its_byte(rt: HostRuntime) {
    let text = "É(U*,\"b\"()) + I* == B*9 / (U* -DANS- X(V*)).\n\n\"É\" == C + D + É.";
    let mut names = Names::new(rt.alloc());
    let (rules, _) = read(&rt, rt.alloc(), text, 0, &mut names);
    assert!(rt; rules.len() == 2);
    assert!(rt; rules[0].left.len() == 2 && rules[0].right.len() == 1);
    assert!(rt; rules[0].at.as_slice() == [0, 3, 6, 15, 21, 28, 38, 40].as_slice());
    assert!(rt; rules[1].left.len() == 1 && rules[1].right.len() == 3);
    assert!(rt; rules[1].at.as_slice() == [47, 55, 59, 63].as_slice());
}

#[test]
fn each_word_that_compares_lists_is_written_as_it_was_read(rt: HostRuntime) {
    let alloc = rt.alloc();
    let rule = "A(U*) == B / U* -DANS- X -ET- U* -HORS- Y,X -ET- -NON- U* -EGAL- X,Y.";
    let text = format!(in alloc; "-VERSION- 2.{rule}").expect(&rt, "a text");
    assert!(rt; text.len() <= 4_194_304);
    let mut names = Names::new(alloc);
    let (rules, _) = read(&rt, alloc, &text, 3, &mut names);
    let mut out = Vec::new(alloc);
    for raw in &rules {
        append_raw(alloc, raw, &names, &mut out).expect(&rt, "a rule's text");
    }
    assert!(rt; out.as_slice() == rule.as_bytes());
}

#[test]
fn a_thousand_parentheses_in_a_tree_are_read(rt: HostRuntime) {
    let alloc = rt.alloc();
    let opened = "A(".repeat(alloc, 1000).expect(&rt, "parentheses");
    let closed = ")".repeat(alloc, 1000).expect(&rt, "parentheses");
    let text = format!(in alloc; "{opened}U*{closed} == B / {opened}U*{closed} -DANS- A.").expect(
        &rt, "a text",
    );
    assert!(rt; text.len() <= 4_194_304);
    let mut names = Names::new(alloc);
    let (rules, _) = read(&rt, alloc, &text, 0, &mut names);
    let mut out = Vec::new(alloc);
    for raw in &rules {
        append_raw(alloc, raw, &names, &mut out).expect(&rt, "a rule's text");
    }
    assert!(rt; out.as_slice() == text.as_bytes());
}
