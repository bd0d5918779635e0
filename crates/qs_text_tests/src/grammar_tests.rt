//! Lists of grammars that stand by themselves.

use qs_deck::{DeckEnd, System, read_systems};
use qs_lex::{Cause, Refusal};

/// Whether these are the numbers of the grammars' names, each with how many rules its grammar has.
fn are_grammars(systems: &[System], wanted: &[(u32, usize)]) -> bool {
    for (system, (name, rules)) in systems.iter().zip(wanted) {
        if system.name.0 != *name || system.rules.len() != *rules {
            return false;
        }
    }
    systems.len() == wanted.len()
}

/// A text, its version, how many labels it has, and its grammars.
type Row = (&'static str, u8, u32, &'static [(u32, usize)]);

#[test]
fn grammars_are_read_without_a_graph(rt: HostRuntime) {
    let rows: [Row; 4] = [
        ("-SYSTEME- S.", 1, 1, &[(0, 0)]),
        (
            "# A\n-SYSTEME- S.\nA == B. B == \"S\".\n-SYSTEME- A.",
            1,
            3,
            &[(0, 2), (1, 0)],
        ),
        (
            "-VERSION- 2. -SYSTEME- 2 -UNIQUE-. A == 2.",
            2,
            2,
            &[(0, 1)],
        ),
        (
            "-SYSTEME- S.-SYSTEME- S.\n\n# -GRAPHE-",
            1,
            1,
            &[(0, 0), (0, 0)],
        ),
    ];
    for row in rows {
        assert!(rt; row.0.len() <= 4_194_304);
        let (names, systems, version) = read_systems(rt.alloc(), row.0.as_bytes()).expect(
            &rt, row.0,
        );
        assert!(rt; (version, names.len()) == (row.1, row.2), "at {}", row.0);
        assert!(rt; are_grammars(&systems, row.3), "at {}", row.0);
    }
}

/// A text, and the line, the column and the cause of its first fault.
type Fault = (&'static [u8], u32, u32, Cause);

#[test]
fn what_is_no_list_of_grammars_is_refused_at_its_first_fault(rt: HostRuntime) {
    let faults: [Fault; 10] = [
        (b"", 1, 1, Cause::Syntax),
        (b"# A", 1, 4, Cause::Syntax),
        (b"-VERSION- 2.", 1, 13, Cause::Syntax),
        (b"-VERSION- 1. -SYSTEME- S.", 1, 11, Cause::Syntax),
        (
            b"-SYSTEME- S.\n-GRAPHE-\n-1- A -2-.\n-FIN-",
            2,
            1,
            Cause::Syntax,
        ),
        (b"-SYSTEME- S.\nA ==\n", 3, 1, Cause::Syntax),
        (b"-SYSTEME- S.\nA = B.", 2, 3, Cause::BadCharacter),
        (b"-SYSTEME- S.\nA == B*9.", 2, 6, Cause::Unbound),
        (b"-SYSTEME- S -UNIQUE-.", 1, 13, Cause::BadWord),
        (b"-SYSTEME- S.\nA == \xFF", 2, 6, Cause::NotUtf8),
    ];
    for (text, line, column, cause) in faults {
        assert!(rt; text.len() <= 4_194_304);
        let told = read_systems(rt.alloc(), text).err();
        let wanted = Refusal {
            line,
            column,
            cause,
        };
        assert!(rt; told == Some(DeckEnd::Refused(wanted)));
    }
}
