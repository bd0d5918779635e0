ghost use Rattle.std.specs.Prelude.{◌≡◌, ◌==◌, ◌+◌, if◌then◌else◌, [], IfOk, count_by};
ghost use Rattle.qs_turn.specs.Passes.{IsPassOf, HoldsNoTurn, number_of, seen_of};

use qs_turn::{Memory, Pass, Told, Turns};
use std::alloc::Global;
use std::sync::Wait;
use std::thread::{Threads, join};

// A list of numbers that stands for itself. A number names the pass that has it.
#[derive(Drop)]
struct Numbers {
    items: Vec<u32>,
}

impl Told for Numbers {
    type Entry = u32;

    ghost Base = { Unit {0} };

    ghost base = { λ _. tt };

    ghost history = { λ n. n.items.items };

    ghost pass_of = { λ e. e };
}

// Takes a turn, adds the pass's own number, and says whether there was memory for it.
fn add_number<R: Wait>(rt: &R, turns: &Turns<Numbers>, pass: &mut Pass<Numbers>) -> bool
    requires { IsPassOf turns.now pass.old × HoldsNoTurn pass.old }
    ensures pass { IsPassOf turns.now pass.new × HoldsNoTurn pass.new × (number_of pass.new ≡ number_of pass.old) }
    ensures count { count_by (λ e. e == number_of pass.old) (seen_of pass.new)
        ≡ count_by (λ e. e == number_of pass.old) (seen_of pass.old) + (if result then 1 else 0) }
{
    let number = pass.number();
    let mut held = turns.enter(rt, pass);
    let numbers = held.value();
    if numbers.items.push(number).is_ok() {
        turns.leave(pass, held, Some(number));
        true
    } else {
        turns.leave(pass, held, None);
        false
    }
}

// Takes 1,000 turns, and says how often there was memory.
fn add_thousand<R: Wait>(
    rt: &R,
    turns: &Turns<Numbers>,
    mut pass: Pass<Numbers>,
) -> (Pass<Numbers>, u32)
    requires { IsPassOf turns.now pass × HoldsNoTurn pass }
    ensures pass { IsPassOf turns.now result.0 × HoldsNoTurn result.0 × (number_of result.0 ≡ number_of pass) }
    ensures count { count_by (λ e. e == number_of pass) (seen_of result.0)
        ≡ count_by (λ e. e == number_of pass) (seen_of pass) + result.1 }
{
    let mut added = 0u32;
    for _ in 0..1000u32 {
        if add_number(rt, turns, &mut pass) {
            added += 1;
        }
    }
    (pass, added)
}

// Two threads, each with a pass. It gives the list, and how often each thread added its number.
fn added_by_two<R: Threads + Wait + Sync>(
    rt: &R,
    alloc: Global,
) -> Result<(Numbers, u32, u32), Memory>
    ensures first { IfOk result (λ r. count_by (λ e. e == 0) r.0.items.items ≡ r.1) }
    ensures second { IfOk result (λ r. count_by (λ e. e == 1) r.0.items.items ≡ r.2) }
{
    let empty = Numbers {
        items: Vec::new(alloc),
    };
    let (turns, mut passes) = Turns::open(alloc, empty, 2)?;
    let last = passes.pop().unwrap();
    let first = passes.pop().unwrap();
    let ((first, zeros), (last, ones)) = join(
        rt,
        || -> (Pass<Numbers>, u32)
            requires { IsPassOf turns first × HoldsNoTurn first × (number_of first ≡ 0) × (seen_of first ≡ []) }
            ensures pass { IsPassOf turns result.0 × HoldsNoTurn result.0 × (number_of result.0 ≡ 0) }
            ensures count { count_by (λ e. e == 0) (seen_of result.0) ≡ result.1 }
        { add_thousand(rt, &turns, first) },
        || -> (Pass<Numbers>, u32)
            requires { IsPassOf turns last × HoldsNoTurn last × (number_of last ≡ 1) × (seen_of last ≡ []) }
            ensures pass { IsPassOf turns result.0 × HoldsNoTurn result.0 × (number_of result.0 ≡ 1) }
            ensures count { count_by (λ e. e == 1) (seen_of result.0) ≡ result.1 }
        { add_thousand(rt, &turns, last) },
    );
    passes.push_reserved(first);
    passes.push_reserved(last);
    Ok((turns.close(passes), zeros, ones))
}

#[test]
fn two_threads_add_a_thousand_numbers_each(rt: HostRuntime) {
    let (numbers, zeros, ones) = added_by_two(&rt, rt.alloc()).expect(&rt, "two passes");
    assert!(rt; zeros == 1000 && ones == 1000);
    assert!(rt; numbers.items.len() == 2000);
    assert!(rt; numbers.items.iter().filter(|n| **n == 0).count() == 1000);
    assert!(rt; numbers.items.iter().filter(|n| **n == 1).count() == 1000);
}

#[test]
fn passes_are_numbered_from_zero(rt: HostRuntime) {
    let items = vec![in rt.alloc(); 7].expect(&rt, "a number");
    let (turns, passes) = Turns::open(rt.alloc(), Numbers { items }, 3).expect(&rt, "passes");
    assert!(rt; passes.len() == 3);
    assert!(rt; passes[0].number() == 0 && passes[1].number() == 1 && passes[2].number() == 2);
    assert!(rt; turns.close(passes).items.as_slice() == [7].as_slice());
}

#[test]
fn history_of_one_pass_grows_by_what_it_enters(rt: HostRuntime) {
    let items = vec![in rt.alloc(); 7, 7].expect(&rt, "two numbers");
    let (turns, mut passes) = Turns::open(rt.alloc(), Numbers { items }, 1).expect(&rt, "a pass");
    let mut pass = passes.pop().unwrap();
    assert!(rt; add_number(&rt, &turns, &mut pass));
    assert!(rt; add_number(&rt, &turns, &mut pass));
    assert!(rt; add_number(&rt, &turns, &mut pass));
    passes.push_reserved(pass);
    assert!(rt; turns.close(passes).items.as_slice() == [7, 7, 0, 0, 0].as_slice());
}

#[test]
fn leaving_without_an_entry_keeps_the_history(rt: HostRuntime) {
    let items = vec![in rt.alloc(); 7].expect(&rt, "a number");
    let (turns, mut passes) = Turns::open(rt.alloc(), Numbers { items }, 1).expect(&rt, "a pass");
    let mut pass = passes.pop().unwrap();
    let mut held = turns.enter(&rt, &mut pass);
    assert!(rt; held.value().items.as_slice() == [7].as_slice());
    turns.leave(&mut pass, held, None);
    passes.push_reserved(pass);
    assert!(rt; turns.close(passes).items.as_slice() == [7].as_slice());
}
