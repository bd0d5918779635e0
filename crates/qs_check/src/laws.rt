//! Laws of causes and of rules that were read, over their definitions alone.

ghost use Rattle.std.specs.Prelude.{ℕ, List, ◌≡◌, ◌⊎◌};
ghost use Rattle.qs_lex.specs.declared.refusal.Cause.{Cause};
ghost use Rattle.qs_pattern.specs.Rules.{UnmarkedRule, IsAcceptable};
ghost use Rattle.qs_lex.specs.declared.token.Token.{Token};
ghost use Rattle.qs_ruletext.specs.WrittenRules.{WrittenRule};
ghost use Rattle.qs_ruletext.specs.Rules.{ReadsWrittenRule};
ghost use Rattle.qs_check.specs.Causes.{IsFirstCause};
ghost use Rattle.qs_check.specs.Checking.{CanBeChecked};

/// A rule has at most one first cause, at one cell, and none where it is accepted. One that can be checked has one or
/// is accepted.
pub fn one_first_cause()
    ensures one_cause { (rule : UnmarkedRule) (c d : Cause) (i j : ℕ) → IsFirstCause rule c i → IsFirstCause rule d j
        → c ≡ d }
    ensures one_place { (rule : UnmarkedRule) (c d : Cause) (i j : ℕ) → IsFirstCause rule c i → IsFirstCause rule d j
        → i ≡ j }
    ensures some { (raw : WrittenRule) → CanBeChecked raw
        → IsAcceptable raw.rule ⊎ ((c : Cause) × (i : ℕ) × IsFirstCause raw.rule c i) }
    ensures none_if_accepted { (rule : UnmarkedRule) (c : Cause) (i : ℕ) → IsAcceptable rule → IsFirstCause rule c i
        → ⊥ }
{}

/// Each rule that is read from tokens can be checked.
pub fn what_is_read_can_be_checked()
    ensures { (names : List (List ℕ)) (text : List ℕ) (tokens : List Token) (raw : WrittenRule) (rest : List Token)
        → ReadsWrittenRule names text tokens raw rest → CanBeChecked raw }
{}
