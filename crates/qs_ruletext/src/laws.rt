//! What holds of the definitions, whatever the program does.

ghost use Rattle.std.specs.Prelude.{◌≡◌, ℕ, ◌+◌, ◌↔◌, List, [], ◌++◌, length, map, drop};
ghost use Rattle.std.specs.List.{All};
ghost use Rattle.qs_lex.specs.declared.token.Token.{Token};
ghost use Rattle.qs_lex.specs.Tokens.{version_of, Reads, AreTokensOf, IsTokenOf};
ghost use Rattle.qs_lex.specs.Grammar.{part, repeated, IsWhole};
ghost use Rattle.qs_tree.specs.Names.{AreDistinct};
ghost use Rattle.qs_pattern.specs.Rules.{UnmarkedRule};
ghost use Rattle.qs_ruletext.specs.WrittenRules.{WrittenRule};
ghost use Rattle.qs_ruletext.specs.Grammar.{rule, line};
ghost use Rattle.qs_ruletext.specs.Rules.{ReadsRule, ReadsWrittenRule, ReadsRules, IsWellRead, NoRuleAt};
ghost use Rattle.qs_ruletext.specs.Endings.{NoRuleIn};
ghost use Rattle.qs_reader.specs.Names.{NamesGrow};
ghost use Rattle.qs_ruletext.specs.Written.{AreOnOneLine, IsRuleToldIn, written};

/// What is read is whole by the grammar.
pub fn what_is_read_is_whole()
    ensures rule { (names : List (List ℕ)) (text : List ℕ) (ts rest : List Token) (r : UnmarkedRule)
        → ReadsRule names text ts r rest → IsWhole line (part rule) ts rest }
    ensures rules { (names : List (List ℕ)) (text : List ℕ) (ts rest : List Token) (raws : List WrittenRule)
        → ReadsRules names text ts raws rest → IsWhole line (repeated (part rule)) ts rest }
{}

/// What is whole by the grammar is read, in names that have grown by the tokens.
pub fn what_is_whole_is_read()
    ensures { (text : List ℕ) (ts rest : List Token) (old names : List (List ℕ))
        → All (IsTokenOf text) ts → NamesGrow text ts old names → IsWhole line (part rule) ts rest
        → (raw : WrittenRule) × ReadsWrittenRule names text ts raw rest }
{}

/// From the same names the same tokens lead to one list of names, and tokens of a text always lead to one. No text
/// stands in it twice if none did before. Where some tokens stand behind others, the names grow by the first and then
/// by those behind them.
pub fn names_grow_to_one()
    ensures one { (text : List ℕ) (ts : List Token) (old new other : List (List ℕ)) → NamesGrow text ts old new
        → NamesGrow text ts old other → new ≡ other }
    ensures some { (text : List ℕ) (ts : List Token) (old : List (List ℕ)) → All (IsTokenOf text) ts
        → (new : List (List ℕ)) × NamesGrow text ts old new }
    ensures distinct { (text : List ℕ) (ts : List Token) (old new : List (List ℕ)) → AreDistinct old
        → NamesGrow text ts old new → AreDistinct new }
    ensures together { (text : List ℕ) (xs ys : List Token) (old middle new : List (List ℕ))
        → NamesGrow text xs old middle → NamesGrow text ys middle new → NamesGrow text (xs ++ ys) old new }
    ensures apart { (text : List ℕ) (xs ys : List Token) (old new : List (List ℕ)) → NamesGrow text (xs ++ ys) old new
        → (middle : List (List ℕ)) × NamesGrow text xs old middle × NamesGrow text ys middle new }
{}

/// The sides of a rule that was read are not empty and have no forest variable at their top, its variables stand at
/// places of their classes, its condition joins at least two wherever it joins and compares no empty list,
/// and its labels are named.
pub fn what_is_read_is_well_made()
    ensures { (names : List (List ℕ)) (text : List ℕ) (ts rest : List Token) (r : UnmarkedRule)
        → ReadsRule names text ts r rest → IsWellRead (length names) r }
{}

/// Texts of version 2 tell each rule. A rule that was read from tokens of a text is one that texts of the version of
/// this text tell.
pub fn what_texts_tell()
    ensures each { (r : UnmarkedRule) → IsRuleToldIn 2 r }
    ensures read { (names : List (List ℕ)) (text : List ℕ) (ts rest : List Token) (r : UnmarkedRule)
        → All (IsTokenOf text) ts → ReadsRule names text ts r rest → IsRuleToldIn (version_of text) r }
{}

/// Where no two names are equal, tokens are read in one way only: as one rule with one rest; and as the same rules,
/// with the same bytes of their cells and the same rest, where both rests don't go on with a rule. No rule begins at a
/// place exactly where the tokens from that place on don't go on with one.
pub fn one_reading()
    ensures rule { (names : List (List ℕ)) (text : List ℕ) (ts rest end : List Token) (r s : UnmarkedRule)
        → AreDistinct names → ReadsRule names text ts r rest → ReadsRule names text ts s end → (r ≡ s) × (rest ≡ end) }
    ensures rules { (names : List (List ℕ)) (text : List ℕ) (ts rest end : List Token) (raws others : List WrittenRule)
        → AreDistinct names → ReadsRules names text ts raws rest → ReadsRules names text ts others end
        → NoRuleIn rest → NoRuleIn end → (map (λ raw. raw.rule) raws ≡ map (λ raw. raw.rule) others)
        × (map (λ raw. raw.at) raws ≡ map (λ raw. raw.at) others) × (rest ≡ end) }
    ensures place { (tokens : List Token) (at : ℕ) → NoRuleAt tokens at ↔ NoRuleIn (drop at tokens) }
{}

/// What is written of a rule is read as that rule, where the rule is as one that was read, no name has the end of a
/// line, and texts of the version of the text in which it stands tell the rule. Alone it is the whole text, of version
/// 1. In a longer text, whatever stands before and behind it: where tokens are read from the place behind it on, tokens
/// are read from its place on, and they are the rule and then those. Where no two names are equal, it is read as no
/// other rule, so that two rules that are written alike are one.
pub fn what_is_written_is_read()
    ensures alone { (names : List (List ℕ)) (r : UnmarkedRule) → AreOnOneLine names → IsWellRead (length names) r
        → IsRuleToldIn 1 r
        → (ts : List Token) × AreTokensOf (written names r) ts × ReadsRule names (written names r) ts r [] }
    ensures within { (names : List (List ℕ)) (before behind : List ℕ) (r : UnmarkedRule) (rest : List Token) (next : ℕ)
        → AreOnOneLine names → IsWellRead (length names) r
        → IsRuleToldIn (version_of (before ++ (written names r ++ behind))) r
        → Reads (before ++ (written names r ++ behind)) (length before + length (written names r)) rest next
        → (ts : List Token) × Reads (before ++ (written names r ++ behind)) (length before) ts next
        × ReadsRule names (before ++ (written names r ++ behind)) ts r rest }
    ensures only { (names : List (List ℕ)) (r s : UnmarkedRule) (ts rest : List Token)
        → AreDistinct names → AreOnOneLine names → IsWellRead (length names) r → IsRuleToldIn 1 r
        → AreTokensOf (written names r) ts
        → ReadsRule names (written names r) ts s rest → (s ≡ r) × (rest ≡ []) }
{}

/// No label that is read has the end of a line: where no name had one before, none has one after tokens of a text.
pub fn names_stay_on_one_line()
    ensures { (text : List ℕ) (ts : List Token) (old new : List (List ℕ)) → All (IsTokenOf text) ts → AreOnOneLine old
        → NamesGrow text ts old new → AreOnOneLine new }
{}
