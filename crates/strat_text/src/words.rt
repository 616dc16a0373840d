//! The words of strategies: those that begin a form, the probes, and the parameters.
ghost use Rattle.std.specs.Prelude.{◌≡◌};
ghost use Rattle.std.specs.Str.{bytes_eq};
ghost use Rattle.strat_text.specs.Words as spec;

use crate::probe::ProbeExpr;
use crate::strategy::ParamKey;

/// The word that begins a form of a strategy.
#[derive(Clone, Copy, Debug, PartialEq, Eq)]
pub(crate) enum Head {
    Then,
    OrElse,
    ParOr,
    ParThen,
    If,
    When,
    FailIf,
    Repeat,
    UsingParams,
    TryFor,
}

/// The word that begins a form of a probe.
#[derive(Clone, Copy, Debug, PartialEq, Eq)]
pub(crate) enum Operator {
    Minus,
    Lt,
    Le,
    Gt,
    Ge,
    Eq,
    And,
    Or,
    Not,
}

/// The head of a form with this word.
#[tactic(auto, unfolding(crate::specs::Words::head_of))]
pub(crate) fn head_of(word: &[u8]) -> Option<Head>
    ensures { result ≡ spec.head_of word.now }
{
    if same(word, b"then") {
        Some(Head::Then)
    } else if same(word, b"or-else") {
        Some(Head::OrElse)
    } else if same(word, b"par-or") {
        Some(Head::ParOr)
    } else if same(word, b"par-then") {
        Some(Head::ParThen)
    } else if same(word, b"if") {
        Some(Head::If)
    } else if same(word, b"when") {
        Some(Head::When)
    } else if same(word, b"fail-if") {
        Some(Head::FailIf)
    } else if same(word, b"repeat") {
        Some(Head::Repeat)
    } else if same(word, b"using-params") {
        Some(Head::UsingParams)
    } else if same(word, b"try-for") {
        Some(Head::TryFor)
    } else {
        None
    }
}

/// The operator with this word.
#[tactic(auto, unfolding(crate::specs::Words::operator_of))]
pub(crate) fn operator_of(word: &[u8]) -> Option<Operator>
    ensures { result ≡ spec.operator_of word.now }
{
    if same(word, b"-") {
        Some(Operator::Minus)
    } else if same(word, b"<") {
        Some(Operator::Lt)
    } else if same(word, b"<=") {
        Some(Operator::Le)
    } else if same(word, b">") {
        Some(Operator::Gt)
    } else if same(word, b">=") {
        Some(Operator::Ge)
    } else if same(word, b"=") {
        Some(Operator::Eq)
    } else if same(word, b"and") {
        Some(Operator::And)
    } else if same(word, b"or") {
        Some(Operator::Or)
    } else if same(word, b"not") {
        Some(Operator::Not)
    } else {
        None
    }
}

/// The probe with this name.
#[tactic(auto, unfolding(crate::specs::Words::probe_named))]
pub(crate) fn probe_named(word: &[u8]) -> Option<ProbeExpr>
    ensures { result ≡ spec.probe_named word.now }
{
    if same(word, b"size") {
        Some(ProbeExpr::Size)
    } else if same(word, b"num-exprs") {
        Some(ProbeExpr::NumExprs)
    } else if same(word, b"depth") {
        Some(ProbeExpr::Depth)
    } else if same(word, b"num-consts") {
        Some(ProbeExpr::NumConsts)
    } else if same(word, b"is-propositional") {
        Some(ProbeExpr::IsPropositional)
    } else if same(word, b"is-canonical") {
        Some(ProbeExpr::IsCanonical)
    } else if same(word, b"is-bounded") {
        Some(ProbeExpr::IsBounded)
    } else if same(word, b"is-01") {
        Some(ProbeExpr::Is01)
    } else if same(word, b"max-bits") {
        Some(ProbeExpr::MaxBits)
    } else {
        None
    }
}

/// The parameter with this keyword.
#[tactic(auto, unfolding(crate::specs::Words::key_of))]
pub(crate) fn key_of(word: &[u8]) -> Option<ParamKey>
    ensures { result ≡ spec.key_of word.now }
{
    if same(word, b":lia2pb_max_bits") {
        Some(ParamKey::Lia2pbMaxBits)
    } else if same(word, b":add_bound_lower") {
        Some(ParamKey::AddBoundLower)
    } else if same(word, b":add_bound_upper") {
        Some(ParamKey::AddBoundUpper)
    } else if same(word, b":drop_wide_max") {
        Some(ParamKey::DropWideMax)
    } else {
        None
    }
}

/// Whether two texts are the same.
pub(crate) fn same(a: &[u8], b: &[u8]) -> bool
    ensures { result ≡ bytes_eq a.now b.now }
{
    a == b
}
