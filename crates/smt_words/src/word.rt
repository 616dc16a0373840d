//! The words of commands, options, logics and sorts.
ghost use Rattle.std.specs.Prelude.{◌≡◌};
ghost use Rattle.std.specs.Str.{bytes_eq};
ghost use Rattle.smt_words.specs.Words as spec;

use crate::command::Info;
use qterm::Sort;

/// The word that begins a command.
#[derive(Clone, Copy, Debug, PartialEq, Eq)]
pub enum Word {
    SetLogic,
    SetOption,
    SetInfo,
    DeclareConst,
    DeclareFun,
    DefineFun,
    Assert,
    Push,
    Pop,
    CheckSat,
    CheckSatUsing,
    Apply,
    GetModel,
    GetValue,
    GetProof,
    GetInfo,
    Echo,
    ResetAssertions,
    Exit,
}

/// What the value of an option is.
#[derive(Clone, Copy, Debug, PartialEq, Eq)]
pub enum OptionKind {
    PrintSuccess,
    Truth,
    Number,
    Other,
}

/// The word with this text.
#[tactic(auto, unfolding(crate::specs::Words::word_named))]
pub fn word_named(text: &[u8]) -> Option<Word>
    ensures { result ≡ spec.word_named text.now }
{
    if same(text, b"set-logic") {
        Some(Word::SetLogic)
    } else if same(text, b"set-option") {
        Some(Word::SetOption)
    } else if same(text, b"set-info") {
        Some(Word::SetInfo)
    } else if same(text, b"declare-const") {
        Some(Word::DeclareConst)
    } else if same(text, b"declare-fun") {
        Some(Word::DeclareFun)
    } else if same(text, b"define-fun") {
        Some(Word::DefineFun)
    } else if same(text, b"assert") {
        Some(Word::Assert)
    } else if same(text, b"push") {
        Some(Word::Push)
    } else if same(text, b"pop") {
        Some(Word::Pop)
    } else if same(text, b"check-sat") {
        Some(Word::CheckSat)
    } else if same(text, b"check-sat-using") {
        Some(Word::CheckSatUsing)
    } else if same(text, b"apply") {
        Some(Word::Apply)
    } else if same(text, b"get-model") {
        Some(Word::GetModel)
    } else if same(text, b"get-value") {
        Some(Word::GetValue)
    } else if same(text, b"get-proof") {
        Some(Word::GetProof)
    } else if same(text, b"get-info") {
        Some(Word::GetInfo)
    } else if same(text, b"echo") {
        Some(Word::Echo)
    } else if same(text, b"reset-assertions") {
        Some(Word::ResetAssertions)
    } else if same(text, b"exit") {
        Some(Word::Exit)
    } else {
        None
    }
}

/// Whether a logic is accepted.
pub fn is_logic(text: &[u8]) -> bool
    ensures { result ≡ spec.is_logic text.now }
{
    same(text, b"QF_LIA") || same(text, b"QF_IDL") || same(text, b"ALL")
}

/// The sort with this name.
pub fn sort_named(text: &[u8]) -> Option<Sort>
    ensures { result ≡ spec.sort_named text.now }
{
    if same(text, b"Bool") {
        Some(Sort::Bool)
    } else if same(text, b"Int") {
        Some(Sort::Int)
    } else {
        None
    }
}

/// What the value of an option is.
#[tactic(auto, unfolding(crate::specs::Words::option_kind))]
pub fn option_kind(key: &[u8]) -> OptionKind
    ensures { result ≡ spec.option_kind key.now }
{
    if same(key, b":print-success") {
        OptionKind::PrintSuccess
    } else if same(key, b":produce-models") {
        OptionKind::Truth
    } else if same(key, b":produce-proofs") {
        OptionKind::Truth
    } else if same(key, b":produce-unsat-cores") {
        OptionKind::Truth
    } else if same(key, b":random-seed") {
        OptionKind::Number
    } else if same(key, b":verbosity") {
        OptionKind::Number
    } else {
        OptionKind::Other
    }
}

/// The flag with this keyword.
#[tactic(auto, unfolding(crate::specs::Words::info_named))]
pub fn info_named(key: &[u8]) -> Info
    ensures { result ≡ spec.info_named key.now }
{
    if same(key, b":name") {
        Info::Name
    } else if same(key, b":version") {
        Info::Version
    } else if same(key, b":error-behavior") {
        Info::ErrorBehavior
    } else if same(key, b":reason-unknown") {
        Info::ReasonUnknown
    } else {
        Info::Other
    }
}

fn same(a: &[u8], b: &[u8]) -> bool
    ensures { result ≡ bytes_eq a.now b.now }
{
    a == b
}
