//! The commands of a script.
ghost use Rattle.std.specs.Prelude.{◌≡◌};

use qterm::{Name, TermId};
use std::marker::Model;
use strat_text::Strategy;

/// The bytes of a string with its quotes, which contracts see as a list.
#[derive(Debug, Drop)]
pub struct Echoed {
    pub bytes: Vec<u8>,
}

impl Model for Echoed {
    ghost use Rattle.std.specs.Prelude.{List, ℕ};

    ghost Value = { List ℕ };

    ghost view = { λ t. t.bytes.items };
}

/// A term whose value is asked for, which stands in the script from `start` up to `end`.
#[derive(Clone, Copy, Debug)]
pub struct Asked {
    pub term: TermId,
    pub start: usize,
    pub end: usize,
}

/// Terms whose values are asked for, which contracts see as a list.
#[derive(Drop)]
pub struct AskedTerms {
    items: Vec<Asked>,
}

impl Model for AskedTerms {
    ghost use Rattle.std.specs.Prelude.{List};
    ghost use Rattle.smt_words.specs.declared.command.Asked.{Asked};

    ghost Value = { List Asked };

    ghost view = { λ a. a.items.items };
}

impl AskedTerms {
    /// These terms.
    pub fn from_vec(items: Vec<Asked>) -> AskedTerms
        ensures { result ≡ items.items }
    {
        AskedTerms { items }
    }

    /// The terms in order.
    pub fn as_slice(&self) -> &[Asked]
        ensures { result.now ≡ self.now }
    {
        self.items.as_slice()
    }
}

/// What `get-info` asks for.
#[derive(Clone, Copy, Debug, PartialEq, Eq)]
pub enum Info {
    Name,
    Version,
    ErrorBehavior,
    ReasonUnknown,
    Other,
}

/// A command, its term as one of a store.
#[derive(Drop)]
pub enum Command {
    /// `(set-logic L)`
    SetLogic,
    /// `(set-option :print-success B)`
    PrintSuccess(bool),
    /// `(set-option ..)` of another option, and whether it is a known one
    SetOption(bool),
    /// `(set-info ..)`
    SetInfo,
    /// `(declare-const NAME SORT)`, and `(declare-fun NAME () SORT)`, of a new name
    Declare(Name),
    /// `(define-fun NAME (..) SORT T)` of a new name
    Define,
    /// `(assert F)`
    Assert(TermId),
    /// `(push N)`
    Push(u32),
    /// `(pop N)`
    Pop(u32),
    /// `(check-sat)`
    CheckSat,
    /// `(check-sat-using S)`
    CheckSatUsing(Strategy),
    /// `(apply S)`
    Apply(Strategy),
    /// `(get-model)`
    GetModel,
    /// `(get-value (T ..))`
    GetValue(AskedTerms),
    /// `(get-proof)`
    GetProof,
    /// `(get-info FLAG)`
    GetInfo(Info),
    /// `(echo STRING)`
    Echo(Echoed),
    /// `(reset-assertions)`
    ResetAssertions,
    /// `(exit)`
    Exit,
}
