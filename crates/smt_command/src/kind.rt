//! What the arguments of commands are.
ghost use Rattle.std.specs.Prelude.{◌≡◌};
ghost use Rattle.smt_command.specs.Kinds as spec;

use smt_words::Word;

/// What the arguments of a command are: one formula, a name with a term, terms, or no terms.
#[derive(Clone, Copy, Debug, PartialEq, Eq)]
pub(crate) enum Kind {
    Assertion,
    Definition,
    Question,
    Plain,
}

/// What the arguments are of the command with this word.
pub(crate) fn kind_of(word: Word) -> Kind
    ensures { result ≡ spec.kind_of word }
{
    match word {
        Word::Assert => Kind::Assertion,
        Word::DefineFun => Kind::Definition,
        Word::GetValue => Kind::Question,
        _ => Kind::Plain,
    }
}
