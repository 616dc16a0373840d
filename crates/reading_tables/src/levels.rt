//! The commands of scripts: what they leave in force, and where a script ends.

use crate::scripts::letters;
use qterm::Store;
use smt_command::commands;
use smt_words::{Command, Info, ScriptError, What};
use std::alloc::{AllocError, Global};
use std::test::Fail;

/// Scripts without a fault, and the letters of their commands.
const WHOLE: [(&[u8], &[u8]); 33] = [
    (b"", b""),
    (b" ; (assert r)", b""),
    (b"(check-sat) ; \xE9 (\r(get-model)\n;)\n(exit)", b"CMX"),
    (b"(exit) ) ( \" rubbish", b"X"),
    (b"(check-sat)(exit)(assert r)", b"CX"),
    (b"(|exit|)(foo)", b"X"),
    (b"(|assert| true)(|check-sat|)", b"AC"),
    (b"(set-logic QF_LIA)", b"L"),
    (b"(set-logic QF_IDL)", b"L"),
    (b"(set-logic |ALL|)", b"L"),
    (
        b"(set-option :print-success true)(set-option :print-success false)",
        b"Ss",
    ),
    (
        b"(set-option :produce-models true)(set-option :produce-proofs false)(set-option :produce-unsat-cores true)",
        b"OOO",
    ),
    (
        b"(set-option :random-seed 7)(set-option :verbosity 0)",
        b"OO",
    ),
    (b"(set-option :foo 1)(set-option :bar (a 1.5 #xF))", b"oo"),
    (
        b"(set-info :source |a\n b|)(set-info :smt-lib-version 2.6)",
        b"II",
    ),
    (
        b"(set-info :status sat)(set-info :license \"a \"\" b\")",
        b"II",
    ),
    (
        b"(get-info :name)(get-info :version)(get-info :error-behavior)(get-info :reason-unknown)(get-info :foo)",
        b"GGGGG",
    ),
    (
        b"(push 1)(assert false)(check-sat)(pop 1)(check-sat)",
        b"+AC-C",
    ),
    (
        b"(push)(push 0)(push 65535)(pop 0)(pop)(pop 65535)",
        b"+++---",
    ),
    (b"(check-sat-using foo)(apply (then foo bar))", b"UY"),
    (
        b"(get-model)(get-proof)(get-value (true))(echo \"a\")",
        b"MPVE",
    ),
    // A name is free again behind its level
    (
        b"(push 1)(declare-const x Int)(pop 1)(declare-const x Bool)(assert x)",
        b"+D-DA",
    ),
    (
        b"(push 2)(define-fun f () Int 1)(pop 1)(define-fun f () Bool true)(assert f)",
        b"+F-FA",
    ),
    (
        b"(push 1)(assert (! true :named a))(pop 1)(declare-const a Int)",
        b"+A-D",
    ),
    (
        b"(push 1)(declare-const x Int)(push 1)(pop 1)(get-value (x))",
        b"+D+-V",
    ),
    (
        b"(declare-const x Int)(push 3)(declare-const y Int)(pop 3)(get-value (x))",
        b"D+D-V",
    ),
    // Nothing is left where assertions are reset
    (
        b"(declare-const x Int)(push 2)(assert (! (= x 1) :named a))(reset-assertions)(declare-const x Bool)(declare-const a Int)(push 65536)",
        b"D+ARDD+",
    ),
    (
        b"(define-fun f () Int 1)(reset-assertions)(declare-const f Bool)(assert f)",
        b"FRDA",
    ),
    // A name that let binds is free behind it
    (
        b"(assert (let ((a true)) a))(declare-const a Int)(get-value ((let ((a true)) a) (+ a 1)))",
        b"ADV",
    ),
    // A reserved word may be declared
    (
        b"(declare-const check-sat Bool)(assert check-sat)(check-sat)",
        b"DAC",
    ),
    (b"(declare-fun |let| () Int)(get-value (|let|))", b"DV"),
    // A name that is given in a command counts in the next
    (
        b"(get-value ((! 7 :named seven)))(assert (= seven 7))",
        b"VA",
    ),
    (
        b"(define-fun f () Bool (! true :named t))(assert (and f t))",
        b"FA",
    ),
];

/// The letters of the commands of a script before its fault, and that.
fn outline(alloc: Global, text: &[u8]) -> Result<(Vec<u8>, Option<ScriptError>), AllocError> {
    let mut store = Store::new(alloc);
    let script = commands(alloc, text, &mut store, None)?;
    Ok((letters(alloc, &script)?, script.fault))
}

#[test]
fn whole_scripts(rt: HostRuntime) -> Result<(), Fail> {
    let alloc = rt.alloc();
    for (text, want) in WHOLE {
        let (letters, fault) = outline(alloc, text)?;
        assert_eq!(rt; fault, None);
        assert_eq!(rt; letters.as_slice(), want);
    }
    Ok(())
}

/// Scripts with a fault: the letters of the commands before it, what is wrong, and its place.
const CUT: [(&[u8], &[u8], What, usize); 7] = [
    (
        b"(check-sat)(foo)(check-sat)",
        b"C",
        What::UnknownCommand,
        12,
    ),
    (b"(check-sat)(exit 0)", b"C", What::BadShape, 11),
    (b"(check-sat)(assert", b"C", What::Unclosed, 11),
    (
        b"(push)(declare-const y Int)(pop)(get-value (y))",
        b"+D-",
        What::UnknownSymbol,
        44,
    ),
    (
        b"(declare-const y Int)(reset-assertions)(get-value (y))",
        b"DR",
        What::UnknownSymbol,
        51,
    ),
    (
        b"(declare-const y Int)(push)(declare-const y Int)",
        b"D+",
        What::Redeclared,
        42,
    ),
    (
        b"(push)(assert (! true :named a))(pop)(assert a)",
        b"+A-",
        What::UnknownSymbol,
        45,
    ),
];

#[test]
fn scripts_up_to_a_fault(rt: HostRuntime) -> Result<(), Fail> {
    let alloc = rt.alloc();
    for (text, want, what, place) in CUT {
        let (letters, fault) = outline(alloc, text)?;
        assert_eq!(rt; fault, Some(ScriptError { what, place }));
        assert_eq!(rt; letters.as_slice(), want);
    }
    Ok(())
}

/// Whether a command shows what it says beside its letter.
fn is_shown(command: &Command, at: usize) -> bool {
    match command {
        Command::Declare(name) => at == 0 && name.text() == b"x y".as_slice(),
        Command::Push(count) => at == 1 && *count == 3,
        Command::Pop(count) => at == 2 && *count == 1,
        Command::GetInfo(Info::ReasonUnknown) => at == 3,
        Command::GetValue(asked) => match asked.as_slice() {
            [first, second] => {
                at == 4
                    && first.start == 76
                    && first.end == 80
                    && second.start == 81
                    && second.end == 98
            }
            _ => false,
        },
        _ => false,
    }
}

/// A script whose commands say more than their letters.
const SAYING: &[u8] =
    b"(declare-const |x y| Int)(push 3)(pop)(get-info :reason-unknown)(get-value (true (and  true false)))";

#[test]
fn commands_say(rt: HostRuntime) -> Result<(), Fail> {
    let alloc = rt.alloc();
    let mut store = Store::new(alloc);
    let script = commands(alloc, SAYING, &mut store, None)?;
    let mut places = Vec::new(alloc);
    for placed in script.commands.as_slice() {
        assert!(rt; is_shown(&placed.command, places.len()));
        places.push(placed.place)?;
    }
    assert_eq!(rt; places.as_slice(), [0, 25, 33, 38, 64].as_slice());
    Ok(())
}
