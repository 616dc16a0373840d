//! Strategies written in their one spelling.
ghost use Rattle.std.specs.Prelude.{◌≡◌, ◌≤◌, true, [], ◌∷◌, ◌++◌, map, decimal, IfOk, OnOk};
ghost use Rattle.sexp_read.specs.declared.parsing.TheConstants.{NESTING};
ghost use Rattle.strat_text.specs.Allowed.{is_allowed};
ghost use Rattle.strat_text.specs.Back.{ReadsBack};
ghost use Rattle.strat_text.specs.Grammar.{Names};
ghost use Rattle.strat_text.specs.Known.{are_known};
ghost use Rattle.strat_text.specs.Nesting.{nesting};
ghost use Rattle.strat_text.specs.Spelled as spec;

use crate::probe::ProbeExpr;
use crate::strategy::{ParamKey, Strategy};
use itoa::Buffer;
use std::alloc::{AllocError, Global};

/// The text of a strategy, in the one spelling of each form, so that reading it gives the strategy back.
pub fn write_strategy(alloc: Global, strategy: &Strategy) -> Result<Vec<u8>, AllocError>
    requires allowed { is_allowed strategy.now ≡ true }
    ensures spelled { IfOk result (λ text. text.items ≡ spec.spelled strategy.now) }
    ensures back { IfOk result (λ text. (names : Names) → are_known names strategy.now ≡ true → nesting strategy.now ≤ NESTING → ReadsBack names text.items strategy.now) }
{
    let mut text = Vec::new(alloc);
    put_strategy(&mut text, strategy)?;
    Ok(text)
}

// Writes a strategy behind the text.
#[cycle(strategy)]
fn put_strategy(text: &mut Vec<u8>, strategy: &Strategy) -> Result<(), AllocError>
    ensures { OnOk result (text.new.items ≡ text.old.items ++ spec.spelled strategy.now) }
{
    match strategy {
        Strategy::Prim(name) => {
            text.extend_from_slice(name.text())?;
            Ok(())
        }
        Strategy::Then(parts) => put_parts(text, b"then", parts.as_slice()),
        Strategy::OrElse(parts) => put_parts(text, b"or-else", parts.as_slice()),
        Strategy::ParOr(parts) => put_parts(text, b"par-or", parts.as_slice()),
        Strategy::ParThen(first, second) => {
            open_form(text, b"par-then")?;
            put_next(text, first.get())?;
            put_next(text, second.get())?;
            close_form(text)
        }
        Strategy::If(probe, yes, no) => {
            open_form(text, b"if")?;
            put_next_probe(text, probe)?;
            put_next(text, yes.get())?;
            put_next(text, no.get())?;
            close_form(text)
        }
        Strategy::When(probe, part) => {
            open_form(text, b"when")?;
            put_next_probe(text, probe)?;
            put_next(text, part.get())?;
            close_form(text)
        }
        Strategy::FailIf(probe) => {
            open_form(text, b"fail-if")?;
            put_next_probe(text, probe)?;
            close_form(text)
        }
        Strategy::Repeat(part, turns) => {
            open_form(text, b"repeat")?;
            put_next(text, part.get())?;
            put_next_count(text, *turns)?;
            close_form(text)
        }
        Strategy::Params(part, settings) => {
            open_form(text, b"using-params")?;
            put_next(text, part.get())?;
            put_settings(text, settings.as_slice())?;
            close_form(text)
        }
        Strategy::TryFor(part, limit) => {
            open_form(text, b"try-for")?;
            put_next(text, part.get())?;
            put_next_count(text, *limit)?;
            close_form(text)
        }
    }
}

// Writes a form of strategies.
#[cycle(strategy)]
fn put_parts(text: &mut Vec<u8>, word: &[u8], parts: &[Strategy]) -> Result<(), AllocError>
    ensures { OnOk result (text.new.items ≡ text.old.items ++ spec.form_text word.now (map spec.spelled parts.now)) }
{
    open_form(text, word)?;
    for part in parts {
        put_next(text, part)?;
    }
    close_form(text)
}

// Writes a strategy behind a space.
#[cycle(strategy)]
fn put_next(text: &mut Vec<u8>, strategy: &Strategy) -> Result<(), AllocError>
    ensures { OnOk result (text.new.items ≡ text.old.items ++ 32 ∷ spec.spelled strategy.now) }
{
    text.push(b' ')?;
    put_strategy(text, strategy)
}

// Writes a probe behind the text.
#[cycle(probe)]
fn put_probe(text: &mut Vec<u8>, probe: &ProbeExpr) -> Result<(), AllocError>
    ensures { OnOk result (text.new.items ≡ text.old.items ++ spec.spelled_probe probe.now) }
{
    match probe {
        ProbeExpr::Size => put_word(text, b"size"),
        ProbeExpr::NumExprs => put_word(text, b"num-exprs"),
        ProbeExpr::Depth => put_word(text, b"depth"),
        ProbeExpr::NumConsts => put_word(text, b"num-consts"),
        ProbeExpr::IsPropositional => put_word(text, b"is-propositional"),
        ProbeExpr::IsCanonical => put_word(text, b"is-canonical"),
        ProbeExpr::IsBounded => put_word(text, b"is-bounded"),
        ProbeExpr::Is01 => put_word(text, b"is-01"),
        ProbeExpr::MaxBits => put_word(text, b"max-bits"),
        ProbeExpr::Num(number) => {
            let number = *number;
            put_number(text, number)
        }
        ProbeExpr::Lt(left, right) => {
            put_left(text, b"<", left.get())?;
            put_right(text, right.get())
        }
        ProbeExpr::Le(left, right) => {
            put_left(text, b"<=", left.get())?;
            put_right(text, right.get())
        }
        ProbeExpr::Gt(left, right) => {
            put_left(text, b">", left.get())?;
            put_right(text, right.get())
        }
        ProbeExpr::Ge(left, right) => {
            put_left(text, b">=", left.get())?;
            put_right(text, right.get())
        }
        ProbeExpr::Eq(left, right) => {
            put_left(text, b"=", left.get())?;
            put_right(text, right.get())
        }
        ProbeExpr::And(parts) => put_probes(text, b"and", parts.as_slice()),
        ProbeExpr::Or(parts) => put_probes(text, b"or", parts.as_slice()),
        ProbeExpr::Not(part) => {
            open_form(text, b"not")?;
            put_right(text, part.get())
        }
    }
}

// Begins a form of two probes, up to the end of the first.
#[cycle(probe)]
fn put_left(text: &mut Vec<u8>, word: &[u8], left: &ProbeExpr) -> Result<(), AllocError>
    ensures { OnOk result (text.new.items ≡ text.old.items ++ 40 ∷ (word.now ++ 32 ∷ spec.spelled_probe left.now)) }
{
    open_form(text, word)?;
    put_next_probe(text, left)
}

// Writes the last probe of a form, and its end.
#[cycle(probe)]
fn put_right(text: &mut Vec<u8>, right: &ProbeExpr) -> Result<(), AllocError>
    ensures { OnOk result (text.new.items ≡ text.old.items ++ 32 ∷ (spec.spelled_probe right.now ++ 41 ∷ [])) }
{
    put_next_probe(text, right)?;
    close_form(text)
}

// Writes a form of probes.
#[cycle(probe)]
fn put_probes(text: &mut Vec<u8>, word: &[u8], parts: &[ProbeExpr]) -> Result<(), AllocError>
    ensures { OnOk result (text.new.items ≡ text.old.items ++ spec.form_text word.now (map spec.spelled_probe parts.now)) }
{
    open_form(text, word)?;
    for part in parts {
        put_next_probe(text, part)?;
    }
    close_form(text)
}

// Writes a probe behind a space.
#[cycle(probe)]
fn put_next_probe(text: &mut Vec<u8>, probe: &ProbeExpr) -> Result<(), AllocError>
    ensures { OnOk result (text.new.items ≡ text.old.items ++ 32 ∷ spec.spelled_probe probe.now) }
{
    text.push(b' ')?;
    put_probe(text, probe)
}

// Writes settings, a space before each keyword and each number.
fn put_settings(text: &mut Vec<u8>, settings: &[(ParamKey, i128)]) -> Result<(), AllocError>
    ensures { OnOk result (text.new.items ≡ text.old.items ++ spec.spaced (spec.setting_texts settings.now)) }
{
    for setting in settings {
        put_setting(text, setting)?;
    }
    Ok(())
}

// Writes a keyword and a number, a space before each.
fn put_setting(text: &mut Vec<u8>, setting: &(ParamKey, i128)) -> Result<(), AllocError>
    ensures { OnOk result (text.new.items ≡ text.old.items ++ 32 ∷ (spec.key_text setting.now.0 ++ 32 ∷ spec.number_text setting.now.1)) }
{
    let (key, value) = *setting;
    text.push(b' ')?;
    put_word(text, key_text(key))?;
    text.push(b' ')?;
    put_number(text, value)
}

// The keyword of a parameter.
fn key_text(key: ParamKey) -> &'static [u8]
    ensures { result.now ≡ spec.key_text key }
{
    match key {
        ParamKey::Lia2pbMaxBits => b":lia2pb_max_bits",
        ParamKey::AddBoundLower => b":add_bound_lower",
        ParamKey::AddBoundUpper => b":add_bound_upper",
        ParamKey::DropWideMax => b":drop_wide_max",
    }
}

// Writes a number, a negative one as `(- n)`.
fn put_number(text: &mut Vec<u8>, number: i128) -> Result<(), AllocError>
    ensures { OnOk result (text.new.items ≡ text.old.items ++ spec.number_text number) }
{
    let mut buffer = Buffer::new();
    let digits = buffer.format(number.unsigned_abs());
    if number >= 0 {
        return put_word(text, digits.as_bytes());
    }
    open_form(text, b"-")?;
    text.push(b' ')?;
    put_word(text, digits.as_bytes())?;
    close_form(text)
}

// Writes a numeral behind a space.
fn put_next_count(text: &mut Vec<u8>, count: u64) -> Result<(), AllocError>
    ensures { OnOk result (text.new.items ≡ text.old.items ++ 32 ∷ decimal count) }
{
    let mut buffer = Buffer::new();
    text.push(b' ')?;
    put_word(text, buffer.format(count).as_bytes())
}

// Writes a word behind the text.
fn put_word(text: &mut Vec<u8>, word: &[u8]) -> Result<(), AllocError>
    ensures { OnOk result (text.new.items ≡ text.old.items ++ word.now) }
{
    text.extend_from_slice(word)
}

// Writes an opening parenthesis and the word of a form.
fn open_form(text: &mut Vec<u8>, word: &[u8]) -> Result<(), AllocError>
    ensures { OnOk result (text.new.items ≡ text.old.items ++ 40 ∷ word.now) }
{
    text.push(b'(')?;
    text.extend_from_slice(word)
}

// Writes the closing parenthesis of a form.
fn close_form(text: &mut Vec<u8>) -> Result<(), AllocError>
    ensures { OnOk result (text.new.items ≡ text.old.items ++ 41 ∷ []) }
{
    text.push(b')')?;
    Ok(())
}
