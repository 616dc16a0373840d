//! Certificates, whole.
ghost use Rattle.std.specs.Prelude.{◌≡◌, ℕ, List, All, IfOk, IfErr, IfSome, IfNone, IsTrue, OnOk};
ghost use Rattle.cert_read.specs.Lines.{IsBehind, HasLine};
ghost use Rattle.qterm.specs.Store.{Has, Extends};
ghost use Rattle.tac_cert.specs.Accepts.{CertFits, most_splits};
ghost use Rattle.cert_read.specs.Nesting.{Nests, IsOpen};
ghost use Rattle.cert_text.specs.CertText as spec;

use crate::fault::Fault;
use crate::heads::{Rule, rule_of, same};
use crate::lines::Lines;
use crate::nest::Nest;
use crate::numbers::{cases, count};
use crate::steps::take_step;
use crate::terms::take_term;
use crate::text::Text;
use crate::words::Words;
use cert_text::write_cert;
use qterm::Store;
use std::alloc::{AllocError, Global};
use tac_cert::{Cert, Proof, cert_fits};

/// The line, counted from 1, with the first byte after which no certificate's text can be reached, or with the end of the text.
#[derive(Clone, Copy, Debug, PartialEq, Eq)]
pub struct BadCert {
    pub line: u32,
}

/// The certificate whose text the bytes are, its terms in the store; for other bytes the line at which they stop being the text of one.
///
/// What was read is written again and compared, so that bytes are never taken for a certificate whose text they aren't. The store
/// keeps the terms of the lines before that which is told.
pub fn read_cert(
    alloc: Global,
    store: &mut Store,
    bytes: &[u8],
) -> Result<Result<Cert, BadCert>, AllocError>
    ensures fits { IfOk result (λ read. IfOk read (CertFits store.new)) }
    ensures text { IfOk result (λ read. IfOk read (λ cert. bytes.now ≡ spec.cert_text store.new cert)) }
    ensures nests { IfOk result (λ read. IfOk read (λ cert. Nests most_splits cert.root)) }
    ensures line { IfOk result (λ read. IfErr read (λ bad. HasLine bytes.now bad.line)) }
    ensures extends { Extends store.old store.new }
{
    let mut text = Text::new(bytes);
    match read_whole(alloc, store, &mut text) {
        Ok(cert) => if is_text_of(alloc, store, &cert, bytes)? {
            Ok(Ok(cert))
        } else {
            Ok(Err(BadCert { line: text.number }))
        },
        Err(Fault::Malformed) => Ok(Err(BadCert { line: text.number })),
        Err(Fault::Memory) => Err(AllocError),
    }
}

/// Whether the bytes are the text of a certificate.
fn is_text_of(alloc: Global, store: &Store, cert: &Cert, bytes: &[u8]) -> Result<bool, AllocError>
    ensures fits { IfOk result (λ is. IsTrue is → CertFits store.now cert.now) }
    ensures text { IfOk result (λ is. IsTrue is → bytes.now ≡ spec.cert_text store.now cert.now) }
{
    if !cert_fits(store, cert) {
        return Ok(false);
    }
    let again = write_cert(alloc, store, cert)?;
    Ok(same(again.as_slice(), bytes))
}

/// The certificate of a text.
fn read_whole(alloc: Global, store: &mut Store, text: &mut Text<'_>) -> Result<Cert, Fault>
    ensures nests { IfOk result (λ cert. Nests most_splits cert.root) }
    ensures line { (whole : List ℕ) → IsBehind whole text.old.left.now text.old.number → HasLine whole text.new.number }
    ensures extends { Extends store.old store.new }
{
    let (check, asserts) = read_head(text.line()?)?;
    let root = read_root(alloc, store, text)?;
    if !same(text.line()?, b"end") {
        return Err(Fault::Malformed);
    }
    text.end()?;
    Ok(Cert::new(check, asserts, root))
}

/// The numbers of the check and of its assertions in the first line.
fn read_head(line: &[u8]) -> Result<(u32, u32), Fault> {
    let (word, mut words) = Words::first(line);
    if !same(word, b"tacert") || !same(words.word()?, b"1") {
        return Err(Fault::Malformed);
    }
    let check = words.count()?;
    let asserts = words.count()?;
    words.end()?;
    Ok((check, asserts))
}

/// The proof of a text, behind its first line.
fn read_root(alloc: Global, store: &mut Store, text: &mut Text<'_>) -> Result<Proof, Fault>
    ensures nests { IfOk result (Nests most_splits) }
    ensures behind { (whole : List ℕ) → IsBehind whole text.old.left.now text.old.number → OnOk result (IsBehind whole text.new.left.now text.new.number) }
    ensures line { (whole : List ℕ) → IsBehind whole text.old.left.now text.old.number → HasLine whole text.new.number }
    ensures extends { Extends store.old store.new }
{
    let mut lines = Lines::new(alloc);
    let mut nest = Nest::new(alloc);
    loop {
        let line = text.line()?;
        if let Some(proof) = take_line(alloc, store, &mut lines, &mut nest, line)? {
            return Ok(proof);
        }
    }
}

/// Reads a line of a proof: the whole proof, if the line is its last one.
fn take_line(
    alloc: Global,
    store: &mut Store,
    lines: &mut Lines,
    nest: &mut Nest,
    line: &[u8],
) -> Result<Option<Proof>, Fault>
    requires lines { All (Has store.old) lines.old.ids.keys }
    requires open { IsOpen nest.old.splits.items }
    ensures whole { IfOk result (λ r. IfSome r (Nests most_splits)) }
    ensures open { IfOk result (λ r. IfNone r (IsOpen nest.new.splits.items)) }
    ensures extends { Extends store.old store.new }
    ensures lines { OnOk result (All (Has store.new) lines.new.ids.keys) }
{
    let (word, mut words) = Words::first(line);
    let rule = rule_of(word).ok_or(Fault::Malformed)?;
    match rule {
        Rule::Term => {
            take_term(alloc, store, lines, &mut words)?;
            Ok(None)
        }
        Rule::False | Rule::Split => {
            lines.all_used()?;
            take_close(alloc, nest, &mut words, rule)
        }
        _ => {
            let step = take_step(alloc, store, lines, &mut words, rule)?;
            nest.add(step)?;
            Ok(None)
        }
    }
}

/// Reads a closing line behind its first word.
fn take_close(
    alloc: Global,
    nest: &mut Nest,
    words: &mut Words<'_>,
    rule: Rule,
) -> Result<Option<Proof>, Fault>
    requires open { IsOpen nest.old.splits.items }
    ensures whole { IfOk result (λ r. IfSome r (Nests most_splits)) }
    ensures open { IfOk result (λ r. IfNone r (IsOpen nest.new.splits.items)) }
{
    let item = words.count()?;
    match rule {
        Rule::Split => {
            let count = cases(words.word()?).ok_or(Fault::Malformed)?;
            words.end()?;
            nest.split(alloc, item, count)
        }
        _ => {
            words.end()?;
            Ok(nest.close(alloc, item)?)
        }
    }
}
