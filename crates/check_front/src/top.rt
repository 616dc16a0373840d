//! All that the checker's program does, from its words, a script and a certificate to the line that it writes.
ghost use Rattle.std.specs.Prelude.{◌≡◌, ◌⊎◌, ◌∷◌, [], true, false, ℕ, List, map, string_bytes, IfOk, IfSome, IfNone, OnOk, IsErrOf};
ghost use Rattle.sexp_read.specs.Outside.{Rose};
ghost use Rattle.check_front.specs.Texts.{Holds};
ghost use Rattle.check_front.specs.Judged.{IsFound};
ghost use Rattle.check_front.specs.Check as spec;

use crate::finding::{Finding, MOST_CERT, MOST_SCRIPT};
use crate::judging::find;
use crate::lines::write_finding;
use crate::reading::{Text, Unread, read_text};
use sexp_read::{Sink, Source, write_whole};
use std::alloc::Global;

/// The line for wrong words.
pub const USAGE: &[u8] = b"usage: taccheck SCRIPT\n";

/// How a run ends.
#[derive(Clone, Copy, Debug, PartialEq, Eq)]
pub enum Ended {
    /// The texts were read, and the line that tells this was written.
    Told(Finding),
    /// The words aren't those of the program.
    Usage,
    /// There is no memory.
    Memory,
    /// A source failed.
    ReadFault,
    /// The sink failed.
    WriteFault,
}

/// All that the program does: with one word that names a file, the script and the certificate are read whole, and the line that tells
/// what they come to is written; with other words the usage line is written, and nothing is read.
///
/// The status is 0 where the certificate is accepted, 1 where the script has a fault before the check that it names or the rules refuse
/// it, 2 for wrong words, 3 for want of memory, 4 where a source failed, 5 where the sink failed, and 6 where the bytes are no
/// certificate's text or too many.
pub fn check_run<S: Source, T: Source, K: Sink>(
    alloc: Global,
    words: &[String],
    script: &mut S,
    cert: &mut T,
    out: &mut K,
) -> u8
    // With a lawful word both sources are read, and what their bytes come to is told.
    ensures run { spec.is_lawful (map (λ word. string_bytes word) words.now) ≡ true → (ended : Ended) × (result ≡ spec.code ended)
        × spec.RanFrom (S.left script.old) (T.left cert.old) (K.written out.old) (K.written out.new) (K.flushed out.new) ended
        × spec.TakesTexts (S.left script.old) (S.left script.new) (T.left cert.old) (T.left cert.new) ended }

    // With other words nothing is read, and the usage line is written.
    ensures usage { spec.is_lawful (map (λ word. string_bytes word) words.now) ≡ false → (ended : Ended) × (result ≡ spec.code ended)
        × spec.Misused (K.written out.old) (K.written out.new) (K.flushed out.new) ended × (S.left script.new ≡ S.left script.old) × (T.left cert.new ≡ T.left cert.old) }

    // A failed read is told only where a source's count of faults rose.
    ensures read_fault { result ≡ 4 → Rose (S.faults script.old) (S.faults script.new) ⊎ Rose (T.faults cert.old) (T.faults cert.new) }

    // A failed write is told only where the sink's count of faults rose.
    ensures write_fault { result ≡ 5 → Rose (K.faults out.old) (K.faults out.new) }
{
    code(end_of_run(alloc, words, script, cert, out))
}

// Does all of it, and answers how it ends.
fn end_of_run<S: Source, T: Source, K: Sink>(
    alloc: Global,
    words: &[String],
    script: &mut S,
    cert: &mut T,
    out: &mut K,
) -> Ended
    ensures run { spec.is_lawful (map (λ word. string_bytes word) words.now) ≡ true → spec.RanFrom (S.left script.old) (T.left cert.old) (K.written out.old) (K.written out.new) (K.flushed out.new) result × spec.TakesTexts (S.left script.old) (S.left script.new) (T.left cert.old) (T.left cert.new) result }
    ensures usage { spec.is_lawful (map (λ word. string_bytes word) words.now) ≡ false → spec.Misused (K.written out.old) (K.written out.new) (K.flushed out.new) result × (S.left script.new ≡ S.left script.old) × (T.left cert.new ≡ T.left cert.old) }
    ensures read { result ≡ Ended.ReadFault → Rose (S.faults script.old) (S.faults script.new) ⊎ Rose (T.faults cert.old) (T.faults cert.new) }
    ensures cause { spec.HasCauseOf (K.faults out.old) (K.faults out.new) result }
{
    if is_lawful(words) {
        check_sources(alloc, script, cert, out)
    } else {
        misused(out)
    }
}

/// The name of the script's file, where the words are lawful.
pub fn script_path(words: &[String]) -> Option<&String>
    ensures lawful { IfSome result (λ _. spec.is_lawful (map (λ word. string_bytes word) words.now) ≡ true) }
    ensures word { IfSome result (λ word. words.now ≡ word.now ∷ []) }
    ensures unlawful { IfNone result (spec.is_lawful (map (λ word. string_bytes word) words.now) ≡ false) }
{
    if is_lawful(words) {
        words.first()
    } else {
        None
    }
}

// Whether the words are one that names a file.
fn is_lawful(words: &[String]) -> bool
    ensures { result ≡ spec.is_lawful (map (λ word. string_bytes word) words.now) }
{
    match words {
        [word] => is_path(word.as_bytes()),
        _ => false,
    }
}

// Whether a word may name a file: it isn't empty and doesn't begin with a minus.
fn is_path(word: &[u8]) -> bool
    ensures { result ≡ spec.is_path word.now }
{
    match word {
        [] => false,
        [first, ..] => *first != b'-',
    }
}

// The status of a program that ends so.
fn code(ended: Ended) -> u8
    ensures { result ≡ spec.code ended }
{
    match ended {
        Ended::Told(finding) => status_of(finding),
        Ended::Usage => 2,
        Ended::Memory => 3,
        Ended::ReadFault => 4,
        Ended::WriteFault => 5,
    }
}

// The status of a finding.
fn status_of(finding: Finding) -> u8
    ensures { result ≡ spec.status_of finding }
{
    match finding {
        Finding::Accepted => 0,
        Finding::Refused { .. } | Finding::Wrong(_) => 1,
        Finding::Malformed(_) | Finding::TooLong => 6,
    }
}

// Writes the usage line.
fn misused<K: Sink>(out: &mut K) -> Ended
    ensures ran { spec.Misused (K.written out.old) (K.written out.new) (K.flushed out.new) result }
    ensures cause { spec.HasCauseOf (K.faults out.old) (K.faults out.new) result }
{
    match write_whole(out, USAGE) {
        Ok(()) => Ended::Usage,
        Err(_) => Ended::WriteFault,
    }
}

// Reads both sources, and tells what they come to.
fn check_sources<S: Source, T: Source, K: Sink>(
    alloc: Global,
    script: &mut S,
    cert: &mut T,
    out: &mut K,
) -> Ended
    ensures ran { spec.RanFrom (S.left script.old) (T.left cert.old) (K.written out.old) (K.written out.new) (K.flushed out.new) result }
    ensures left { spec.TakesTexts (S.left script.old) (S.left script.new) (T.left cert.old) (T.left cert.new) result }
    ensures read { result ≡ Ended.ReadFault → Rose (S.faults script.old) (S.faults script.new) ⊎ Rose (T.faults cert.old) (T.faults cert.new) }
    ensures cause { spec.HasCauseOf (K.faults out.old) (K.faults out.new) result }
{
    match read_both(alloc, script, cert) {
        Err(Unread::Memory) => Ended::Memory,
        Err(Unread::Fault) => Ended::ReadFault,
        Ok((script, cert)) => check_texts(alloc, &script, &cert, out),
    }
}

// The texts of both sources.
fn read_both<S: Source, T: Source>(
    alloc: Global,
    script: &mut S,
    cert: &mut T,
) -> Result<(Text, Text), Unread>
    ensures script { IfOk result (λ texts. (bytes : List ℕ) × spec.AreLeft (S.left script.old) bytes × Holds MOST_SCRIPT texts.0 bytes) }
    ensures cert { IfOk result (λ texts. (bytes : List ℕ) × spec.AreLeft (T.left cert.old) bytes × Holds MOST_CERT texts.1 bytes) }
    ensures whole { OnOk result (spec.ReadBoth (S.left script.old) (S.left script.new) (T.left cert.old) (T.left cert.new)) }
    ensures front { spec.TakesBoth (S.left script.old) (S.left script.new) (T.left cert.old) (T.left cert.new) }
    ensures fault { IsErrOf result Unread.Fault → Rose (S.faults script.old) (S.faults script.new) ⊎ Rose (T.faults cert.old) (T.faults cert.new) }
{
    let script = read_text(alloc, script, MOST_SCRIPT)?;
    let cert = read_text(alloc, cert, MOST_CERT)?;
    Ok((script, cert))
}

// Tells what two texts come to.
fn check_texts<K: Sink>(alloc: Global, script: &Text, cert: &Text, out: &mut K) -> Ended
    ensures ran { (bytes source : List ℕ) → Holds MOST_SCRIPT script.now bytes → Holds MOST_CERT cert.now source → spec.Ran bytes source (K.written out.old) (K.written out.new) (K.flushed out.new) result }
    ensures read { result ≡ Ended.ReadFault → ⊥ }
    ensures usage { result ≡ Ended.Usage → ⊥ }
    ensures cause { spec.HasCauseOf (K.faults out.old) (K.faults out.new) result }
{
    match find(alloc, script, cert) {
        Err(_) => Ended::Memory,
        Ok(finding) => tell(alloc, script, finding, out),
    }
}

// Writes the line of a finding.
fn tell<K: Sink>(alloc: Global, script: &Text, finding: Finding, out: &mut K) -> Ended
    ensures ran { (bytes source : List ℕ) → Holds MOST_SCRIPT script.now bytes → IsFound bytes source finding → spec.Ran bytes source (K.written out.old) (K.written out.new) (K.flushed out.new) result }
    ensures read { result ≡ Ended.ReadFault → ⊥ }
    ensures usage { result ≡ Ended.Usage → ⊥ }
    ensures cause { spec.HasCauseOf (K.faults out.old) (K.faults out.new) result }
{
    let Ok(line) = write_finding(alloc, script.bytes(), finding) else {
        return Ended::Memory;
    };
    match write_whole(out, &line) {
        Ok(()) => Ended::Told(finding),
        Err(_) => Ended::WriteFault,
    }
}
