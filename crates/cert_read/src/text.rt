//! The lines of a text.
ghost use Rattle.std.specs.Prelude.{◌≡◌, ◌≢◌, ℕ, ◌<◌, ◌≤◌, List, ◌∷◌, ◌++◌, [], length, slice_index, IfOk, IfSome, IfNone, IsErrOf, OnOk};
ghost use Rattle.cert_read.specs.Lines.{IsOneLine, IsBehind, HasLine};
ghost use Rattle.cert_read.specs.declared.fault.Fault.TheVariants as Fault;

use crate::fault::Fault;

/// What is left of a text, with the number of the line that is read.
#[derive(Clone, Copy, Debug)]
pub(crate) struct Text<'a> {
    pub(crate) left: &'a [u8],
    pub(crate) number: u32,
}

impl<'a> Text<'a> {
    /// A text of which nothing is read yet.
    pub(crate) fn new(bytes: &'a [u8]) -> Text<'a>
        ensures { IsBehind bytes.now result.left.now result.number }
    {
        Text {
            left: bytes,
            number: 0,
        }
    }

    /// The next line without its line feed. Numbers past 2^32 - 1 are that number.
    pub(crate) fn line(&mut self) -> Result<&'a [u8], Fault>
        ensures cut { IfOk result (λ line. self.old.left.now ≡ line.now ++ 10 ∷ self.new.left.now) }
        ensures one { IfOk result (λ line. IsOneLine line.now) }
        ensures last { IsErrOf result Fault.Malformed → IsOneLine self.old.left.now }
        ensures behind { (text : List ℕ) → IsBehind text self.old.left.now self.old.number → OnOk result (IsBehind text self.new.left.now self.new.number) }
        ensures number { (text : List ℕ) → IsBehind text self.old.left.now self.old.number → HasLine text self.new.number }
    {
        self.number = self.number.saturating_add(1);
        match cut_line(self.left) {
            Some((line, left)) => {
                self.left = left;
                Ok(line)
            }
            None => Err(Fault::Malformed),
        }
    }

    /// Nothing is left.
    pub(crate) fn end(&mut self) -> Result<(), Fault>
        ensures none { OnOk result (self.old.left.now ≡ []) }
        ensures number { (text : List ℕ) → IsBehind text self.old.left.now self.old.number → HasLine text self.old.number → HasLine text self.new.number }
    {
        if self.left.is_empty() {
            return Ok(());
        }
        self.number = self.number.saturating_add(1);
        Err(Fault::Malformed)
    }
}

/// The bytes before the first line feed and those behind it.
fn cut_line(bytes: &[u8]) -> Option<(&[u8], &[u8])>
    ensures cut { IfSome result (λ cut. bytes.now ≡ cut.0.now ++ 10 ∷ cut.1.now) }
    ensures one { IfSome result (λ cut. IsOneLine cut.0.now) }
    ensures last { IfNone result (IsOneLine bytes.now) }
{
    let at = len_before(bytes, b'\n');
    if at < bytes.len() {
        Some((&bytes[..at], &bytes[at + 1..]))
    } else {
        None
    }
}

/// How many bytes stand before the first byte that is `stop`, or all where there is none.
pub(crate) fn len_before(bytes: &[u8], stop: u8) -> usize
    ensures within { result ≤ length bytes.now }
    ensures before { (k : ℕ) → k < result → slice_index bytes.now k ≢ stop }
    ensures found { result < length bytes.now → slice_index bytes.now result ≡ stop }
{
    for (at, byte) in bytes.iter().enumerate() {
        if *byte == stop {
            return at;
        }
    }
    bytes.len()
}
