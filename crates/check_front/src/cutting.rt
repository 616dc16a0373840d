//! The certificate among the bytes of its source.
ghost use Rattle.std.specs.Prelude.{◌≡◌, ◌≤◌, length};
ghost use Rattle.check_front.specs.Cut as spec;

/// How the first line of a certificate begins.
const HEAD: &[u8] = b"tacert ";

/// Its last line.
const END_LINE: &[u8] = b"end\n";

/// The bytes of the certificate: from the first line that begins one to the line `end` behind it, or to the end of the bytes; none
/// where no line begins one.
pub(crate) fn cut(source: &[u8]) -> &[u8]
    ensures { spec.IsCut source.now result.now }
{
    let start = first_at(source, HEAD, 0);
    let stop = first_at(source, END_LINE, start);
    let end = stop.saturating_add(END_LINE.len()).min(source.len());
    &source[start..end]
}

/// The first place from another one on at which a line stands that begins with a text, or the end of the bytes.
fn first_at(bytes: &[u8], text: &[u8], from: usize) -> usize
    requires { from ≤ length bytes.now }
    ensures first { spec.IsFirst bytes.now text.now from result }
    ensures behind { from ≤ result }
{
    for at in from..bytes.len() {
        if stands_at(bytes, text, at) {
            return at;
        }
    }
    bytes.len()
}

/// Whether a line that begins with a text stands at a place.
#[tactic(auto, unfolding(crate::specs::Cut::stands_at))]
fn stands_at(bytes: &[u8], text: &[u8], at: usize) -> bool
    requires { at ≤ length bytes.now }
    ensures { result ≡ spec.stands_at bytes.now text.now at }
{
    if at > 0 && bytes[at - 1] != b'\n' {
        return false;
    }
    let rest = &bytes[at..];
    if rest.len() < text.len() {
        return false;
    }
    &rest[..text.len()] == text
}
