//! Numbers of 128 bits: facts that hold of each number of the code.
ghost use Rattle.std.specs.Prelude.{◌≡◌, ◌&&◌, true};
ghost use Rattle.qlin.specs.Number.{fits};
ghost use Rattle.qlin.specs.Lin.{parts_fit};

use qlin::Lin;
use qterm::TermId;

/// A number of the code has 128 bits.
pub fn narrow(number: i128)
    ensures { fits number ≡ true }
{
    let _number = number;
}

/// The numbers of parts have 128 bits.
fn narrow_parts(parts: &[(i128, TermId)])
    ensures { parts_fit parts.now ≡ true }
{
    for part in parts {
        narrow(part.0);
    }
}

/// The numbers of a form have 128 bits.
pub fn narrow_form(form: &Lin)
    ensures { (parts_fit form.now.parts && fits form.now.constant) ≡ true }
{
    narrow_parts(form.parts());
    narrow(form.constant());
}
