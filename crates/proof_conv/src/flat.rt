//! The certificate of a goal that has the formula `false`.
ghost use Rattle.std.specs.Prelude.{◌≡◌, List, length, Some};
ghost use Rattle.qterm.specs.Tree.{Tree, False};
ghost use Rattle.tac_cert.specs.Items.{Formula, item};
ghost use Rattle.tac_cert.specs.Accepts.{Accepts, CertFits, as_items};
ghost use Rattle.proof_conv.specs.Accepted.{nesting};

use sqlite_items::Items;
use std::alloc::Global;
use tac_cert::{Cert, Close, Proof};

/// The certificate that closes by formula `place`, counted from 1, of a goal with `count` formulas: it is accepted where that formula is
/// `false`. It has no split and takes no memory.
pub fn by_false(alloc: Global, place: u32, count: u32) -> Cert
    ensures accepted { (ts : List Tree) (goal : List Tree) → count ≡ length goal → item (as_items goal) place ≡ Some (Formula False) → Accepts ts result goal }
    ensures fits { (ts : List Tree) → CertFits ts result }
    ensures flat { nesting result.root ≡ 0 }
{
    let steps = Items::new(alloc);
    let root = Proof {
        steps,
        close: Close::False(place),
    };
    let cert = Cert::new(0, count, root);
    cert
}
