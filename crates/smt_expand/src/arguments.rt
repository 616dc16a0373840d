//! Arguments put for parameters.
ghost use Rattle.std.specs.Prelude.{◌≡◌, List, All, IfOk};
ghost use Rattle.std.specs.Map.{lookup};
ghost use Rattle.qterm.specs.declared.name.Name.{Name};
ghost use Rattle.qterm.specs.Tree.{Tree};
ghost use Rattle.qterm.specs.Store.{Has, trees_of};
ghost use Rattle.qeval.specs.Value.{same_name};
ghost use Rattle.qsubst.specs.Substitution.{AreImages};
ghost use Rattle.smt_expand.specs.Expanded.{HaveTheirSorts};
ghost use Rattle.smt_expand.specs.Walk.{pairs};

use qsubst::Images;
use qterm::{Name, TermId};
use std::alloc::{AllocError, Global};

/// The arguments put for the parameters, as far as there are both; of two parameters with one name the first counts.
pub(crate) fn images_of(
    alloc: Global,
    params: &[Name],
    args: &[TermId],
) -> Result<Images, AllocError>
    ensures looks { IfOk result (λ images. (n : Name) → lookup (same_name n) images ≡ lookup (same_name n) (pairs params.now args.now)) }
    ensures sorts { (ts : List Tree) → All (Has ts) args.now → HaveTheirSorts params.now (trees_of ts args.now) → IfOk result (AreImages ts) }
{
    let mut images = Images::new(alloc);
    let mut at = 0;
    while at < params.len() && at < args.len() {
        images.put(params[at].clone()?, args[at])?;
        at += 1;
    }
    Ok(images)
}
