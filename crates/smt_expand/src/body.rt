//! Bodies over arguments.
ghost use Rattle.std.specs.Prelude.{All, IfOk};
ghost use Rattle.qterm.specs.Store.{Has, Extends, tree_at, trees_of};
ghost use Rattle.smt_theory.specs.Plain.{IsPlain};
ghost use Rattle.smt_expand.specs.Expanded.{expanded, put, HaveTheirSorts};

use crate::arguments::images_of;
use crate::expanding::put_images;
use qterm::{Name, Store, TermId};
use std::alloc::{AllocError, Global};

/// The body with the arguments put for the parameters and its constants folded, or nothing where a number passes 128 bits.
///
/// Each distinct subterm of the body is asked once; the arguments aren't looked into. Of parameters and arguments what is more than
/// the other is left.
pub fn expand(
    alloc: Global,
    store: &mut Store,
    params: &[Name],
    args: &[TermId],
    body: TermId,
) -> Result<Option<TermId>, AllocError>
    requires has { Has store.old body }
    requires args { All (Has store.old) args.now }
    requires sorts { HaveTheirSorts params.now (trees_of store.old args.now) }
    ensures expanded { IfOk result (IsPlain store.new (expanded (put params.now (trees_of store.old args.now)) (tree_at store.old body))) }
    ensures extends { Extends store.old store.new }
{
    let images = images_of(alloc, params, args)?;
    let found = put_images(alloc, store, &images, body)?;
    Ok(found)
}
