//! Terms with their names replaced and their constants folded, by a walk that asks each distinct subterm once.
ghost use Rattle.std.specs.Prelude.{◌≡◌, ◌∷◌, All, IfOk, MatchOption, false, length, Option, None, Some, option_map};
ghost use Rattle.std.specs.List.{AllZip};
ghost use Rattle.qterm.specs.Tree.{Num};
ghost use Rattle.qterm.specs.declared.name.Sort.TheVariants.{Int};
ghost use Rattle.qterm.specs.Store.{Has, HasSort, Shows, Extends, tree_at, trees_of};
ghost use Rattle.qterm.specs.Kids.{kids, listed, rebuild, row};
ghost use Rattle.qsubst.specs.Vars.{is_var};
ghost use Rattle.qsubst.specs.Substitution.{images_at, AreImages};
ghost use Rattle.smt_theory.specs.declared.operator.Operator.TheVariants.{Times};
ghost use Rattle.smt_theory.specs.Plain.{IsPlain, plain_of};
ghost use Rattle.smt_expand.specs.Expanded.{expanded, over};
ghost use Rattle.smt_expand.specs.Walk.{IsRight, KeepSorts, all_there as all_there_in};

use qsubst::Images;
use qterm::{Store, Term, TermId};
use qwalk::{Fold, fold_terms};
use smt_theory::{Operator, plain};
use std::alloc::{AllocError, Global};

/// The term with its names replaced and its constants folded, or nothing where a number passes 128 bits.
///
/// Each distinct subterm of the term is asked once; the terms that are put for names aren't looked into.
pub(crate) fn put_images(
    alloc: Global,
    store: &mut Store,
    images: &Images,
    body: TermId,
) -> Result<Option<TermId>, AllocError>
    requires has { Has store.old body }
    requires images { AreImages store.old images.now }
    ensures expanded { IfOk result (IsPlain store.new (expanded (images_at store.old images.now) (tree_at store.old body))) }
    ensures extends { Extends store.old store.new }
{
    let mut expanding = Expanding { alloc, images };
    let found = fold_terms(alloc, store, &mut expanding, body)?;
    Ok(found)
}

/// An expansion on its way through a term.
#[derive(Drop)]
struct Expanding<'a> {
    alloc: Global,
    images: &'a Images,
}

impl Fold<Option<TermId>> for Expanding<'_> {
    type Task = Images;

    ghost task = { λ e. e.images.now };

    ghost ready = { λ e ts. AreImages ts e.images.now };

    ghost right = { λ e ts t o. IsRight ts (images_at ts e.images.now) t o };

    fn node(
        &mut self,
        store: &mut Store,
        id: TermId,
        outs: &[Option<TermId>],
    ) -> Result<Option<TermId>, AllocError> {
        match image(store, self.images, id) {
            Some(found) => Ok(Some(found)),
            None => over_children(self.alloc, store, self.images, id, outs),
        }
    }
}

/// The term put for a term that is a name.
fn image(store: &Store, images: &Images, id: TermId) -> Option<TermId>
    requires has { Has store.now id }
    requires images { AreImages store.now images.now }
    ensures { MatchOption result (is_var (tree_at store.now id) ≡ false) (λ r. IsRight store.now (images_at store.now images.now) (tree_at store.now id) (Some r)) }
{
    store.is_lawful();
    match store.view(id) {
        Term::Var(name) => match images.get(name) {
            Some(found) => Some(found),
            None => Some(id),
        },
        _ => None,
    }
}

/// A term that is no name, over its expanded children.
fn over_children(
    alloc: Global,
    store: &mut Store,
    images: &Images,
    id: TermId,
    outs: &[Option<TermId>],
) -> Result<Option<TermId>, AllocError>
    requires has { Has store.old id }
    requires images { AreImages store.old images.now }
    requires plain { is_var (tree_at store.old id) ≡ false }
    requires children { AllZip (IsRight store.old (images_at store.old images.now)) (listed (kids (tree_at store.old id))) outs.now }
    ensures right { IfOk result (IsRight store.new (images_at store.old images.now) (tree_at store.old id)) }
    ensures extends { Extends store.old store.new }
{
    match all_there(alloc, outs)? {
        None => Ok(None),
        Some(children) => joined(alloc, store, id, children.as_slice()),
    }
}

/// All of the ids, where each is there.
fn all_there(alloc: Global, found: &[Option<TermId>]) -> Result<Option<Vec<TermId>>, AllocError>
    ensures { IfOk result (λ r. option_map (λ v. v.items) r ≡ all_there_in found.now) }
{
    let mut all = Vec::with_capacity(alloc, found.len())?;
    for one in found {
        match one {
            Some(id) => all.push(*id)?,
            None => return Ok(None),
        }
    }
    Ok(Some(all))
}

/// The head of a term over other children of the same sorts.
fn joined(
    alloc: Global,
    store: &mut Store,
    id: TermId,
    children: &[TermId],
) -> Result<Option<TermId>, AllocError>
    requires has { Has store.old id }
    requires plain { is_var (tree_at store.old id) ≡ false }
    requires sorts { KeepSorts store.old (listed (kids (tree_at store.old id))) children.now }
    ensures over { IfOk result (IsPlain store.new (over (tree_at store.old id) (trees_of store.old children.now))) }
    ensures extends { Extends store.old store.new }
{
    match store.view(id) {
        Term::Sum(_) => plain(alloc, store, Operator::Plus, children),
        Term::Scale(by, _) => {
            let by = *by;
            scaled(alloc, store, by, children)
        }
        _ => {
            let found = rebuilt(alloc, store, id, children)?;
            Ok(Some(found))
        }
    }
}

/// A number times the one child, which is a number where the child is.
fn scaled(
    alloc: Global,
    store: &mut Store,
    by: i128,
    children: &[TermId],
) -> Result<Option<TermId>, AllocError>
    requires ints { All (HasSort Int store.old) children.now }
    ensures plain { IfOk result (IsPlain store.new (plain_of Times (Num by ∷ trees_of store.old children.now))) }
    ensures extends { Extends store.old store.new }
{
    let factor = store.intern(Term::Num(by))?;
    let mut factors = Vec::with_capacity(alloc, children.len() + 1)?;
    factors.push(factor)?;
    factors.extend_from_slice(children)?;
    let found = plain(alloc, store, Operator::Times, factors.as_slice())?;
    Ok(found)
}

/// A term that is neither sum nor product over other children of the same sorts.
fn rebuilt(
    alloc: Global,
    store: &mut Store,
    id: TermId,
    children: &[TermId],
) -> Result<TermId, AllocError>
    requires has { Has store.old id }
    requires sorts { KeepSorts store.old (listed (kids (tree_at store.old id))) children.now }
    ensures shows { IfOk result (λ r. Shows store.new r (rebuild (tree_at store.old id) (row (trees_of store.old children.now)))) }
    ensures extends { Extends store.old store.new }
{
    let term = store.view(id).with_children(alloc, children)?;
    let found = store.intern(term)?;
    Ok(found)
}
