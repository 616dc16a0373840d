//! The canonical form of a term, by a walk that asks each distinct subterm once, its children before it.
ghost use Rattle.std.specs.Prelude.{◌≡◌, map, All, IfOk, IfErr, None, Some};
ghost use Rattle.std.specs.List.{AllZip};
ghost use Rattle.qterm.specs.Tree.{sort_of};
ghost use Rattle.qterm.specs.Store.{Has, HasSort, Fits, Extends, tree_at, trees_at, grow};
ghost use Rattle.qterm.specs.declared.name.Sort.TheVariants.{Bool};
ghost use Rattle.qterm.specs.Kids.{kids, listed, ids};
ghost use Rattle.qlin.specs.Canon.{canon, at};
ghost use Rattle.qlin.specs.Junction.{junction};
ghost use Rattle.qnegation.specs.Answer.{IsOwn, Answers};
ghost use Rattle.qcanon.specs.Walk.{over, IsFound, id_of, first_fault, answer_of, NamesFault};
ghost use Rattle.qcanon.specs.Chain.{IsAnswer, AreForms};
ghost use Rattle.qnegation.specs.Negation.{AreNegations};

use crate::atom::{at_most, equal, number, scale};
use crate::chain::{Answer, Outcome, connective, join};
use crate::error::CanonError;
use crate::forms::Forms;
use crate::sum::sum;
use qnegation::{Negations, canonical_iff, canonical_ite, canonical_junction, negate};
use qterm::{Store, Term, TermId};
use qwalk::{Fold, fold_terms};
use std::alloc::{AllocError, Global};

/// The canonical term.
///
/// All children are taken, also those of a branch that is folded away. Where a number leaves the range of the canonical form,
/// `TooWide` has the first such subterm in postorder. Each distinct subterm is asked once, and the levels of a chain of And or
/// Or are joined together.
pub fn canon(alloc: Global, store: &mut Store, id: TermId) -> Result<TermId, CanonError>
    requires has { Has store.old id }
    ensures canonical { IfOk result (λ c. Has store.new c × (canon (tree_at store.old id) ≡ Ok (tree_at store.new c))) }
    ensures sort { IfOk result (λ c. sort_of (tree_at store.new c) ≡ sort_of (tree_at store.old id)) }
    ensures too_wide { IfErr result (NamesFault store.new (canon (tree_at store.old id))) }
    ensures extends { Extends store.old store.new }
{
    let mut forms = Forms::new(alloc);
    canon_with(alloc, store, &mut forms, id)
}

/// The canonical term, with a table that the caller keeps over calls: no subterm that it knows is walked again.
pub fn canon_with(
    alloc: Global,
    store: &mut Store,
    forms: &mut Forms,
    id: TermId,
) -> Result<TermId, CanonError>
    requires has { Has store.old id }
    requires forms { AreForms store.old forms.old }
    ensures canonical { IfOk result (λ c. Has store.new c × (canon (tree_at store.old id) ≡ Ok (tree_at store.new c))) }
    ensures sort { IfOk result (λ c. sort_of (tree_at store.new c) ≡ sort_of (tree_at store.old id)) }
    ensures too_wide { IfErr result (NamesFault store.new (canon (tree_at store.old id))) }
    ensures forms { AreForms store.new forms.new }
    ensures extends { Extends store.old store.new }
{
    store.is_lawful();
    let answer = fold_terms(alloc, store, forms, id)?;
    let found = forms.settle(store, &answer)?;
    told(&found)
}

/// A canonical term, or the subterm without one as an error.
fn told(found: &Outcome) -> Result<TermId, CanonError>
    ensures { result ≡ answer_of found.now }
{
    match found {
        Outcome::Canonical(id) => Ok(*id),
        Outcome::Faulty(term) => Err(CanonError::TooWide { term: *term }),
    }
}

impl Fold<Answer> for Forms {
    type Task = ();

    ghost task = { λ f. tt };

    ghost ready = { λ f ts. AreForms ts f };

    ghost right = { λ f ts t a. IsAnswer ts t a };

    fn known(&self, _store: &Store, id: TermId) -> Option<Answer> {
        self.look(id)
    }

    fn node(
        &mut self,
        store: &mut Store,
        id: TermId,
        answers: &[Answer],
    ) -> Result<Answer, AllocError> {
        let found = answer(store, self, id, answers)?;
        self.note(id, &found)?;
        Ok(found)
    }
}

/// What a term answers, from what its children answer.
fn answer(
    store: &mut Store,
    forms: &mut Forms,
    id: TermId,
    answers: &[Answer],
) -> Result<Answer, AllocError>
    requires has { Has store.old id }
    requires forms { AreForms store.old forms.old }
    requires children { AllZip (IsAnswer store.old) (listed (kids (tree_at store.old id))) answers.now }
    ensures right { IfOk result (IsAnswer store.new (tree_at store.old id)) }
    ensures forms { AreForms store.new forms.new }
    ensures extends { Extends store.old store.new }
{
    store.is_lawful();
    match connective(store, id) {
        Some(is_and) => {
            let found = join(forms.alloc, store, &mut forms.settled, is_and, id, answers)?;
            Ok(found)
        }
        None => {
            let outs = forms.settle_all(store, answers)?;
            let found = find(
                forms.alloc,
                store,
                &mut forms.negations,
                id,
                outs.as_slice(),
            )?;
            Ok(Answer::Found(found))
        }
    }
}

/// What is found for a term, from what is found for its children.
fn find(
    alloc: Global,
    store: &mut Store,
    table: &mut Negations,
    id: TermId,
    outs: &[Outcome],
) -> Result<Outcome, AllocError>
    requires has { Has store.old id }
    requires children { AllZip (IsFound store.old) (listed (kids (tree_at store.old id))) outs.now }
    requires table { AreNegations store.old table.old }
    ensures found { IfOk result (IsFound store.new (tree_at store.old id)) }
    ensures table { AreNegations store.new table.new }
    ensures extends { Extends store.old store.new }
{
    if let Some(fault) = first_fault(outs) {
        return Ok(Outcome::Faulty(fault));
    }
    let term = term_over(alloc, store, id, outs)?;
    match canon_over(alloc, store, table, term)? {
        Some(canonical) => Ok(Outcome::Canonical(canonical)),
        None => Ok(Outcome::Faulty(id)),
    }
}

/// The first subterm without a canonical form, of those that children name.
pub(crate) fn first_fault(outs: &[Outcome]) -> Option<TermId>
    ensures { result ≡ first_fault outs.now }
{
    for out in outs {
        if let Outcome::Faulty(id) = out {
            return Some(*id);
        }
    }
    None
}

/// The ids of answers, in order.
pub(crate) fn ids_of(alloc: Global, outs: &[Outcome]) -> Result<Vec<TermId>, AllocError>
    ensures { IfOk result (λ v. v.items ≡ map id_of outs.now) }
{
    outs.iter().map(|out| id_of(out)).collect(alloc)
}

/// The id of an answer.
fn id_of(out: &Outcome) -> TermId
    ensures { result ≡ id_of out.now }
{
    match out {
        Outcome::Canonical(id) => *id,
        Outcome::Faulty(id) => *id,
    }
}

/// The term with the canonical children that were answered in the place of its own.
fn term_over(alloc: Global, store: &Store, id: TermId, outs: &[Outcome]) -> Result<Term, AllocError>
    requires has { Has store.now id }
    requires children { AllZip (IsFound store.now) (listed (kids (tree_at store.now id))) outs.now }
    requires all { first_fault outs.now ≡ None }
    ensures fits { IfOk result (Fits store.now) }
    ensures own { IfOk result (λ term. All (IsOwn store.now) (ids term)) }
    ensures same { IfOk result (λ term. canon (tree_at store.now id) ≡ at (tree_at store.now id) (over (grow store.now term))) }
{
    store.is_lawful();
    let ids = ids_of(alloc, outs)?;
    let term = store.view(id).with_children(alloc, ids.as_slice())?;
    Ok(term)
}

/// The canonical form of a term whose children are canonical, or nothing where there is none.
#[tactic(auto, using(qnegation::proofs::Negated::AreNegations_extends))]
fn canon_over(
    alloc: Global,
    store: &mut Store,
    table: &mut Negations,
    term: Term,
) -> Result<Option<TermId>, AllocError>
    requires fits { Fits store.old term }
    requires own { All (IsOwn store.old) (ids term) }
    requires table { AreNegations store.old table.old }
    ensures answers { IfOk result (Answers store.new (over (grow store.old term))) }
    ensures table { AreNegations store.new table.new }
    ensures extends { Extends store.old store.new }
{
    match term {
        Term::True => kept(store, Term::True),
        Term::False => kept(store, Term::False),
        Term::Var(name) => kept(store, Term::Var(name)),
        Term::Num(value) => number(store, value),
        Term::Sum(ids) => sum(alloc, store, ids.as_slice()),
        Term::Scale(by, a) => scale(alloc, store, by, a),
        Term::Le(a, b) => at_most(alloc, store, a, b),
        Term::Eq(a, b) => equal(alloc, store, a, b),
        Term::Iff(a, b) => canonical_iff(alloc, store, table, a, b),
        Term::Not(a) => negate(alloc, store, table, a),
        Term::And(ids) => joined(alloc, store, true, ids.as_slice()),
        Term::Or(ids) => joined(alloc, store, false, ids.as_slice()),
        Term::Ite(condition, a, b) => canonical_ite(alloc, store, table, condition, a, b),
    }
}

/// A term that is canonical as it stands.
fn kept(store: &mut Store, term: Term) -> Result<Option<TermId>, AllocError>
    requires fits { Fits store.old term }
    ensures answers { IfOk result (Answers store.new (Some (grow store.old term))) }
    ensures extends { Extends store.old store.new }
{
    let id = store.intern(term)?;
    Ok(Some(id))
}

/// The canonical `And` or `Or`, which there always is.
fn joined(
    alloc: Global,
    store: &mut Store,
    is_and: bool,
    ids: &[TermId],
) -> Result<Option<TermId>, AllocError>
    requires formulas { All (HasSort Bool store.old) ids.now }
    ensures answers { IfOk result (Answers store.new (Some (junction is_and (trees_at store.old ids.now)))) }
    ensures extends { Extends store.old store.new }
{
    let id = canonical_junction(alloc, store, is_and, ids)?;
    Ok(Some(id))
}
