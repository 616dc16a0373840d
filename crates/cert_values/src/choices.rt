//! The rule `ite`: the two cases of a name that is equal to an `Ite`.
ghost use Rattle.std.specs.Prelude.{◌≡◌, ◌∷◌, [], Some, IfOk, All};
ghost use Rattle.qterm.specs.Tree.{Tree, Eq, Or, none, more};
ghost use Rattle.qterm.specs.Store.{Extends, HasSort, Shows, tree_at};
ghost use Rattle.qterm.specs.declared.name.Sort.TheVariants.{Bool, Int};
ghost use Rattle.tac_cert.specs.Choices as choices;
ghost use Rattle.cert_items.specs.Held.{AllIn, IfIn, shown_all, shown_some};
ghost use Rattle.cert_items.specs.State.{IsState, items_of};
ghost use Rattle.cert_values.specs.Choices.{IsChoice, IsChoiceOf};

use cert_items::{Held, State, formula_at};
use qterm::{Store, Term, TermId, TermIds};
use sqlite_items::Items;
use std::alloc::{AllocError, Global};

/// The new items of `ite`: of a name that is equal to an `Ite`, what it is in each of the two cases.
#[tactic(auto, using(cert_items::proofs::Finding::formula_here, cert_items::proofs::Finding::formula_is, cert_items::proofs::Finding::formula_gone, qterm::proofs::Extending::Extends_refl))]
pub fn ite_parts(
    alloc: Global,
    store: &mut Store,
    state: &State,
    item: u32,
) -> Result<Option<Items<Held>>, AllocError>
    requires state { IsState store.old state.now }
    ensures gives { IfOk result (λ o. shown_some store.new o ≡ choices.ite_parts (items_of store.old state.now) item) }
    ensures items { IfOk result (IfIn store.new) }
    ensures extends { Extends store.old store.new }
{
    match formula_at(state.items(), item) {
        None => Ok(None),
        Some(id) => {
            let given = cases(alloc, store, id)?;
            Ok(given)
        }
    }
}

/// The parts of an equation of a name and an `Ite`.
#[derive(Clone, Copy)]
struct Choice {
    name: TermId,
    condition: TermId,
    yes: TermId,
    no: TermId,
}

/// The same of a formula.
#[tactic(auto, using(crate::proofs::Choosing::cases_given))]
fn cases(alloc: Global, store: &mut Store, id: TermId) -> Result<Option<Items<Held>>, AllocError>
    requires formula { HasSort Bool store.old id }
    ensures gives { IfOk result (λ o. shown_some store.new o ≡ choices.cases_of (Some (tree_at store.old id))) }
    ensures items { IfOk result (IfIn store.new) }
    ensures extends { Extends store.old store.new }
{
    match choice_of(store, id) {
        None => Ok(None),
        Some(choice) => {
            let items = both_cases(alloc, store, choice)?;
            Ok(Some(items))
        }
    }
}

/// The parts of a formula that is such an equation.
fn choice_of(store: &Store, id: TermId) -> Option<Choice>
    requires formula { HasSort Bool store.now id }
    ensures { IsChoiceOf store.now (tree_at store.now id) result }
{
    match store.view(id) {
        Term::Eq(left, right) => {
            let name = *left;
            if !matches!(store.view(name), Term::Var(_)) {
                return None;
            }
            match store.view(*right) {
                Term::Ite(condition, yes, no) => Some(Choice {
                    name,
                    condition: *condition,
                    yes: *yes,
                    no: *no,
                }),
                _ => None,
            }
        }
        _ => None,
    }
}

/// What the name is in each of the two cases.
#[tactic(auto, using(crate::proofs::Choosing::both_shown, crate::proofs::Choosing::both_in, qterm::proofs::Fitting::HasSort_extends, qterm::proofs::Extending::Extends_trans))]
fn both_cases(alloc: Global, store: &mut Store, choice: Choice) -> Result<Items<Held>, AllocError>
    requires name { HasSort Int store.old choice.name }
    requires condition { HasSort Bool store.old choice.condition }
    requires yes { HasSort Int store.old choice.yes }
    requires no { HasSort Int store.old choice.no }
    ensures shown { IfOk result (λ hs. shown_all store.new hs ≡ choices.two_cases (tree_at store.old choice.name) (tree_at store.old choice.condition) (tree_at store.old choice.yes) (tree_at store.old choice.no)) }
    ensures items { IfOk result (AllIn store.new) }
    ensures extends { Extends store.old store.new }
{
    let otherwise = store.intern(Term::Not(choice.condition))?;
    let first = case(alloc, store, otherwise, choice.name, choice.yes)?;
    let second = case(alloc, store, choice.condition, choice.name, choice.no)?;
    let mut items = Items::new(alloc);
    items.push(Held::Formula(first))?;
    items.push(Held::Formula(second))?;
    Ok(items)
}

/// Either the guard, or the name is the value.
fn case(
    alloc: Global,
    store: &mut Store,
    guard: TermId,
    name: TermId,
    value: TermId,
) -> Result<TermId, AllocError>
    requires guard { HasSort Bool store.old guard }
    requires name { HasSort Int store.old name }
    requires value { HasSort Int store.old value }
    ensures shows { IfOk result (λ r. Shows store.new r (Or (more (tree_at store.old guard) (more (Eq (tree_at store.old name) (tree_at store.old value)) none)))) }
    ensures sort { IfOk result (HasSort Bool store.new) }
    ensures extends { Extends store.old store.new }
{
    let equation = store.intern(Term::Eq(name, value))?;
    let id = either(alloc, store, guard, equation)?;
    Ok(id)
}

/// The disjunction of two formulas.
#[tactic(auto, using(crate::proofs::Choosing::two_bools))]
fn either(alloc: Global, store: &mut Store, a: TermId, b: TermId) -> Result<TermId, AllocError>
    requires a { HasSort Bool store.old a }
    requires b { HasSort Bool store.old b }
    ensures shows { IfOk result (λ r. Shows store.new r (Or (more (tree_at store.old a) (more (tree_at store.old b) none)))) }
    ensures extends { Extends store.old store.new }
{
    let mut parts = Vec::new(alloc);
    parts.push(a)?;
    parts.push(b)?;
    store.intern(Term::Or(TermIds::from_vec(parts)))
}
