//! Names in terms, fresh names, and terms put for names.
ghost use Rattle.std.specs.Prelude.{◌≡◌, ◌↔◌, IsTrue, All};
ghost use Rattle.qterm.specs.declared.name.Sort.TheVariants.{Int};
ghost use Rattle.qterm.specs.Store.{Has};

use qsubst::{Images, Texts, names_of, substitute};
use qterm::{Name, Sort, Store, Term, TermId, TermIds};
use std::alloc::{AllocError, Global};
use std::test::Fail;

/// The id of a term, if its children are terms of the store.
fn put(store: &mut Store, term: Term) -> Result<TermId, AllocError> {
    if store.fits(&term) {
        store.intern(term)
    } else {
        Err(AllocError)
    }
}

/// The id of an Int name.
fn int(alloc: Global, store: &mut Store, text: &[u8]) -> Result<TermId, AllocError> {
    if Name::allows(text) {
        put(store, Term::Var(Name::new(alloc, text, Sort::Int)?))
    } else {
        Err(AllocError)
    }
}

/// The formula that the sum of the terms is at most the last of them.
fn bound(alloc: Global, store: &mut Store, ids: &[TermId]) -> Result<TermId, AllocError> {
    let Some(last) = ids.last() else {
        return Err(AllocError);
    };
    let sum = TermIds::from_vec(Vec::from_slice(alloc, ids)?);
    let left = put(store, Term::Sum(sum))?;
    put(store, Term::Le(left, *last))
}

/// Whether all ids are in the store.
fn has_all(store: &Store, ids: &[TermId]) -> bool
    ensures { IsTrue result ↔ All (Has store.now) ids.now }
{
    ids.iter().all(|id| store.has(*id))
}

/// The terms with 2 put for the Int name.
fn with_two(
    alloc: Global,
    store: &mut Store,
    x: Name,
    list: &[TermId],
) -> Result<Vec<TermId>, AllocError>
    requires has { All (Has store.old) list.now }
    requires int { x.sort ≡ Int }
{
    let two = store.intern(Term::Num(2))?;
    let mut images = Images::new(alloc);
    images.put(x, two)?;
    let found = substitute(alloc, store, &images, list)?;
    Ok(found)
}

/// The names `y` and `x`, two formulas over them, and the first with 2 put for `x`.
fn made(alloc: Global, store: &mut Store) -> Result<[TermId; 5], AllocError> {
    let y = int(alloc, store, b"y")?;
    let x = int(alloc, store, b"x")?;
    let two = put(store, Term::Num(2))?;
    let old = bound(alloc, store, &[y, x, two, x])?;
    let plain = bound(alloc, store, &[two])?;
    let wanted = bound(alloc, store, &[y, two, two, two])?;
    Ok([y, x, old, plain, wanted])
}

#[test]
fn names_and_their_images(rt: HostRuntime) -> Result<(), Fail> {
    let alloc = rt.alloc();
    let mut store = Store::new(alloc);
    let [y, x, old, plain, wanted] = made(alloc, &mut store)?;
    assert!(rt; has_all(&store, &[old, plain, y]));
    let names = names_of(alloc, &store, &[old, plain])?;
    assert!(rt; names.as_slice() == [x, y].as_slice());
    let name = Name::new(alloc, b"x", Sort::Int)?;
    let found = with_two(alloc, &mut store, name, &[old, plain, y])?;
    assert!(rt; found.as_slice() == [wanted, plain, y].as_slice());
    Ok(())
}

#[test]
fn fresh_names(rt: HostRuntime) -> Result<(), Fail> {
    let alloc = rt.alloc();
    let mut texts = Texts::new(alloc);
    for text in [b"x!0", b"x!2", b"y!0"] {
        texts.take(alloc, text)?;
    }
    assert!(rt; texts.has(b"x!2") && !texts.has(b"x!1"));
    for wanted in [b"x!1", b"x!3"] {
        let name = texts.fresh(alloc, b"x", Sort::Bool)?;
        assert!(rt; name.text() == wanted.as_slice() && name.sort() == Sort::Bool);
    }
    Ok(())
}
