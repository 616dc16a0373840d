//! Rows of `qterm`: texts of names, sorts, ids, children, and what copies and layers of a store cost.
use qterm::{Name, SUBTERMS, Sort, Store, Term, TermId};
use std::alloc::{AllocError, Global};
use std::test::Fail;
use table_terms::{Plain, list, named, put, put_and, put_name, put_or, put_sum};

#[test]
fn names_have_a_text_that_a_quoted_symbol_can_hold(rt: HostRuntime) -> Result<(), Fail> {
    let rows: [(&[u8], bool); 6] = [
        (b"", true),
        (b" az~\x80\xff", true),
        (b"a|b", false),
        (b"a\\b", false),
        (b"\x1f", false),
        (b"\x7f", false),
    ];
    for (text, allowed) in rows {
        assert_eq!(rt; Name::allows(text), allowed);
    }
    Ok(())
}

#[test]
fn names_differ_by_their_sorts_too(rt: HostRuntime) -> Result<(), Fail> {
    let formula = named(rt.alloc(), b"p", Sort::Bool)?;
    let number = named(rt.alloc(), b"p", Sort::Int)?;
    assert!(rt; formula.text() == number.text());
    assert!(rt; formula != number);
    assert!(rt; formula.sort() == Sort::Bool && number.sort() == Sort::Int);
    Ok(())
}

/// The number x and the formula p.
fn names(alloc: Global, store: &mut Store) -> Result<(TermId, TermId), AllocError> {
    let x = put_name(alloc, store, b"x", Sort::Int)?;
    let p = put_name(alloc, store, b"p", Sort::Bool)?;
    Ok((x, p))
}

/// Whether the term fits.
fn fits(store: &Store, term: Term) -> bool {
    store.fits(&term)
}

#[test]
fn terms_fit_where_their_sorts_are_right(rt: HostRuntime) -> Result<(), Fail> {
    let mut store = Store::new(rt.alloc());
    let (x, p) = names(rt.alloc(), &mut store)?;
    let rows = [
        (Plain::Scale(-3, x), true),
        (Plain::Scale(-3, p), false),
        (Plain::Le(x, x), true),
        (Plain::Le(x, p), false),
        (Plain::Eq(x, x), true),
        (Plain::Eq(p, p), false),
        (Plain::Iff(p, p), true),
        (Plain::Iff(x, x), false),
        (Plain::Not(p), true),
        (Plain::Not(x), false),
        (Plain::Ite(p, x, x), true),
        (Plain::Ite(p, p, p), true),
        (Plain::Ite(x, x, x), false),
        (Plain::Ite(p, x, p), false),
    ];
    for (row, is_right) in rows {
        assert!(rt; fits(&store, row.term()) == is_right);
    }
    assert!(rt; store.has(x) && store.sort(x) == Sort::Int);
    Ok(())
}

#[test]
fn lists_fit_where_all_sorts_are_right(rt: HostRuntime) -> Result<(), Fail> {
    let alloc = rt.alloc();
    let mut store = Store::new(alloc);
    let (x, p) = names(alloc, &mut store)?;
    let rows: [(&[TermId], bool, bool); 4] = [
        (&[], true, true),
        (&[x, x], true, false),
        (&[p, p], false, true),
        (&[p, x], false, false),
    ];
    for (ids, are_numbers, are_formulas) in rows {
        assert!(rt; fits(&store, Term::Sum(list(alloc, ids)?)) == are_numbers);
        assert!(rt; fits(&store, Term::And(list(alloc, ids)?)) == are_formulas);
        assert!(rt; fits(&store, Term::Or(list(alloc, ids)?)) == are_formulas);
    }
    Ok(())
}

/// Whether the id has this term.
fn shows(store: &Store, id: TermId, term: &Term) -> bool {
    store.has(id) && store.view(id) == term
}

/// The id of a term that fits, if the store has it.
fn found(store: &Store, term: Term) -> Option<TermId> {
    if store.fits(&term) {
        store.find(term)
    } else {
        None
    }
}

#[test]
fn a_term_has_one_id(rt: HostRuntime) -> Result<(), Fail> {
    let mut store = Store::new(rt.alloc());
    let yes = put(&mut store, Term::True)?;
    assert!(rt; found(&store, Term::Not(yes)) == None);
    let not = put(&mut store, Term::Not(yes))?;
    assert!(rt; found(&store, Term::Not(yes)) == Some(not));
    assert!(rt; put(&mut store, Term::Not(yes))? == not);
    assert!(rt; shows(&store, not, &Term::Not(yes)) && store.size() == 2);
    assert!(rt; yes.is_below(1) && !not.is_below(1) && not.index() == 1);
    store.is_distinct();
    store.is_lawful();
    store.has_name_texts();
    Ok(())
}

#[test]
fn a_name_has_one_id(rt: HostRuntime) -> Result<(), Fail> {
    let mut store = Store::new(rt.alloc());
    let first = names(rt.alloc(), &mut store)?;
    assert!(rt; names(rt.alloc(), &mut store)? == first && first.0 != first.1);
    Ok(())
}

#[test]
fn children_are_counted_from_zero(rt: HostRuntime) -> Result<(), Fail> {
    let mut store = Store::new(rt.alloc());
    let yes = put(&mut store, Term::True)?;
    let not = put(&mut store, Term::Not(yes))?;
    let choice = Term::Ite(yes, not, yes);
    assert!(rt; choice.count() == 3 && choice.child(1) == not);
    assert!(rt; choice.with_children(rt.alloc(), &[not, yes, yes])? == Term::Ite(not, yes, yes));
    assert!(rt; choice.clone()? == choice && SUBTERMS == 1_048_576);
    Ok(())
}

#[test]
fn lists_of_ids_come_back_as_vectors(rt: HostRuntime) -> Result<(), Fail> {
    let mut store = Store::new(rt.alloc());
    let yes = put(&mut store, Term::True)?;
    let not = put(&mut store, Term::Not(yes))?;
    let ids = list(rt.alloc(), &[not, yes])?;
    assert!(rt; ids.len() == 2 && !ids.is_empty());
    assert!(rt; ids.clone()? == ids && ids.as_slice() == [not, yes].as_slice());
    assert!(rt; ids.into_vec().as_slice() == [not, yes].as_slice());
    Ok(())
}

/// A formula, a number, and a sum and the connectives over lists of these.
fn lists(alloc: Global, store: &mut Store) -> Result<[TermId; 5], AllocError> {
    let yes = put(store, Term::True)?;
    let one = put(store, Term::Num(1))?;
    let sum = put_sum(alloc, store, &[one, one])?;
    let and = put_and(alloc, store, &[yes, yes])?;
    let or = put_or(alloc, store, &[yes])?;
    Ok([yes, one, sum, and, or])
}

/// Whether each of the ids has the same term in both stores.
fn have_same_terms(first: &Store, second: &Store, ids: &[TermId]) -> bool {
    for id in ids {
        if !first.has(*id) || !second.has(*id) || first.view(*id) != second.view(*id) {
            return false;
        }
    }
    true
}

#[test]
fn copies_go_ways_of_their_own(rt: HostRuntime) -> Result<(), Fail> {
    let mut store = Store::new(rt.alloc());
    let ids = lists(rt.alloc(), &mut store)?;
    let copy = store.copy()?;
    let new = put(&mut store, Term::Num(2))?;
    assert!(rt; have_same_terms(&store, &copy, &ids) && !copy.has(new));
    Ok(())
}

/// Whether a store and a layer of it show terms of their own under one new id.
fn show_their_own(
    store: &mut Store,
    layer: &mut Store,
    yes: TermId,
    one: TermId,
) -> Result<bool, AllocError> {
    let not = put(layer, Term::Not(yes))?;
    let is_hidden = !store.has(not);
    let scale = put(store, Term::Scale(2, one))?;
    let is_scale = shows(store, scale, &Term::Scale(2, one));
    Ok(is_hidden && scale == not && is_scale && shows(layer, not, &Term::Not(yes)))
}

#[test]
fn layers_go_ways_of_their_own(rt: HostRuntime) -> Result<(), Fail> {
    let mut store = Store::new(rt.alloc());
    let ids = lists(rt.alloc(), &mut store)?;
    let mut layer = store.layer()?;
    assert!(rt; have_same_terms(&store, &layer, &ids));
    assert!(rt; show_their_own(&mut store, &mut layer, ids[0], ids[1])?);
    assert!(rt; lists(rt.alloc(), &mut layer)? == ids);
    Ok(())
}

/// The ids of this many numbers.
fn numbers(alloc: Global, store: &mut Store, count: u32) -> Result<Vec<TermId>, AllocError> {
    let mut ids = Vec::new(alloc);
    for number in 0..count {
        ids.push(put(store, Term::Num(number as i128))?)?;
    }
    Ok(ids)
}

/// Puts the sum of the ids into the layer, which goes last.
fn push_layer(
    alloc: Global,
    layers: &mut Vec<Store>,
    mut layer: Store,
    ids: &[TermId],
) -> Result<(), AllocError> {
    put_sum(alloc, &mut layer, ids)?;
    layers.push(layer)?;
    Ok(())
}

/// A layer over the store for each of the numbers, and as many of which each is over the one before, each with a sum of its own.
fn layers(alloc: Global, store: &mut Store, ids: &[TermId]) -> Result<Vec<Store>, AllocError> {
    let mut layers = Vec::new(alloc);
    for id in ids {
        push_layer(alloc, &mut layers, store.layer()?, &[*id, *id])?;
    }
    for id in ids {
        let next = match layers.as_mut_slice().last_mut() {
            Some(last) => last.layer()?,
            None => store.layer()?,
        };
        push_layer(alloc, &mut layers, next, &[*id])?;
    }
    Ok(layers)
}

#[test]
fn two_thousand_layers_share_their_terms(rt: HostRuntime) -> Result<(), Fail> {
    let mut store = Store::new(rt.alloc());
    let ids = numbers(rt.alloc(), &mut store, 262_144)?;
    assert!(rt; ids.len() == 262_144);
    let first = numbers(rt.alloc(), &mut store, 1_000)?;
    let layers = layers(rt.alloc(), &mut store, first.as_slice())?;
    assert!(rt; layers.len() == 2_000 && store.size() == 262_144);
    if let Some(last) = layers.as_slice().last() {
        assert!(rt; last.size() == 263_145);
        assert!(rt; have_same_terms(&store, last, ids.as_slice()));
    }
    Ok(())
}
