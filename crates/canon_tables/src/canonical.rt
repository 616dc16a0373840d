//! Canonical forms: small terms with their forms, lists of formulas, and terms of many parts and levels.
//!
//! A term is written as its children and then a sign: `<` for at most, `=`, `~` for Iff, `!` for Not, `?` for Ite, `*` for a numeral
//! times a term, and `+`, `&` and `|` after the number of their children. `-` changes the sign of a numeral, `M` is 2^127 - 1 and
//! `B` is -2^127. Names are the Int `x` and `y` and the Bool `p`, `q` and `X`, which has the text of `x`.
ghost use Rattle.std.specs.Prelude.{◌↔◌, IsTrue, All};
ghost use Rattle.qterm.specs.Store.{Has, Extends};
ghost use Rattle.qcanon.specs.Chain.{AreForms};

use qcanon::{CanonError, Forms, canon, canon_list, canon_list_with, canon_with};
use qterm::{Name, Sort, Store, Term, TermId, TermIds};
use std::alloc::{AllocError, Global};
use std::test::Fail;

/// The id of a term whose children are in the store.
fn kept(store: &mut Store, term: Term) -> Result<TermId, AllocError> {
    if store.fits(&term) {
        store.intern(term)
    } else {
        Err(AllocError)
    }
}

/// The id of a name of one letter.
fn name(alloc: Global, store: &mut Store, letter: u8, sort: Sort) -> Result<TermId, AllocError> {
    let text = [letter];
    if Name::allows(&text) {
        kept(store, Term::Var(Name::new(alloc, &text, sort)?))
    } else {
        Err(AllocError)
    }
}

/// The last term.
fn pop(stack: &mut Vec<TermId>) -> Result<TermId, AllocError> {
    match stack.pop() {
        Some(id) => Ok(id),
        None => Err(AllocError),
    }
}

/// The number that the last term is.
fn pop_number(store: &Store, stack: &mut Vec<TermId>) -> Result<i128, AllocError> {
    let id = pop(stack)?;
    if !store.has(id) {
        return Err(AllocError);
    }
    match store.view(id) {
        Term::Num(number) => Ok(*number),
        _ => Err(AllocError),
    }
}

/// The terms before the last, which says how many they are.
fn pop_all(alloc: Global, store: &Store, stack: &mut Vec<TermId>) -> Result<TermIds, AllocError> {
    let count = pop_number(store, stack)?;
    let mut ids = Vec::new(alloc);
    for _ in 0..count {
        ids.push(pop(stack)?)?;
    }
    ids.reverse();
    Ok(TermIds::from_vec(ids))
}

/// A numeral with one digit more.
fn longer(number: i128, digit: u8) -> Result<Term, AllocError> {
    let last = i128::from(digit.saturating_sub(b'0'));
    match number.checked_mul(10) {
        Some(front) => match front.checked_add(last) {
            Some(value) => Ok(Term::Num(value)),
            None => Err(AllocError),
        },
        None => Err(AllocError),
    }
}

/// The number with the other sign.
fn negated(number: i128) -> Result<Term, AllocError> {
    match number.checked_neg() {
        Some(value) => Ok(Term::Num(value)),
        None => Err(AllocError),
    }
}

/// The term of a sign over the last terms.
fn over(
    alloc: Global,
    store: &Store,
    stack: &mut Vec<TermId>,
    sign: u8,
) -> Result<Term, AllocError> {
    match sign {
        b't' => Ok(Term::True),
        b'f' => Ok(Term::False),
        b'M' => Ok(Term::Num(i128::MAX)),
        b'B' => Ok(Term::Num(i128::MIN)),
        b'-' => negated(pop_number(store, stack)?),
        b'!' => Ok(Term::Not(pop(stack)?)),
        b'+' => Ok(Term::Sum(pop_all(alloc, store, stack)?)),
        b'&' => Ok(Term::And(pop_all(alloc, store, stack)?)),
        b'|' => Ok(Term::Or(pop_all(alloc, store, stack)?)),
        _ => over_pair(store, stack, sign),
    }
}

/// The term of a sign over the last two or three terms.
fn over_pair(store: &Store, stack: &mut Vec<TermId>, sign: u8) -> Result<Term, AllocError> {
    let right = pop(stack)?;
    if sign == b'*' {
        return Ok(Term::Scale(pop_number(store, stack)?, right));
    }
    let left = pop(stack)?;
    match sign {
        b'<' => Ok(Term::Le(left, right)),
        b'=' => Ok(Term::Eq(left, right)),
        b'~' => Ok(Term::Iff(left, right)),
        b'?' => Ok(Term::Ite(pop(stack)?, left, right)),
        _ => Err(AllocError),
    }
}

/// Puts the term of a byte on the stack; `before` is the byte before it.
fn take(
    alloc: Global,
    store: &mut Store,
    stack: &mut Vec<TermId>,
    before: u8,
    byte: u8,
) -> Result<(), AllocError> {
    let id = match byte {
        b' ' => return Ok(()),
        b'x' | b'y' => name(alloc, store, byte, Sort::Int)?,
        b'p' | b'q' => name(alloc, store, byte, Sort::Bool)?,
        b'X' => name(alloc, store, b'x', Sort::Bool)?,
        b'0'..=b'9' => {
            let front = if before.is_ascii_digit() {
                pop_number(store, stack)?
            } else {
                0
            };
            kept(store, longer(front, byte)?)?
        }
        _ => {
            let term = over(alloc, store, stack, byte)?;
            kept(store, term)?
        }
    };
    stack.push(id)?;
    Ok(())
}

/// The terms of a text.
fn read(alloc: Global, store: &mut Store, text: &[u8]) -> Result<Vec<TermId>, AllocError> {
    let mut stack = Vec::new(alloc);
    let mut before = b' ';
    for byte in text {
        take(alloc, store, &mut stack, before, *byte)?;
        before = *byte;
    }
    Ok(stack)
}

/// A term alone.
fn alone(alloc: Global, id: TermId) -> Result<TermIds, AllocError> {
    Ok(TermIds::from_vec(vec![in alloc; id]?))
}

/// The canonical form of the term of a text, alone.
fn form(alloc: Global, store: &mut Store, text: &[u8]) -> Result<TermIds, CanonError> {
    let mut stack = read(alloc, store, text)?;
    let id = pop(&mut stack)?;
    if !store.has(id) || !stack.is_empty() {
        return Err(CanonError::Memory(AllocError));
    }
    let found = canon(alloc, store, id)?;
    let ids = alone(alloc, found)?;
    Ok(ids)
}

/// The test fails at any error.
fn fails(_error: CanonError) -> Fail {
    AllocError.into()
}

/// Whether all ids are in the store.
fn has_all(store: &Store, ids: &[TermId]) -> bool
    ensures { IsTrue result ↔ All (Has store.now) ids.now }
{
    ids.iter().all(|id| store.has(*id))
}

/// The canonical list of the formulas of a text.
fn list(alloc: Global, store: &mut Store, text: &[u8]) -> Result<TermIds, CanonError> {
    let ids = read(alloc, store, text)?;
    if !has_all(store, ids.as_slice()) {
        return Err(CanonError::Memory(AllocError));
    }
    let found = canon_list(alloc, store, ids.as_slice())?;
    Ok(found)
}

/// Whether these terms were found, or else this one was told.
fn is_right(found: Result<TermIds, CanonError>, is_found: bool, wanted: &[TermId]) -> bool {
    match found {
        Ok(ids) => is_found && ids.as_slice() == wanted,
        Err(error) => !is_found && is_told(&error, wanted),
    }
}

/// Whether this term was told as the one without a canonical form.
fn is_told(error: &CanonError, wanted: &[TermId]) -> bool {
    match error {
        CanonError::TooWide { term } => wanted.len() == 1 && wanted[0] == *term,
        CanonError::Memory(_) => false,
    }
}

/// Terms, whether they have a canonical form, and this form or the first subterm that has none.
const FORMS: [(&[u8], bool, &[u8]); 72] = [
    (b"3 x* 6 =", true, b"x 2 ="),
    (b"7- 4 y* 6- x* 2+ <", true, b"3 x* 2- y* 2+ 3 <"),
    (b"2 x* 3- <", true, b"x 2- <"),
    (b"1- x* 4 =", true, b"x 4- ="),
    (b"2- x* 4 y* 2+ 6 =", true, b"x 2- y* 2+ 3- ="),
    (b"2 y* 4 x* =", true, b"2 x* 1- y* 2+ 0 ="),
    (b"0 x <", true, b"1- x* 0 <"),
    (b"x x <", true, b"t"),
    (b"x 1 2+ x <", true, b"f"),
    (b"2 1 1 2+ =", true, b"t"),
    (b"x x 1 2+ =", true, b"f"),
    (b"x 3 2+ y 1 2+ <", true, b"x 1- y* 2+ 2- <"),
    (
        b"M x* 2305843009213693951 y* 2+ 5 <",
        true,
        b"M x* 2305843009213693951 y* 2+ 5 <",
    ),
    (b"x x 2+", true, b"2 x*"),
    (b"y 3 x 2- y* 4+", true, b"x 1- y* 3 3+"),
    (b"y 1- y* 2+", true, b"0"),
    (b"0+", true, b"0"),
    (b"x 1+", true, b"x"),
    (b"y 1 2+ 2 x 1 2+ * 2+", true, b"2 x* y 3 3+"),
    (b"1 x*", true, b"x"),
    (b"0 x*", true, b"0"),
    (b"2- 3 x* *", true, b"6- x*"),
    (b"M 1- 1 3+", true, b"M"),
    (b"1- M- *", true, b"M"),
    (b"B 0 *", true, b"0"),
    (
        b"x M- < !",
        true,
        b"1- x* 170141183460469231731687303715884105726 <",
    ),
    (b"t x M < ~", true, b"x M <"),
    (b"x M < x M < ~", true, b"t"),
    (b"x M < p p ?", true, b"p"),
    (b"p!!", true, b"p"),
    (b"x 1 = !", true, b"x 1 = !"),
    (b"x 1- y* 2+ 3 < !", true, b"1- x* y 2+ 4- <"),
    (b"q p 2& !", true, b"p! q! 2|"),
    (b"p q! 2| !", true, b"q p! 2&"),
    (b"p q ~ !", true, b"p q! ~"),
    (b"p q! ~ !", true, b"p q ~"),
    (b"p q X ? !", true, b"p q! X! ?"),
    (b"q t p q 2& 3&", true, b"p q 2&"),
    (b"p q f 2& 2&", true, b"f"),
    (b"p x x < q 3|", true, b"t"),
    (b"p f 2|", true, b"p"),
    (b"q p 2| p 2&", true, b"p p q 2| 2&"),
    (b"0&", true, b"t"),
    (b"0|", true, b"f"),
    (b"p! p 2&", true, b"p p! 2&"),
    (b"x 0 < X 2&", true, b"X x 0 < 2&"),
    (b"p! q ~", true, b"p q! ~"),
    (b"q! p! ~", true, b"p q ~"),
    (b"p p! ~", true, b"f"),
    (b"p! p! ~", true, b"t"),
    (b"p x x < ~", true, b"p"),
    (b"f p ~", true, b"p!"),
    (b"1 x < p ~", true, b"p 1- x* 1- < ~"),
    (b"p! x y ?", true, b"p y x ?"),
    (b"p! x y ? p y x ? 2+", true, b"2 p y x ? *"),
    (b"p x x 2+ 2 x* ?", true, b"2 x*"),
    (b"x x < x y ?", true, b"x"),
    (b"p! t f ?", true, b"p!"),
    (b"p f t ?", true, b"p!"),
    (b"p t q ?", true, b"p q 2|"),
    (b"p f q ?", true, b"q p! 2&"),
    (b"p q t ?", true, b"q p! 2|"),
    (b"p q f ?", true, b"p q 2&"),
    (b"M 1 1- 3+", false, b"M 1 1- 3+"),
    (b"x B <", false, b"B"),
    (b"2 M x* *", false, b"2 M x* *"),
    (b"M x* 1- x* <", false, b"M x* 1- x* <"),
    (b"x M < !", false, b"x M < !"),
    (b"t p x B < ?", false, b"B"),
    (b"x M < ! B x < 2&", false, b"x M < !"),
    (b"x M < p ~", false, b"x M < p ~"),
    (b"x M < p q ?", false, b"x M < p q ?"),
];

#[test]
fn terms_have_their_forms(rt: HostRuntime) -> Result<(), Fail> {
    let alloc = rt.alloc();
    let mut store = Store::new(alloc);
    for (at, (text, is_found, wanted)) in FORMS.iter().enumerate() {
        let wanted = read(alloc, &mut store, wanted)?;
        let found = form(alloc, &mut store, text);
        assert!(rt; is_right(found, *is_found, wanted.as_slice()), "row {at}");
    }
    Ok(())
}

/// Formulas, whether they have a canonical list, and this list or the first subterm that has no canonical form.
const LISTS: [(&[u8], bool, &[u8]); 21] = [
    (b"5 2 x* < !", true, b"x 2 <"),
    (b"3 x* 4 =", true, b"f"),
    (b"q p 2& t p q 1|", true, b"p q"),
    (b"p 1 0 < q", true, b"f"),
    (b"x x <", true, b""),
    (b"q p q", true, b"q p"),
    (b"p p!", true, b"p p!"),
    (b"p! x 2 < 2|", true, b"x 2 < p! 2|"),
    (
        b"x y 1 2+ = x 3 < 2 y <",
        true,
        b"x 1- y* 2+ 1 = x 3 < 1- y* 2- <",
    ),
    (b"100 x <", true, b"1- x* 100- <"),
    (b"3- x < x 4 <", true, b"1- x* 3 < x 4 <"),
    (b"0 x < x 24 <", true, b"1- x* 0 < x 24 <"),
    (b"p q X 2& 2&", true, b"p q X"),
    (b"p f 2& q", true, b"f"),
    (b"q p p ~ q!", true, b"q q!"),
    (b"p p! ~ q", true, b"f"),
    (b"p t q ? p", true, b"p q 2| p"),
    (b"p f q ? p! q", true, b"q p!"),
    (b"f x M < !", false, b"x M < !"),
    (b"x M < p ~ x B <", false, b"x M < p ~"),
    (b"p M x* 1- x* < B x <", false, b"M x* 1- x* <"),
];

#[test]
fn lists_have_their_forms(rt: HostRuntime) -> Result<(), Fail> {
    let alloc = rt.alloc();
    let mut store = Store::new(alloc);
    for (at, (text, is_found, wanted)) in LISTS.iter().enumerate() {
        let wanted = read(alloc, &mut store, wanted)?;
        let found = list(alloc, &mut store, text);
        assert!(rt; is_right(found, *is_found, wanted.as_slice()), "row {at}");
    }
    Ok(())
}

/// The atoms that x is at most k, for k from 0 to the count, in order.
fn bounds(
    store: &mut Store,
    x: TermId,
    count: usize,
    ids: &mut Vec<TermId>,
) -> Result<(), AllocError> {
    for at in 0..count {
        let bound = kept(store, Term::Num(at as i128))?;
        ids.push(kept(store, Term::Le(x, bound))?)?;
    }
    Ok(())
}

#[test]
fn a_conjunction_of_many_parts(rt: HostRuntime) -> Result<(), Fail> {
    let alloc = rt.alloc();
    let mut store = Store::new(alloc);
    let x = name(alloc, &mut store, b'x', Sort::Int)?;
    let mut ids = Vec::new(alloc);
    bounds(&mut store, x, 100_000, &mut ids)?;
    let mut parts = ids.clone()?;
    parts.reverse();
    let all = kept(&mut store, Term::And(TermIds::from_vec(parts)))?;
    let mut list = vec![in alloc; all]?;
    list.extend_from_slice(ids.as_slice())?;
    assert!(rt; has_all(&store, list.as_slice()));
    let found = canon_list(alloc, &mut store, list.as_slice()).map_err(fails)?;
    assert!(rt; found.as_slice() == ids.as_slice());
    Ok(())
}

/// The chain of the parts in the order of their rows, innermost first: each level has one of them at this side.
fn chain(
    alloc: Global,
    store: &mut Store,
    is_and: bool,
    is_left: bool,
    parts: &[TermId],
) -> Result<TermId, AllocError> {
    let mut top = kept(store, if is_and { Term::True } else { Term::False })?;
    for part in parts {
        let pair = if is_left { [*part, top] } else { [top, *part] };
        let ids = TermIds::from_vec(Vec::from_array(alloc, pair)?);
        top = kept(
            store,
            if is_and {
                Term::And(ids)
            } else {
                Term::Or(ids)
            },
        )?;
    }
    Ok(top)
}

/// Whether the chains are of And, and whether each level has its part at the left.
const CHAINS: [(bool, bool); 3] = [(true, false), (true, true), (false, false)];

#[test]
fn chains_of_many_levels(rt: HostRuntime) -> Result<(), Fail> {
    let alloc = rt.alloc();
    let mut store = Store::new(alloc);
    let x = name(alloc, &mut store, b'x', Sort::Int)?;
    let mut ids = Vec::new(alloc);
    bounds(&mut store, x, 100_000, &mut ids)?;
    let mut parts = ids.clone()?;
    parts.reverse();
    for (at, (is_and, is_left)) in CHAINS.iter().enumerate() {
        let top = chain(alloc, &mut store, *is_and, *is_left, parts.as_slice())?;
        let all = TermIds::from_vec(ids.clone()?);
        let wanted = kept(
            &mut store,
            if *is_and {
                Term::And(all)
            } else {
                Term::Or(all)
            },
        )?;
        assert!(rt; store.has(top));
        let found = canon(alloc, &mut store, top).map_err(fails)?;
        assert!(rt; found == wanted, "row {at}");
    }
    Ok(())
}

/// Whether a table gives a term this form, told twice.
fn form_agrees(
    alloc: Global,
    store: &mut Store,
    forms: &mut Forms,
    id: TermId,
    wanted: Option<TermId>,
) -> Result<bool, CanonError>
    requires has { Has store.old id }
    requires forms { AreForms store.old forms.old }
    ensures forms { AreForms store.new forms.new }
    ensures extends { Extends store.old store.new }
{
    let form = canon_with(alloc, store, forms, id)?;
    let again = forms.find(alloc, store, id)?;
    Ok(again == Some(form) && again == wanted)
}

/// Whether a table gives each term its form, and all of them the list that is found anew.
fn table_agrees(
    alloc: Global,
    store: &mut Store,
    forms: &mut Forms,
    ids: &[TermId],
    wanted: &[TermId],
) -> Result<bool, CanonError>
    requires has { All (Has store.old) ids.now }
    requires forms { AreForms store.old forms.old }
{
    for (at, id) in ids.iter().enumerate() {
        if !form_agrees(alloc, store, forms, *id, wanted.get(at).copied())? {
            return Ok(false);
        }
    }
    let list = canon_list_with(alloc, store, forms, ids)?;
    let anew = canon_list(alloc, store, ids)?;
    Ok(list == anew)
}

/// The same with a table of its own.
fn new_table_agrees(
    alloc: Global,
    store: &mut Store,
    ids: &[TermId],
    wanted: &[TermId],
) -> Result<bool, CanonError>
    requires has { All (Has store.old) ids.now }
{
    let mut forms = Forms::new(alloc);
    table_agrees(alloc, store, &mut forms, ids, wanted)
}

/// Puts the terms of a row's text and of its form down.
fn push_row(
    alloc: Global,
    store: &mut Store,
    row: &(&[u8], bool, &[u8]),
    ids: &mut Vec<TermId>,
    forms: &mut Vec<TermId>,
) -> Result<(), AllocError> {
    let text = read(alloc, store, row.0)?;
    ids.extend_from_slice(text.as_slice())?;
    let wanted = read(alloc, store, row.2)?;
    forms.extend_from_slice(wanted.as_slice())?;
    Ok(())
}

/// Puts down the terms that have forms, and their forms.
fn push_rows(
    alloc: Global,
    store: &mut Store,
    ids: &mut Vec<TermId>,
    forms: &mut Vec<TermId>,
) -> Result<(), AllocError> {
    for row in &FORMS {
        if row.1 {
            push_row(alloc, store, row, ids, forms)?;
        }
    }
    Ok(())
}

#[test]
fn a_kept_table_has_the_forms(rt: HostRuntime) -> Result<(), Fail> {
    let alloc = rt.alloc();
    let mut store = Store::new(alloc);
    let mut ids = Vec::new(alloc);
    let mut forms = Vec::new(alloc);
    push_rows(alloc, &mut store, &mut ids, &mut forms)?;
    assert!(rt; has_all(&store, ids.as_slice()));
    let agrees = new_table_agrees(alloc, &mut store, ids.as_slice(), forms.as_slice()).map_err(
        fails,
    )?;
    assert!(rt; agrees);
    Ok(())
}

/// The levels of a chain of Ite over the name and bounds, innermost first.
fn levels(alloc: Global, store: &mut Store, count: usize) -> Result<Vec<TermId>, AllocError> {
    let p = name(alloc, store, b'p', Sort::Bool)?;
    let x = name(alloc, store, b'x', Sort::Int)?;
    let mut parts = Vec::new(alloc);
    bounds(store, x, count, &mut parts)?;
    let mut top = p;
    let mut all = Vec::new(alloc);
    for part in &parts {
        top = kept(store, Term::Ite(p, *part, top))?;
        all.push(top)?;
    }
    Ok(all)
}

// Each level is asked for by itself: walking anew below each would take 200 million steps.
#[test]
fn a_kept_table_spares_walks(rt: HostRuntime) -> Result<(), Fail> {
    let alloc = rt.alloc();
    let mut store = Store::new(alloc);
    let all = levels(alloc, &mut store, 20_000)?;
    assert!(rt; has_all(&store, all.as_slice()));
    let agrees = new_table_agrees(alloc, &mut store, all.as_slice(), all.as_slice()).map_err(
        fails,
    )?;
    assert!(rt; agrees);
    Ok(())
}
