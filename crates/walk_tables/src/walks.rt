//! Rows of `qwalk`: how often a walk asks, and the distinct subterms of terms.
ghost use Rattle.std.specs.Prelude.{All};
ghost use Rattle.qterm.specs.Store.{Has};

use qterm::{Store, Term, TermId};
use qwalk::{
    Fold, Scan, Seen, count_subterms, fold_all, fold_terms, scan_all, scan_terms, subterms,
};
use std::alloc::{AllocError, Global};
use std::test::Fail;
use table_terms::{has_all, put, put_and};

/// The heights of terms, and how often one was asked for: a term without children has the height 0, and any other one
/// more than the highest of its children.
#[derive(Drop)]
struct Heights {
    asked: u32,
}

impl Heights {
    fn above(&mut self, heights: &[u32]) -> u32 {
        self.asked = self.asked.saturating_add(1);
        let mut above = 0;
        for height in heights {
            above = above.max(height.saturating_add(1));
        }
        above
    }
}

impl Scan<u32> for Heights {
    type Task = ();

    ghost task = { λ _. tt };

    ghost right = { λ _ _ _ _. Unit {0} };

    fn node(&mut self, _store: &Store, _id: TermId, outs: &[u32]) -> Result<u32, AllocError> {
        Ok(self.above(outs))
    }
}

/// The same while the store grows: each height is put into it as a number.
impl Fold<u32> for Heights {
    type Task = ();

    ghost task = { λ _. tt };

    ghost right = { λ _ _ _ _. Unit {0} };

    fn node(&mut self, store: &mut Store, _id: TermId, outs: &[u32]) -> Result<u32, AllocError> {
        let height = self.above(outs);
        put(store, Term::Num(height as i128))?;
        Ok(height)
    }
}

/// Formulas, each over those before it: true, its negation, the two in an `And`, and that beside the negation.
fn formulas(alloc: Global, store: &mut Store) -> Result<[TermId; 4], AllocError> {
    let yes = put(store, Term::True)?;
    let no = put(store, Term::Not(yes))?;
    let both = put_and(alloc, store, &[yes, no])?;
    let same = put(store, Term::Iff(both, no))?;
    Ok([yes, no, both, same])
}

#[test]
fn a_shared_subterm_is_asked_once(rt: HostRuntime) -> Result<(), Fail> {
    let alloc = rt.alloc();
    let mut store = Store::new(alloc);
    let [yes, no, both, same] = formulas(alloc, &mut store)?;
    for (id, height, asked) in [(yes, 0, 1), (no, 1, 2), (both, 2, 3), (same, 3, 4)] {
        assert!(rt; store.has(id));
        let mut heights = Heights { asked: 0 };
        assert_eq!(rt; scan_terms(alloc, &store, &mut heights, id)?, height);
        assert_eq!(rt; heights.asked, asked);
        assert_eq!(rt; fold_terms(alloc, &mut store, &mut heights, id)?, height);
        assert_eq!(rt; heights.asked, 2 * asked);
    }
    Ok(())
}

#[test]
fn several_terms_share_their_subterms(rt: HostRuntime) -> Result<(), Fail> {
    let alloc = rt.alloc();
    let mut store = Store::new(alloc);
    let [yes, no, both, same] = formulas(alloc, &mut store)?;
    let rows: [(&[TermId], &[u32], u32); 4] = [
        (&[], &[], 0),
        (&[both, no, yes], &[2, 1, 0], 3),
        (&[no, same, no], &[1, 3, 1], 4),
        (&[same, same], &[3, 3], 4),
    ];
    for (ids, want, asked) in rows {
        assert!(rt; has_all(&store, ids));
        let mut heights = Heights { asked: 0 };
        assert!(rt; scan_all(alloc, &store, &mut heights, ids)?.as_slice() == want);
        assert_eq!(rt; heights.asked, asked);
        assert!(rt; fold_all(alloc, &mut store, &mut heights, ids)?.as_slice() == want);
        assert_eq!(rt; heights.asked, 2 * asked);
    }
    Ok(())
}

#[test]
fn distinct_subterms_are_counted_up_to_the_limit(rt: HostRuntime) -> Result<(), Fail> {
    let alloc = rt.alloc();
    let mut store = Store::new(alloc);
    let [yes, no, both, same] = formulas(alloc, &mut store)?;
    let rows: [(&[TermId], usize); 5] = [
        (&[], 0),
        (&[yes, yes], 1),
        (&[no], 2),
        (&[both, no], 3),
        (&[same], 4),
    ];
    for (ids, count) in rows {
        assert!(rt; has_all(&store, ids));
        assert_eq!(rt; subterms(alloc, &store, ids)?.len(), count);
        assert_eq!(rt; count_subterms(alloc, &store, ids, count)?, Some(count));
        if count > 0 {
            assert_eq!(rt; count_subterms(alloc, &store, ids, count - 1)?, None);
        }
    }
    Ok(())
}

/// What is seen of some terms, and then of others.
fn seen(alloc: Global, store: &Store, first: &[TermId], then: &[TermId]) -> Result<Seen, AllocError>
    requires first_has { All (Has store.now) first.now }
    requires then_has { All (Has store.now) then.now }
{
    let mut seen = subterms(alloc, store, first)?;
    seen.see(store, then)?;
    Ok(seen)
}

#[test]
fn what_is_seen_stays_in_front(rt: HostRuntime) -> Result<(), Fail> {
    let alloc = rt.alloc();
    let mut store = Store::new(alloc);
    let [yes, no, both, same] = formulas(alloc, &mut store)?;
    assert!(rt; Seen::new(alloc).is_empty());
    assert!(rt; has_all(&store, &[no]) && has_all(&store, &[same]));
    let mut seen = seen(alloc, &store, &[no], &[same])?;
    assert!(rt; seen.ids() == [no, yes, same, both].as_slice());
    seen.truncate(3);
    assert!(rt; seen.has(same) && !seen.has(both) && seen.len() == 3);
    Ok(())
}
