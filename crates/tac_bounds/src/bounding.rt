//! The canonical list of a canonical list with the bounds that it lacks.
ghost use Rattle.std.specs.Prelude.{All, IfOk, IfErr};
ghost use Rattle.qterm.specs.Store.{HasSort, Extends, trees_of};
ghost use Rattle.qterm.specs.declared.name.Sort.TheVariants.{Bool};
ghost use Rattle.qlin.specs.CanonList.{canon_list};
ghost use Rattle.qlist_laws.specs.Formulas.{AreFormulas};
ghost use Rattle.qcanon.specs.Walk.{NamesFault};
ghost use Rattle.deriv.specs.Params.{AreInRange};
ghost use Rattle.name_bounds.specs.Missing.{bounded};
ghost use Rattle.tac_bounds.specs.Given.{AreBounded};

use name_bounds::bounded;
use qcanon::{CanonError, canon_list};
use qterm::{Store, TermIds};
use reduce_base::Listed;
use reducer_iface::Params;
use std::alloc::Global;

/// A canonical list with the bounds that it lacked.
#[derive(Drop)]
pub(crate) enum Bounded {
    /// It lacked none, and is there as it was.
    Same(Listed),
    /// The canonical list of it with the bounds.
    Added(TermIds),
}

/// The canonical list of a canonical list with the bounds of the parameters, where an Int name lacks them.
pub(crate) fn bound_list(
    alloc: Global,
    store: &mut Store,
    listed: Listed,
    params: &Params,
) -> Result<Bounded, CanonError>
    requires formulas { All (HasSort Bool store.old) listed.formulas }
    requires params { AreInRange params.now }
    ensures bounded { IfOk result (AreBounded store.new params.now.add_bound_lower params.now.add_bound_upper (trees_of store.old listed.formulas) listed) }
    ensures formulas { IfOk result (λ b. AreFormulas (bounded params.now.add_bound_lower params.now.add_bound_upper (trees_of store.old listed.formulas))) }
    ensures wide { IfErr result (NamesFault store.new (canon_list (bounded params.now.add_bound_lower params.now.add_bound_upper (trees_of store.old listed.formulas)))) }
    ensures extends { Extends store.old store.new }
{
    let all = bounded(
        alloc,
        store,
        listed.formulas.as_slice(),
        params.add_bound_lower,
        params.add_bound_upper,
    )?;
    store.is_lawful();
    if listed.formulas.len() < all.len() {
        let ids = canon_list(alloc, store, all.as_slice())?;
        Ok(Bounded::Added(ids))
    } else {
        Ok(Bounded::Same(listed))
    }
}
