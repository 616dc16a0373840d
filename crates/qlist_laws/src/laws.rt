//! The laws, each the contract of a function that does nothing.
ghost use Rattle.qlist_laws.specs.Law.{KeepsNames, KeepsListNames, KeepsListSorts, KeepsModels, HasPartsAlone, IsItsOwnList};

use qcanon_laws::keeps_truth;

/// A name of the canonical term is one of the term.
pub fn keeps_names()
    ensures { KeepsNames }
{}

/// A name of the canonical list is one of the list.
pub fn keeps_list_names()
    ensures { KeepsListNames }
{}

/// The canonical list has formulas alone, where the list has.
pub fn keeps_list_sorts()
    ensures { KeepsListSorts }
{}

/// The canonical list has the models of the list.
pub fn keeps_models()
    ensures { KeepsModels }
{
    keeps_truth();
}

/// The canonical list has no And and no `true` among its members.
pub fn has_parts_alone()
    ensures { HasPartsAlone }
{}

/// The canonical list is its own canonical list.
pub fn is_its_own_list()
    ensures { IsItsOwnList }
{}
