//! How many goals runs may come to together, and how many splits may stand above a goal.
ghost use Rattle.std.specs.Prelude.{◌≡◌, nat_lt};
ghost use Rattle.std.specs.List.{list_any};
ghost use Rattle.deriv.specs.Derives.{SPLITS};
ghost use Rattle.lang_rows.specs.Ends.{too_deep, too_many};

use deriv::{Cause, SUBGOALS};

/// Why so many joined goals under so many splits are refused, where they are.
pub(crate) fn too_many(many: usize, above: &[u32]) -> Option<Cause>
    ensures { result ≡ too_many many above.now }
{
    if many > SUBGOALS {
        Some(Cause::TooManyGoals(many as u64))
    } else {
        too_deep(above)
    }
}

/// Why goals under so many splits are refused, where they are.
pub(crate) fn too_deep(above: &[u32]) -> Option<Cause>
    ensures { result ≡ too_deep above.now }
{
    if is_past(above) {
        Some(Cause::TooDeep)
    } else {
        None
    }
}

/// Whether one of the numbers is past the most splits.
fn is_past(above: &[u32]) -> bool
    ensures { result ≡ list_any (λ n. nat_lt SPLITS n) above.now }
{
    for splits in above {
        if *splits > 2048 {
            return true;
        }
    }
    false
}
