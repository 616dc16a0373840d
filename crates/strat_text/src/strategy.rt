//! Strategies: reducers and what combines them.

use crate::name::ReducerName;
use crate::probe::ProbeExpr;
use sqlite_items::{Boxed, Items};

/// How many forms of a strategy may stand in one another.
pub const DEPTH: usize = 64;

/// How many branches a `par-or` may have.
pub const BRANCHES: usize = 64;

/// How often `repeat` runs its strategy where no number is written.
pub const TURNS: u64 = 1000;

/// A parameter of reducers.
#[derive(Clone, Copy, Debug, PartialEq, Eq)]
pub enum ParamKey {
    /// `:lia2pb_max_bits`, from 1 to 64.
    Lia2pbMaxBits,
    /// `:add_bound_lower`, from -(2^127 - 1) to 2^127 - 1.
    AddBoundLower,
    /// `:add_bound_upper`, from -(2^127 - 1) to 2^127 - 1.
    AddBoundUpper,
    /// `:drop_wide_max`, from 0 to 1,048,576.
    DropWideMax,
}

/// A strategy.
#[derive(Drop)]
pub enum Strategy {
    /// `NAME`, a reducer by its name.
    Prim(ReducerName),
    /// `(then S S ..)` of two strategies or more
    Then(Items<Strategy>),
    /// `(or-else S S ..)` of two strategies or more
    OrElse(Items<Strategy>),
    /// `(par-or S S ..)` of two to 64 strategies
    ParOr(Items<Strategy>),
    /// `(par-then S S)`
    ParThen(Boxed<Strategy>, Boxed<Strategy>),
    /// `(if P S S)`
    If(ProbeExpr, Boxed<Strategy>, Boxed<Strategy>),
    /// `(when P S)`
    When(ProbeExpr, Boxed<Strategy>),
    /// `(fail-if P)`
    FailIf(ProbeExpr),
    /// `(repeat S n)`, n from 0 to 2^32 - 1; `(repeat S)` is of 1,000 turns.
    Repeat(Boxed<Strategy>, u64),
    /// `(using-params S :k v ..)` of one setting or more
    Params(Boxed<Strategy>, Items<(ParamKey, i128)>),
    /// `(try-for S n)`, n from 0 to 2^62.
    TryFor(Boxed<Strategy>, u64),
}
