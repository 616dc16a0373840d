//! Probes: what strategies ask of goals.

use sqlite_items::{Boxed, Items};

/// An expression over measures of a goal. A truth value is the number 1 or 0, and what isn't 0 counts as true.
#[derive(Drop)]
pub enum ProbeExpr {
    /// `size`, the number of formulas.
    Size,
    /// `num-exprs`, the number of distinct subterms.
    NumExprs,
    /// `depth`, the greatest depth of a formula.
    Depth,
    /// `num-consts`, the number of distinct names.
    NumConsts,
    /// `is-propositional`, whether no Int term occurs.
    IsPropositional,
    /// `is-canonical`, whether the goal is its own canonical list.
    IsCanonical,
    /// `is-bounded`, whether each Int name has a low and an up.
    IsBounded,
    /// `is-01`, whether each Int name lies between 0 and 1.
    Is01,
    /// `max-bits`, the greatest binary width of the range of an Int name.
    MaxBits,
    /// A numeral, or `(- numeral)`.
    Num(i128),
    /// `(< P P)`
    Lt(Boxed<ProbeExpr>, Boxed<ProbeExpr>),
    /// `(<= P P)`
    Le(Boxed<ProbeExpr>, Boxed<ProbeExpr>),
    /// `(> P P)`
    Gt(Boxed<ProbeExpr>, Boxed<ProbeExpr>),
    /// `(>= P P)`
    Ge(Boxed<ProbeExpr>, Boxed<ProbeExpr>),
    /// `(= P P)`
    Eq(Boxed<ProbeExpr>, Boxed<ProbeExpr>),
    /// `(and P ..)` of one probe or more
    And(Items<ProbeExpr>),
    /// `(or P ..)` of one probe or more
    Or(Items<ProbeExpr>),
    /// `(not P)`
    Not(Boxed<ProbeExpr>),
}
