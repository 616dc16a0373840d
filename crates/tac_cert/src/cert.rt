//! The types of certificates.
ghost use Rattle.std.specs.Prelude.{◌≡◌};

use qterm::{Name, TermId};
use sqlite_items::Items;

/// A step of a proof. Items are numbered from 1; terms are those of one store.
#[derive(Drop)]
pub enum Step {
    /// `rw`: a formula with the same canonical form.
    Rw {
        item: u32,
        formula: TermId,
    },
    /// `keep`: these items alone, numbered anew.
    Keep {
        items: Items<u32>,
    },
    /// `and`: a child of a conjunction, counted from 1.
    Part {
        item: u32,
        part: u32,
    },
    /// `def`: a fresh name for a term.
    Def {
        name: Name,
        term: TermId,
    },
    /// `subst`: a term for another that is equal to it by an item.
    Subst {
        item: u32,
        from: TermId,
        to: TermId,
        target: u32,
    },
    /// `ite`: both cases of a name that is equal to an `Ite`.
    IteParts {
        item: u32,
    },
    /// `range`: the bounds of a name that is equal to a term over bounded names.
    Range {
        item: u32,
    },
    /// `bits`: fresh names for the binary digits of a name.
    Bits {
        name: Name,
        bits: Items<Name>,
    },
    /// `bit`: the word of a name that is 0 or 1.
    Bit {
        name: Name,
        flag: Name,
    },
    /// `mul`: a word of one bit times a number.
    Mul {
        word: u32,
        by: i128,
    },
    /// `add`: the sum of two words.
    Add {
        left: u32,
        right: u32,
        names: Items<Name>,
    },
    /// `cmp`: whether a word is at most a number.
    Cmp {
        word: u32,
        bound: i128,
        names: Items<Name>,
    },
    /// `eqc`: whether a word is a number.
    Eqc {
        word: u32,
        bound: i128,
        names: Items<Name>,
    },
    /// `table`: a clause that holds in each row of an item's truth table.
    Table {
        item: u32,
        clause: TermId,
    },
    /// `rup`: a clause that follows by reverse unit propagation.
    Rup {
        clause: TermId,
        hints: Items<u32>,
    },
}

/// The steps of a proof, and the line that closes it.
#[cycle(proof)]
#[derive(Drop)]
pub struct Proof {
    pub steps: Items<Step>,
    pub close: Close,
}

/// The last line of a proof.
#[cycle(proof)]
#[derive(Drop)]
pub enum Close {
    /// The item is `false`.
    False(u32),
    /// The item is a disjunction, and each of its children has a proof.
    Split { item: u32, cases: Items<Proof> },
}

/// A certificate: the number of a check, the number of its assertions, and a proof that they can't all be true.
#[derive(Drop)]
pub struct Cert {
    pub check: u32,
    pub asserts: u32,
    pub root: Proof,
}

impl Cert {
    /// The certificate of these. It takes no memory.
    pub fn new(check: u32, asserts: u32, root: Proof) -> Cert
        ensures check { result.check ≡ check }
        ensures asserts { result.asserts ≡ asserts }
        ensures root { result.root ≡ root }
    {
        Cert {
            check,
            asserts,
            root,
        }
    }
}

/// The certificate with another head. It takes no memory.
pub fn renumber(cert: Cert, check: u32, asserts: u32) -> Cert
    ensures check { result.check ≡ check }
    ensures asserts { result.asserts ≡ asserts }
    ensures root { result.root ≡ cert.root }
{
    Cert {
        check,
        asserts,
        root: cert.root,
    }
}
