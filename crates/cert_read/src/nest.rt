//! Proofs from their steps and closing lines, with the splits that are open on a stack.
ghost use Rattle.std.specs.Prelude.{◌≡◌, [], ℕ, suc, All, IfOk, IfSome, IfNone};
ghost use Rattle.tac_cert.specs.declared.cert.Close.{out-Close};
ghost use Rattle.tac_cert.specs.Accepts.{most_splits};
ghost use Rattle.cert_read.specs.Nesting.{Nests, AreOpen, IsOpen};

use crate::fault::Fault;
use sqlite_items::Items;
use std::alloc::{AllocError, Global};
use std::mem;
use tac_cert::{Close, Proof, Step};

/// How many splits may stand one in another.
const MOST_SPLITS: usize = 2_048;

/// A split whose cases aren't all there. Behind the next case, `more` are to come.
#[derive(Drop)]
pub(crate) struct Split {
    steps: Items<Step>,
    item: u32,
    cases: Items<Proof>,
    more: u128,
}

/// The splits that are open, the innermost last, and the steps of the proof whose closing line is to come.
#[derive(Drop)]
pub(crate) struct Nest {
    pub(crate) splits: Vec<Split>,
    steps: Items<Step>,
}

impl Nest {
    /// The nest before any step.
    pub(crate) fn new(alloc: Global) -> Nest
        ensures open { IsOpen result.splits.items }
    {
        Nest {
            splits: Vec::new(alloc),
            steps: Items::new(alloc),
        }
    }

    /// Adds a step.
    pub(crate) fn add(&mut self, step: Step) -> Result<(), AllocError>
        ensures splits { self.new.splits ≡ self.old.splits }
    {
        self.steps.push(step)
    }

    /// Closes a proof by an item that is `false`: the whole proof, if no case of a split is to come.
    pub(crate) fn close(&mut self, alloc: Global, item: u32) -> Result<Option<Proof>, AllocError>
        requires open { IsOpen self.old.splits.items }
        ensures whole { IfOk result (λ r. IfSome r (Nests most_splits)) }
        ensures open { IfOk result (λ r. IfNone r (IsOpen self.new.splits.items)) }
    {
        let steps = self.take_steps(alloc);
        let close = Close::False(item);
        self.put(Proof { steps, close })
    }

    /// Opens a split of so many cases: the whole proof, if there are none and no case of another is to come.
    pub(crate) fn split(
        &mut self,
        alloc: Global,
        item: u32,
        count: u128,
    ) -> Result<Option<Proof>, Fault>
        requires open { IsOpen self.old.splits.items }
        ensures whole { IfOk result (λ r. IfSome r (Nests most_splits)) }
        ensures open { IfOk result (λ r. IfNone r (IsOpen self.new.splits.items)) }
    {
        if self.splits.len() >= MOST_SPLITS {
            return Err(Fault::Malformed);
        }
        let steps = self.take_steps(alloc);
        let cases = Items::new(alloc);
        match count.checked_sub(1) {
            Some(more) => {
                self.splits.push(Split {
                    steps,
                    item,
                    cases,
                    more,
                })?;
                Ok(None)
            }
            None => {
                let close = Close::Split { item, cases };
                Ok(self.put(Proof { steps, close })?)
            }
        }
    }

    /// The steps, which leaves none.
    fn take_steps(&mut self, alloc: Global) -> Items<Step>
        ensures splits { self.new.splits ≡ self.old.splits }
    {
        mem::replace(&mut self.steps, Items::new(alloc))
    }

    /// Puts a proof behind the cases of the innermost split, and that split's proof, once all its cases are there, behind those of
    /// the next one: the whole proof, if no split is left open.
    fn put(&mut self, first: Proof) -> Result<Option<Proof>, AllocError>
        requires open { (room : ℕ) × AreOpen most_splits self.old.splits.items room × Nests room first }
        ensures whole { IfOk result (λ r. IfSome r (Nests most_splits)) }
        ensures open { IfOk result (λ r. IfNone r (IsOpen self.new.splits.items)) }
    {
        let mut proof = first;
        while let Some(mut split) = self.splits.pop() {
            split.cases.push(proof)?;
            if split.more > 0 {
                split.more -= 1;
                self.splits.push(split)?;
                return Ok(None);
            }
            proof = closed(split);
        }
        Ok(Some(proof))
    }
}

/// The proof of a split whose cases are all there.
fn closed(split: Split) -> Proof
    ensures nests { (room : ℕ) → All (Nests room) split.cases → Nests (suc room) result }
{
    Proof {
        steps: split.steps,
        close: Close::Split {
            item: split.item,
            cases: split.cases,
        },
    }
}
