//! The answer for a set of clauses.
ghost use Rattle.std.specs.Prelude.{◌≡◌, IfOk, true};
ghost use Rattle.clause_bench.specs.Answers.{IsRight};
ghost use Rattle.sat_core.specs.Clauses.{all_below};

use rup::Clause;
use sat_core::{Solved, Solver, Watch};
use std::alloc::{AllocError, Global};

/// Whether the clauses have a model.
#[derive(Drop)]
pub enum Answer {
    Sat,
    Unsat,
}

/// A watch that counts the lemmas, and goes on at each.
#[derive(Drop)]
struct Counter {
    seen: u64,
}

impl Watch for Counter {
    ghost says = { λ before c goes_on after. goes_on ≡ true };

    fn on_lemma(&mut self, _clause: &Clause) -> bool {
        self.seen = self.seen.saturating_add(1);
        true
    }
}

/// Whether the clauses have a model, and how many lemmas were learnt until that was known.
#[tactic(auto, using(sat_core::proofs::Halting::never_halted, sat_core::proofs::Refuting::refuted))]
pub fn decide(alloc: Global, vars: u32, clauses: Vec<Clause>) -> Result<(Answer, u64), AllocError>
    requires in_range { all_below vars clauses.items ≡ true }
    ensures { IfOk result (λ r. IsRight vars clauses.items r.0) }
{
    let solver = Solver::new(vars, clauses)?;
    let mut counter = Counter { seen: 0 };
    let answer = match solver.solve(alloc, None, &mut counter)? {
        Solved::Found(_) => Answer::Sat,
        Solved::Refuted(_) => Answer::Unsat,
        // There is no limit.
        Solved::Spent(_) => unreachable!(),
        // The counter goes on at each lemma.
        Solved::Halted(_) => unreachable!(),
    };
    Ok((answer, counter.seen))
}
