//! The search for a model of the clauses, and what its answers come to.
ghost use Rattle.std.specs.Prelude.{◌≡◌, IfOk, length};
ghost use Rattle.qterm.specs.Store.{Extends, trees_of};
ghost use Rattle.qgoal.specs.Goal.{goal_tree};
ghost use Rattle.tac_cert.specs.Accepts.{as_items};
ghost use Rattle.proof_conv.specs.Leaves.{StepsLeave};
ghost use Rattle.race_word.specs.Runner.{IsOf};
ghost use Rattle.race_word.specs.Keeps.{Keeps};
ghost use Rattle.deriv.specs.declared.kind.Kind.TheVariants as kinds;
ghost use Rattle.reducer_iface.specs.Listed.{most_clausal, IsListed};
ghost use Rattle.reducer_iface.specs.Allowed.{IsAllowed, Draws};
ghost use Rattle.sat_clauses.specs.Coding.{AllBelow};
ghost use Rattle.sat_watch.specs.Deciding.{IsDecided};
ghost use Rattle.sat_answers.specs.Coded.{IsCoded};

use crate::spending::{pool_spent, spent};
use qgoal::Goal;
use qlist_laws::keeps_models;
use qterm::{Store, TermId};
use race_word::{Racer, Races};
use reducer_iface::{Applied, Env, Stop};
use rup::Clause;
use sat_answers::{found, refuted};
use sat_clauses::Numbers;
use sat_core::{Solved, Solver};
use sat_watch::{Decision, Halt, decide};
use sqlite_items::Items;
use std::alloc::{AllocError, Global};
use tac_cert::Step;

/// Decides the clauses of a goal's canonical list, to which the steps lead.
pub(crate) fn decide_clauses(
    alloc: Global,
    store: &mut Store,
    goal: &Goal,
    env: &Env,
    list: &[TermId],
    steps: Items<Step>,
    numbers: &Numbers,
    clauses: Vec<Clause>,
    races: &Races,
    racer: &mut Racer,
) -> Result<Applied, Stop>
    requires racer { IsOf races.now racer.old }
    requires pool { env.now.pool ≡ races.now.terms.pool }
    requires listed { IsListed most_clausal (trees_of store.old goal.now.formulas) (trees_of store.old list.now) }
    requires coded { IsCoded store.old numbers.now (trees_of store.old list.now) clauses.items }
    requires leads { StepsLeave store.old (as_items (trees_of store.old goal.now.formulas)) steps (as_items (trees_of store.old list.now)) }
    ensures allowed { IsAllowed kinds.Sat store.new (goal_tree store.old goal.now) env.now racer.old.chain racer.new.view result }
    ensures draws { Draws kinds.Sat racer.old racer.new result }
    ensures store { Extends store.old store.new }
    ensures racer { Keeps racer.old racer.new }
{
    keeps_models();
    let Decision {
        solved,
        lemmas,
        halt,
    } = decide_numbered(alloc, numbers, clauses, env.limit, races, racer)?;
    match solved {
        Solved::Found(values) => {
            let applied = found(
                alloc,
                store,
                goal,
                list,
                steps,
                numbers,
                values.as_slice(),
                lemmas,
            )?;
            Ok(applied)
        }
        Solved::Refuted(lines) => {
            let applied = refuted(alloc, store, goal, list, steps, numbers, lines, lemmas)?;
            Ok(applied)
        }
        Solved::Spent(lines) => spent(
            alloc,
            store,
            goal,
            env,
            list,
            numbers,
            lines.as_slice(),
            lemmas,
        ),
        Solved::Halted(lines) => match halt {
            Some(Halt::Cancelled(seen)) => Err(Stop::Cancelled { seen, lemmas }),
            Some(Halt::Pool(end)) => pool_spent(
                alloc,
                store,
                goal,
                env,
                list,
                numbers,
                lines.as_slice(),
                lemmas,
                end,
            ),
            None => Err(Stop::Memory),
        },
    }
}

/// Decides clauses over numbered names, watched by the racer.
fn decide_numbered(
    alloc: Global,
    numbers: &Numbers,
    clauses: Vec<Clause>,
    limit: Option<u64>,
    races: &Races,
    racer: &mut Racer,
) -> Result<Decision, AllocError>
    requires racer { IsOf races.now racer.old }
    requires below { AllBelow (length numbers.now) clauses.items }
    ensures decided { IfOk result (IsDecided (length numbers.now) clauses.items limit racer.old racer.new) }
    ensures keeps { Keeps racer.old racer.new }
{
    let solver = Solver::new(numbers.count(), clauses)?;
    let decision = decide(alloc, solver, limit, races, racer)?;
    Ok(decision)
}
