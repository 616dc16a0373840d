//! Nodes with one child.
ghost use Rattle.std.specs.Prelude.{◌≡◌, ◌≤◌, ◌+◌, ℕ, List, Option, IfOk};
ghost use Rattle.qterm.specs.Tree.{Tree};
ghost use Rattle.qgoal.specs.Goal.{HasGoal, goal_tree};
ghost use Rattle.strat_text.specs.declared.strategy.Strategy.{Strategy};
ghost use Rattle.race_word.specs.declared.place.Place.{Place};
ghost use Rattle.race_word.specs.declared.view.View.{View};
ghost use Rattle.deriv.specs.declared.params.Params.{Params};
ghost use Rattle.deriv.specs.Derives.{DEEPEST};
ghost use Rattle.lang_runs.specs.Runs.{Setting, HasRun};
ghost use Rattle.lang_runs.specs.Forms.{Surrounds};
ghost use Rattle.lang_runs.specs.Nodes.{IsAround, around_deriv, around_node};
ghost use Rattle.lang_runs.specs.Drawn.{RunTally};

use crate::ran::{Ran, RunStop, discard};
use deriv::{Deriv, Node};
use model_conv::Discarded;
use qgoal::Goal;
use sqlite_items::Boxed;
use std::alloc::{AllocError, Global};

/// What a node puts around its child.
#[derive(Clone, Copy)]
pub enum Around {
    /// Other parameters, or another limit.
    Wrap,
    /// A test with this value.
    Test(i128),
}

/// The run of a strategy around that of its child, on the same goal.
pub fn surround(
    alloc: Global,
    goal: Goal,
    limit: Option<u64>,
    how: Around,
    ran: Result<Ran, RunStop>,
) -> Result<Ran, RunStop>
    ensures run { (c : Setting) (ts : List Tree) (s child : Strategy) (lower : Option ℕ) (ps below : Params) (n : ℕ) (chain : List Place) (v : View) → HasGoal ts goal → n ≤ DEEPEST → Surrounds c (goal_tree ts goal) limit ps how s child lower below → HasRun c ts child (goal_tree ts goal) lower below (n + 1) chain v ran → HasRun c ts s (goal_tree ts goal) limit ps n chain v result }
    ensures draws { (old new : View) → RunTally old new ran → RunTally old new result }
{
    put_around(alloc, goal, limit, how, ran)
}

/// The child's run with a node around its derivation.
fn put_around(
    alloc: Global,
    goal: Goal,
    limit: Option<u64>,
    how: Around,
    ran: Result<Ran, RunStop>,
) -> Result<Ran, RunStop>
    ensures { IsAround goal limit how ran result }
{
    match ran {
        Ok(ran) => {
            let Ran {
                goals,
                above,
                models,
                proofs,
                deriv,
            } = ran;
            match around_deriv(alloc, goal, limit, how, deriv) {
                Ok(deriv) => Ok(Ran {
                    goals,
                    above,
                    models,
                    proofs,
                    deriv,
                }),
                Err(_) => {
                    discard(models, proofs, Discarded::Memory);
                    Err(RunStop::Memory)
                }
            }
        }
        Err(RunStop::Failed(deriv)) => match around_deriv(alloc, goal, limit, how, deriv) {
            Ok(deriv) => Err(RunStop::Failed(deriv)),
            Err(_) => Err(RunStop::Memory),
        },
        Err(RunStop::Cancelled { seen }) => Err(RunStop::Cancelled { seen }),
        Err(RunStop::Memory) => Err(RunStop::Memory),
    }
}

/// The derivation around a child.
fn around_deriv(
    alloc: Global,
    goal: Goal,
    limit: Option<u64>,
    how: Around,
    child: Deriv,
) -> Result<Deriv, AllocError>
    ensures { IfOk result (λ d. d ≡ around_deriv goal limit how child) }
{
    let spent = child.spent;
    let out = child.out.copy(alloc)?;
    let node = around_node(alloc, how, child)?;
    Ok(Deriv {
        goal,
        limit,
        spent,
        out,
        node,
    })
}

/// The node around a child.
fn around_node(alloc: Global, how: Around, child: Deriv) -> Result<Node, AllocError>
    ensures { IfOk result (λ n. n ≡ around_node how child) }
{
    let child = Boxed::new(alloc, child)?;
    match how {
        Around::Wrap => Ok(Node::Wrap { child }),
        Around::Test(value) => Ok(Node::Test {
            value,
            child: Some(child),
        }),
    }
}
