// One step of the machine, and lists of steps.
ghost use Rattle.std.specs.Prelude.{◌≡◌, ◌+◌, ◌<◌, ◌^◌, length, IfOk, IfSome};
ghost use Rattle.race_core.specs.Machine.{race_at, may_act, chain_branch, parent_of, word_of, branch_of, is_at, seen, polled, with_races, taken};
ghost use Rattle.race_core.specs.Machine.{begin as begins, poll as polls, win as wins, fail as fails, draw as draws, collect as collects, step as steps, run as runs};
ghost use Rattle.race_core.specs.Lawful.{IsLawful};

use crate::machine::{BranchState, Branches, Place, Race, RaceKind, RaceList, RaceState, RaceStep};
use std::alloc::{AllocError, Global};

/// The state after the step, or None exactly where the machine has no such step.
///
/// Each parent in the state is the root or a branch of an earlier race, and the lemmas stay below 2^64.
pub fn apply_step(
    alloc: Global,
    state: &RaceState,
    step: &RaceStep,
) -> Result<Option<RaceState>, AllocError>
    requires races { IsLawful state.now.races }
    requires lemmas { state.now.lemmas + 1 < 2 ^ 64 }
    ensures steps { IfOk result (λ after. after ≡ steps state.now step.now) }
    ensures lawful { IfOk result (λ after. IfSome after (λ next. IsLawful next.races)) }
{
    let _branches = step.branch;
    let mut next = state.copy(alloc)?;
    let is_taken = take_step(alloc, &mut next, step)?;
    if is_taken { Ok(Some(next)) } else { Ok(None) }
}

/// The state after all the steps in order, or None exactly where the machine has no such step at one of them.
///
/// Each parent in the state is the root or a branch of an earlier race, and the lemmas and the number of steps sum to
/// less than 2^64.
pub fn run_steps(
    alloc: Global,
    start: &RaceState,
    steps: &[RaceStep],
) -> Result<Option<RaceState>, AllocError>
    requires races { IsLawful start.now.races }
    requires lemmas { start.now.lemmas + length steps.now < 2 ^ 64 }
    ensures { IfOk result (λ after. after ≡ runs start.now steps.now) }
{
    let mut state = start.copy(alloc)?;
    for step in steps {
        let _branches = step.branch;
        let is_taken = take_step(alloc, &mut state, step)?;
        if !is_taken {
            return Ok(None);
        }
    }
    Ok(Some(state))
}

/// Takes the step in place, and says whether the machine has it. Only Begin takes memory.
fn take_step(alloc: Global, state: &mut RaceState, step: &RaceStep) -> Result<bool, AllocError>
    requires races { IsLawful state.old.races }
    requires lemmas { state.old.lemmas + 1 < 2 ^ 64 }
    ensures { IfOk result (λ is_taken. taken is_taken state.new ≡ steps state.old step.now) }
{
    match step.kind {
        RaceKind::Begin => begin(alloc, state, step.actor, step.branch),
        RaceKind::Poll => Ok(poll(state, step.actor, step.race)),
        RaceKind::Win => Ok(win(state, step.actor)),
        RaceKind::Fail => Ok(fail(state, step.actor)),
        RaceKind::Draw => Ok(draw(state, step.actor)),
        RaceKind::Collect => Ok(collect(state, step.actor, step.race)),
    }
}

/// The root may act, and a branch that runs or was cancelled.
fn may_act(races: &RaceList, actor: Place) -> bool
    ensures { result ≡ may_act races.now actor }
{
    match actor {
        Place::Root => true,
        Place::At { race, branch } => match races.get(race) {
            None => false,
            Some(x) => match x.branches.get(branch) {
                Some(BranchState::Running) => true,
                Some(BranchState::Cancelled { .. }) => true,
                _ => false,
            },
        },
    }
}

/// Adds a race of that many branches, all running, whose parent is the actor.
fn begin(
    alloc: Global,
    state: &mut RaceState,
    actor: Place,
    branches: u32,
) -> Result<bool, AllocError>
    ensures { IfOk result (λ is_taken. taken is_taken state.new ≡ begins state.old actor branches) }
{
    if !may_act(&state.races, actor) {
        return Ok(false);
    }
    if state.races.len() >= 4095 {
        return Ok(false);
    }
    let branches = Branches::running(alloc, branches)?;
    state.races.push(Race {
        parent: actor,
        word: 0,
        branches,
    })?;
    Ok(true)
}

/// Cancels an actor that runs, where the word of a race on its chain names another branch than the chain's.
fn poll(state: &mut RaceState, actor: Place, wanted: u32) -> bool
    ensures { taken result state.new ≡ polls state.old actor wanted }
{
    if !may_act(&state.races, actor) {
        return false;
    }
    let Some(own) = chain_branch(&state.races, actor, wanted) else {
        return false;
    };
    let word = word(&state.races, wanted);
    note_word(state, actor, wanted, word, own);
    true
}

/// The branch of the wanted race on the chain of the place.
fn chain_branch(races: &RaceList, actor: Place, wanted: u32) -> Option<u32>
    ensures { result ≡ chain_branch races.now actor wanted }
{
    let mut place = actor;
    let mut left = match actor {
        Place::Root => 0,
        Place::At { race, branch: _ } => race,
    };
    while left > 0 {
        match place {
            Place::Root => return None,
            Place::At { race, branch } => {
                if race == left {
                    if race == wanted {
                        return Some(branch);
                    }
                    place = parent(races, left);
                }
            }
        }
        left -= 1;
    }
    None
}

fn parent(races: &RaceList, number: u32) -> Place
    ensures { result ≡ parent_of (race_at races.now number) }
{
    match races.get(number) {
        None => Place::Root,
        Some(race) => race.parent,
    }
}

fn word(races: &RaceList, number: u32) -> u32
    ensures { result ≡ word_of (race_at races.now number) }
{
    match races.get(number) {
        None => 0,
        Some(race) => race.word,
    }
}

/// The actor, whose own branch of the wanted race is given, found that word.
fn note_word(state: &mut RaceState, actor: Place, wanted: u32, word: u32, own: u32)
    ensures { state.new ≡ with_races state.old (polled state.old.races actor wanted word own) }
{
    let Place::At { race, branch } = actor else {
        return;
    };
    if word == 0 || word - 1 == own {
        return;
    }
    cancel(state, race, branch, wanted, word - 1);
}

/// A branch that runs is cancelled by that winner.
fn cancel(state: &mut RaceState, number: u32, branch: u32, wanted: u32, winner: u32)
    ensures { state.new ≡ with_races state.old (seen state.old.races number branch wanted winner (branch_of (race_at state.old.races number) branch)) }
{
    let cancelled = BranchState::Cancelled {
        race: wanted,
        winner,
    };
    if let Some(BranchState::Running) = branch_state(&state.races, number, branch) {
        let word = word(&state.races, number);
        state.races.mark(number, word, branch, cancelled);
    }
}

fn branch_state(races: &RaceList, number: u32, branch: u32) -> Option<BranchState>
    ensures { result ≡ branch_of (race_at races.now number) branch }
{
    match races.get(number) {
        None => None,
        Some(race) => race.branches.get(branch),
    }
}

/// The branch wins where its race has no winner, and else it is lost.
fn win(state: &mut RaceState, actor: Place) -> bool
    requires { IsLawful state.old.races }
    ensures { taken result state.new ≡ wins state.old actor }
{
    let Place::At { race, branch } = actor else {
        return false;
    };
    if !may_act(&state.races, actor) {
        return false;
    }
    let word = word(&state.races, race);
    if word == 0 {
        state.races.mark(race, branch + 1, branch, BranchState::Won);
    } else {
        state.races.mark(race, word, branch, BranchState::Lost);
    }
    true
}

/// The branch ends without a win.
fn fail(state: &mut RaceState, actor: Place) -> bool
    ensures { taken result state.new ≡ fails state.old actor }
{
    let Place::At { race, branch } = actor else {
        return false;
    };
    if !may_act(&state.races, actor) {
        return false;
    }
    let word = word(&state.races, race);
    state.races.mark(race, word, branch, BranchState::Failed);
    true
}

/// Counts a lemma.
fn draw(state: &mut RaceState, actor: Place) -> bool
    requires { state.old.lemmas + 1 < 2 ^ 64 }
    ensures { taken result state.new ≡ draws state.old actor }
{
    if !may_act(&state.races, actor) {
        return false;
    }
    state.lemmas += 1;
    true
}

/// A race of the actor, of which no branch runs, may be collected. Nothing changes.
fn collect(state: &mut RaceState, actor: Place, number: u32) -> bool
    ensures { taken result state.new ≡ collects state.old actor (race_at state.old.races number) }
{
    let Some(race) = state.races.get(number) else {
        return false;
    };
    is_at(race.parent, actor) && !race.branches.any_running()
}

fn is_at(place: Place, other: Place) -> bool
    ensures { result ≡ is_at place other }
{
    place == other
}
