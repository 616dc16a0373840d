//! The race machine: lists of steps with what they leave, and which of them it refuses.
use race_core::{BranchState, Place, RaceKind, RaceState, RaceStep, apply_step, run_steps};
use std::alloc::{AllocError, Global};
use std::test::Fail;

const ROOT: Place = Place::Root;

const FIRST: Place = Place::At { race: 1, branch: 0 };

const SECOND: Place = Place::At { race: 1, branch: 1 };

const INNER: Place = Place::At { race: 2, branch: 0 };

fn begin(actor: Place, branches: u32) -> RaceStep {
    RaceStep {
        kind: RaceKind::Begin,
        actor,
        race: 0,
        branch: branches,
    }
}

fn poll(actor: Place, race: u32) -> RaceStep {
    RaceStep {
        kind: RaceKind::Poll,
        actor,
        race,
        branch: 0,
    }
}

fn win(actor: Place) -> RaceStep {
    RaceStep {
        kind: RaceKind::Win,
        actor,
        race: 0,
        branch: 0,
    }
}

fn fail(actor: Place) -> RaceStep {
    RaceStep {
        kind: RaceKind::Fail,
        actor,
        race: 0,
        branch: 0,
    }
}

fn draw(actor: Place) -> RaceStep {
    RaceStep {
        kind: RaceKind::Draw,
        actor,
        race: 0,
        branch: 0,
    }
}

fn collect(actor: Place, race: u32) -> RaceStep {
    RaceStep {
        kind: RaceKind::Collect,
        actor,
        race,
        branch: 0,
    }
}

/// How a list of steps ends: the races and the lemmas, and of race 1 its word and its first two branches.
#[derive(Clone, Copy, PartialEq, Eq, Debug)]
struct End {
    races: usize,
    lemmas: u64,
    word: u32,
    first: Option<BranchState>,
    second: Option<BranchState>,
}

/// How accepted steps end.
fn ended(
    races: usize,
    lemmas: u64,
    word: u32,
    first: BranchState,
    second: BranchState,
) -> Option<End> {
    Some(End {
        races,
        lemmas,
        word,
        first: Some(first),
        second: Some(second),
    })
}

fn end_of(state: &RaceState) -> End {
    let (word, first, second) = match state.races.get(1) {
        None => (0, None, None),
        Some(race) => (race.word, race.branches.get(0), race.branches.get(1)),
    };
    End {
        races: state.races.len(),
        lemmas: state.lemmas,
        word,
        first,
        second,
    }
}

/// How the steps end, from the start, or None where one of them is refused.
fn end_after(alloc: Global, steps: &[RaceStep]) -> Result<Option<End>, AllocError> {
    let start = RaceState::start(alloc, 8)?;
    let state = run_steps(alloc, &start, steps)?;
    match &state {
        None => Ok(None),
        Some(state) => Ok(Some(end_of(state))),
    }
}

#[test]
fn step_lists_end_or_are_refused(rt: HostRuntime) -> Result<(), Fail> {
    use BranchState::{Cancelled, Failed, Lost, Running, Won};

    let by_second = Cancelled { race: 1, winner: 1 };
    let race = begin(ROOT, 2);
    let rows: [(&str, &[RaceStep], Option<End>); 20] = [
        ("a race", &[race], ended(1, 0, 0, Running, Running)),
        ("a win", &[race, win(SECOND)], ended(1, 0, 2, Running, Won)),
        (
            "a win too late",
            &[race, win(SECOND), win(FIRST)],
            ended(1, 0, 2, Lost, Won),
        ),
        (
            "a poll before the win",
            &[race, poll(FIRST, 1), win(SECOND)],
            ended(1, 0, 2, Running, Won),
        ),
        (
            "a poll after the win",
            &[race, win(SECOND), poll(FIRST, 1)],
            ended(1, 0, 2, by_second, Won),
        ),
        (
            "a lemma of a cancelled branch",
            &[race, win(SECOND), poll(FIRST, 1), draw(FIRST)],
            ended(1, 1, 2, by_second, Won),
        ),
        (
            "a poll through the inner race",
            &[
                race,
                begin(FIRST, 1),
                win(SECOND),
                poll(INNER, 1),
                poll(FIRST, 1),
            ],
            ended(2, 0, 2, by_second, Won),
        ),
        (
            "a poll of the own win in the inner race",
            &[race, begin(FIRST, 1), win(INNER), poll(FIRST, 1)],
            ended(2, 0, 0, Running, Running),
        ),
        (
            "a collected win",
            &[race, win(SECOND), fail(FIRST), collect(ROOT, 1)],
            ended(1, 0, 2, Failed, Won),
        ),
        (
            "a collected failure",
            &[
                race,
                draw(ROOT),
                fail(FIRST),
                fail(SECOND),
                collect(ROOT, 1),
            ],
            ended(1, 1, 0, Failed, Failed),
        ),
        ("the root wins", &[race, win(ROOT)], None),
        ("the root fails", &[race, fail(ROOT)], None),
        ("a win in a race that isn't there", &[win(FIRST)], None),
        (
            "a win of a branch that isn't there",
            &[begin(ROOT, 1), win(SECOND)],
            None,
        ),
        (
            "a second win of a branch",
            &[race, win(FIRST), win(FIRST)],
            None,
        ),
        (
            "a lemma after a failure",
            &[race, fail(FIRST), draw(FIRST)],
            None,
        ),
        (
            "a poll of a race off the chain",
            &[race, begin(FIRST, 1), poll(FIRST, 2)],
            None,
        ),
        ("a poll of the root", &[race, poll(ROOT, 1)], None),
        (
            "collected while a branch runs",
            &[race, win(SECOND), collect(ROOT, 1)],
            None,
        ),
        (
            "collected by another",
            &[race, win(SECOND), win(FIRST), collect(FIRST, 1)],
            None,
        ),
    ];
    for (name, steps, want) in rows {
        let found = end_after(rt.alloc(), steps)?;
        assert_eq!(rt; found, want, "{name}");
    }
    Ok(())
}

#[test]
fn races_are_numbered_to_4095(rt: HostRuntime) -> Result<(), Fail> {
    let mut steps = Vec::new(rt.alloc());
    for _ in 0..4095 {
        steps.push(begin(ROOT, 1))?;
    }
    let start = RaceState::start(rt.alloc(), 8)?;
    let most = run_steps(rt.alloc(), &start, &steps)?;
    steps.push(begin(ROOT, 1))?;
    let past = run_steps(rt.alloc(), &start, &steps)?;
    assert!(rt; most.is_some() && past.is_none());
    Ok(())
}

#[test]
fn one_step_copies_the_state(rt: HostRuntime) -> Result<(), Fail> {
    let start = RaceState::start(rt.alloc(), 8)?;
    let Some(begun) = apply_step(rt.alloc(), &start, &begin(ROOT, 2))? else {
        panic!(rt; "the root begins no race")
    };
    let won = apply_step(rt.alloc(), &begun, &win(SECOND))?;
    let refused = apply_step(rt.alloc(), &begun, &win(ROOT))?;
    let Some(won) = won else {
        panic!(rt; "a branch doesn't win")
    };
    assert!(rt; refused.is_none() && start.races.len() == 0);
    assert_eq!(rt;
        Some(end_of(&begun)),
        ended(1, 0, 0, BranchState::Running, BranchState::Running)
    );
    assert_eq!(rt;
        Some(end_of(&won)),
        ended(1, 0, 2, BranchState::Running, BranchState::Won)
    );
    Ok(())
}
