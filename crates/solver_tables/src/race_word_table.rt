//! The race table: two seats from one thread, and two racers on two threads.
ghost use Rattle.std.specs.Prelude.{◌≡◌};

use race_word::{PoolEnd, Racer, Races};
use std::test::Fail;
use std::thread::{Threads, join};

#[test]
fn the_winner_is_seen_and_collected(rt: HostRuntime) -> Result<(), Fail> {
    let (races, mut first) = Races::start(rt.alloc(), 2, 2)?;
    let Some(race) = first.open_race(&races, 2) else {
        panic!(rt; "no race was drawn")
    };
    let mut second = first.split(&races, race, 1, 1);
    let Ok(won) = second.win(&races, race, 1) else {
        panic!(rt; "there was a winner")
    };
    let seen = match first.win(&races, race, 0) {
        Err(seen) => seen,
        Ok(won) => {
            won.claim();
            panic!(rt; "there was no winner")
        }
    };
    let workers = (first.workers(), second.workers());
    first.join(&races, second);
    let collected = first.collect(&races, race);
    let claimed = won.claim();
    let totals = races.close(first);
    assert!(rt; seen.race.number() == 1 && seen.winner == 1 && workers == (1, 1));
    assert!(rt; collected == Some(1) && claimed == 1 && totals.races == 1 && totals.lemmas == 0);
    Ok(())
}

#[test]
fn a_poll_sees_the_win_of_another_branch(rt: HostRuntime) -> Result<(), Fail> {
    let (races, mut first) = Races::start(rt.alloc(), 2, 2)?;
    let Some(race) = first.open_race(&races, 2) else {
        panic!(rt; "no race was drawn")
    };
    let mut second = first.split(&races, race, 1, 1);
    first.enter(race, 0);
    second.enter(race, 1);
    let before = (first.poll(&races), second.poll(&races));
    let Ok(won) = second.win(&races, race, 1) else {
        panic!(rt; "there was a winner")
    };
    let own = second.poll(&races);
    let other = first.poll(&races);
    won.claim();
    first.leave();
    let left = first.poll(&races);
    assert!(rt; before.0.is_none() && before.1.is_none() && own.is_none() && left.is_none());
    let Some(seen) = other else {
        panic!(rt; "the winner was not seen")
    };
    assert!(rt; seen.race.number() == 1 && seen.winner == 1);
    Ok(())
}

#[test]
fn the_pool_ends(rt: HostRuntime) -> Result<(), Fail> {
    let (races, mut first) = Races::start(rt.alloc(), 2, 2)?;
    let Some(race) = first.open_race(&races, 2) else {
        panic!(rt; "no race was drawn")
    };
    let mut second = first.split(&races, race, 1, 1);
    let a = first.draw(&races);
    let b = first.draw(&races);
    let c = second.draw(&races);
    let d = second.draw(&races);
    first.join(&races, second);
    let totals = races.close(first);
    assert!(rt; totals.lemmas == 3);
    let (Ok(a), Ok(b), Err(PoolEnd { ticket: c }), Err(PoolEnd { ticket: d })) = (a, b, c, d) else {
        panic!(rt; "other answers")
    };
    assert!(rt; a == 0 && b == 1 && c == 2 && d == 2);
    Ok(())
}

/// Two racers draw on two threads.
fn draw_both<R: Threads + Sync>(
    rt: &R,
    races: &Races,
    first: Racer,
    second: Racer,
) -> (Racer, Racer)
    requires first { first.table ≡ races.now.table }
    requires second { second.table ≡ races.now.table }
    ensures first { (result.0.table ≡ first.table) × (result.0.view.workers ≡ first.view.workers) }
    ensures second { (result.1.table ≡ second.table) × (result.1.view.workers ≡ second.view.workers) }
{
    join(
        rt,
        || -> Racer
            requires { first.table ≡ races.now.table }
            ensures { (result.table ≡ first.table) × (result.view.workers ≡ first.view.workers) }
        { drawn(races, first) },
        || -> Racer
            requires { second.table ≡ races.now.table }
            ensures { (result.table ≡ second.table) × (result.view.workers ≡ second.view.workers) }
        { drawn(races, second) },
    )
}

fn drawn(races: &Races, mut racer: Racer) -> Racer
    requires { racer.table ≡ races.now.table }
    ensures { (result.table ≡ racer.table) × (result.view.workers ≡ racer.view.workers) }
{
    let _ticket = racer.draw(races);
    racer
}

#[test]
fn two_threads_draw(rt: HostRuntime) -> Result<(), Fail> {
    let (races, mut first) = Races::start(rt.alloc(), 8, 2)?;
    let Some(race) = first.open_race(&races, 2) else {
        panic!(rt; "no race was drawn")
    };
    let second = first.split(&races, race, 1, 1);
    let (mut first, second) = draw_both(&rt, &races, first, second);
    first.join(&races, second);
    let totals = races.close(first);
    assert!(rt; totals.lemmas == 2);
    Ok(())
}
