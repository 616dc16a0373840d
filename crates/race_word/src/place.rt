// Races and places by their numbers, and what the calls answer.
ghost use Rattle.std.specs.Prelude.{◌≡◌, ◌<◌, ◌≤◌};

use std::marker::Model;

/// The number of a race, from 1 to 4,095. Contracts see the number.
#[derive(Clone, Copy, PartialEq, Eq, Debug)]
pub struct RaceNo {
    number: u32,
}

impl Model for RaceNo {
    ghost use Rattle.std.specs.Prelude.{ℕ, ◌<◌, ◌≤◌};

    ghost Value = { ℕ };

    ghost view = { λ r. r.number };

    ghost invariant = { λ r. (0 < r.number) × (r.number ≤ 4095) };

    ghost inverse = { λ n. record { number = n } };
}

impl RaceNo {
    pub(crate) fn of(number: u32) -> RaceNo
        requires { (0 < number) × (number ≤ 4095) }
        ensures { result ≡ number }
    {
        RaceNo { number }
    }

    /// The number, from 1 to 4,095.
    pub fn number(self) -> u32
        ensures same { result ≡ self }
        ensures range { (0 < result) × (result ≤ 4095) }
    {
        self.number
    }
}

/// A branch of a race, by their numbers: races from 1, branches from 0.
#[derive(Clone, Copy, PartialEq, Eq, Debug)]
pub struct Place {
    pub race: u32,
    pub branch: u32,
}

/// A winner that was seen: the branch that won the race.
#[derive(Clone, Copy, PartialEq, Eq, Debug)]
pub struct Seen {
    pub race: RaceNo,
    pub winner: u32,
}

/// The pool is spent: the ticket, at least the pool, that showed it.
#[derive(Clone, Copy, PartialEq, Eq, Debug)]
pub struct PoolEnd {
    pub ticket: u64,
}

/// What a table counted: the draws on its number of races, the refused ones among them, and the tickets for lemmas.
#[derive(Clone, Copy, PartialEq, Eq, Debug)]
pub struct Totals {
    pub races: u64,
    pub lemmas: u64,
}

/// The win of a branch. It can't be dropped: it has to be claimed. Contracts see the branch.
pub struct Won {
    branch: u32,
}

impl Model for Won {
    ghost use Rattle.std.specs.Prelude.{ℕ};

    ghost Value = { ℕ };

    ghost view = { λ w. w.branch };
}

impl Won {
    pub(crate) fn of(branch: u32) -> Won
        ensures { result ≡ branch }
    {
        Won { branch }
    }

    /// The branch that won.
    pub fn claim(self) -> u32
        ensures { result ≡ self }
    {
        let Won { branch } = self;
        branch
    }
}
