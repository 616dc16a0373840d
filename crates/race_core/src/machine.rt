// The state of the machine: races, each with the place that began it, its word and its branches; a count of lemmas; the pool.
ghost use Rattle.std.specs.Prelude.{◌≡◌, ◌+◌, ◌<◌, ◌≤◌, ◌^◌, ℕ, [], ◌∷◌, ◌++◌, length, replicate, slice_get, slice_set, IfOk};
ghost use Rattle.std.specs.Option.{option_map};
ghost use Rattle.race_core.specs.declared.machine.BranchState.TheVariants.{Running};
ghost use Rattle.race_core.specs.Machine.{race_at, any_running, mark, start};

use std::alloc::{AllocError, Global};
use std::marker::Model;

/// Where someone runs: the root, or a branch of a race. Races are numbered from 1, branches from 0.
#[derive(Clone, Copy, PartialEq, Eq, Debug)]
pub enum Place {
    Root,
    At { race: u32, branch: u32 },
}

/// How a branch stands. A cancelled one saw, in a race of its chain, a winner that is another branch than the chain's.
#[derive(Clone, Copy, PartialEq, Eq, Debug)]
pub enum BranchState {
    Running,
    Won,
    Lost,
    Failed,
    Cancelled { race: u32, winner: u32 },
}

/// The branches of a race, from 0. Contracts see a list.
#[derive(Drop)]
pub struct Branches {
    items: Vec<BranchState>,
}

impl Model for Branches {
    ghost use Rattle.std.specs.Prelude.{List};
    ghost use Rattle.race_core.specs.declared.machine.BranchState.{BranchState};

    ghost Value = { List BranchState };

    ghost view = { λ b. b.items.items };
}

/// A race: who began it, its word, which is 0 or the winner's branch plus 1, and its branches.
#[derive(Drop)]
pub struct Race {
    pub parent: Place,
    pub word: u32,
    pub branches: Branches,
}

/// The races, the one of number 1 first. Contracts see a list.
#[derive(Drop)]
pub struct RaceList {
    items: Vec<Race>,
}

impl Model for RaceList {
    ghost use Rattle.std.specs.Prelude.{List};
    ghost use Rattle.race_core.specs.declared.machine.Race.{Race};

    ghost Value = { List Race };

    ghost view = { λ r. r.items.items };
}

/// A state of the machine. No step reads the pool: it is there for those who compare it with the lemmas.
#[derive(Drop)]
pub struct RaceState {
    pub races: RaceList,
    pub lemmas: u64,
    pub pool: u64,
}

/// The kinds of step.
#[derive(Clone, Copy, PartialEq, Eq, Debug)]
pub enum RaceKind {
    /// Adds a race of the actor; its number is the next one, at most 4,095.
    Begin,
    /// Looks at the word of a race on the actor's chain.
    Poll,
    /// The actor, a branch, wins, or it lost where its race has a winner.
    Win,
    /// The actor, a branch, ends without a win.
    Fail,
    /// Counts a lemma.
    Draw,
    /// The actor looks at a race that it began and of which no branch runs.
    Collect,
}

/// A step. Begin reads `actor` and `branch`, which is the number of branches; Poll and Collect read `actor` and `race`;
/// Win, Fail and Draw read `actor`. The other fields aren't looked at.
#[derive(Clone, Copy, PartialEq, Eq, Debug)]
pub struct RaceStep {
    pub kind: RaceKind,
    pub actor: Place,
    pub race: u32,
    pub branch: u32,
}

impl Branches {
    /// That many branches, all running.
    pub(crate) fn running(alloc: Global, count: u32) -> Result<Branches, AllocError>
        ensures { IfOk result (λ b. b ≡ replicate count Running) }
    {
        Ok(Branches {
            items: vec![in alloc; BranchState::Running; count as usize]?,
        })
    }

    /// How many there are.
    pub fn len(&self) -> usize
        ensures { result ≡ length self.now }
    {
        self.items.len()
    }

    /// How the branch stands, or None where there is no such branch.
    pub fn get(&self, branch: u32) -> Option<BranchState>
        ensures { result ≡ slice_get self.now branch }
    {
        self.items.get(branch as usize).copied()
    }

    /// Whether a branch is Running.
    pub fn any_running(&self) -> bool
        ensures { result ≡ any_running self.now }
    {
        for state in &self.items {
            if let BranchState::Running = state {
                return true;
            }
        }
        false
    }

    /// The branch stands so from now on. Nothing changes where there is no such branch.
    pub(crate) fn set(&mut self, branch: u32, state: BranchState)
        ensures { self.new ≡ slice_set self.old branch state }
    {
        if (branch as usize) < self.items.len() {
            self.items[branch as usize] = state;
        }
    }

    pub(crate) fn copy(&self, alloc: Global) -> Result<Branches, AllocError>
        ensures { IfOk result (λ b. b ≡ self.now) }
    {
        Ok(Branches {
            items: Vec::from_slice(alloc, self.items.as_slice())?,
        })
    }
}

impl Race {
    pub(crate) fn copy(&self, alloc: Global) -> Result<Race, AllocError>
        ensures { IfOk result (λ r. r ≡ self.now) }
    {
        Ok(Race {
            parent: self.parent,
            word: self.word,
            branches: self.branches.copy(alloc)?,
        })
    }
}

impl RaceList {
    /// No races.
    pub(crate) fn new(alloc: Global) -> RaceList
        ensures { result ≡ [] }
    {
        RaceList {
            items: Vec::new(alloc),
        }
    }

    /// How many there are.
    pub fn len(&self) -> usize
        ensures { result ≡ length self.now }
    {
        self.items.len()
    }

    /// The race of that number, from 1 on, or None where there is no such race.
    pub fn get(&self, number: u32) -> Option<&Race>
        ensures { option_map (λ r. r.now) result ≡ race_at self.now number }
    {
        if number == 0 {
            None
        } else {
            self.items.get(number as usize - 1)
        }
    }

    /// Adds a race, which gets the next number.
    pub(crate) fn push(&mut self, race: Race) -> Result<(), AllocError>
        ensures { IfOk result (λ _. self.new ≡ self.old ++ race ∷ []) }
    {
        self.items.push(race)?;
        Ok(())
    }

    /// The branch of the race stands so from now on, and the race has that word.
    pub(crate) fn mark(&mut self, number: u32, word: u32, branch: u32, state: BranchState)
        ensures { self.new ≡ mark self.old number (race_at self.old number) word branch state }
    {
        if number == 0 || number as usize > self.items.len() {
            return;
        }
        let race = &mut self.items[number as usize - 1];
        race.word = word;
        race.branches.set(branch, state);
    }

    pub(crate) fn copy(&self, alloc: Global) -> Result<RaceList, AllocError>
        ensures { IfOk result (λ r. r ≡ self.now) }
    {
        let mut items = Vec::with_capacity(alloc, self.items.len())?;
        for race in &self.items {
            items.push(race.copy(alloc)?)?;
        }
        Ok(RaceList { items })
    }
}

impl RaceState {
    /// No race, no lemma, and that pool.
    pub fn start(alloc: Global, pool: u64) -> Result<RaceState, AllocError>
        ensures { IfOk result (λ s. s ≡ start pool) }
    {
        Ok(RaceState {
            races: RaceList::new(alloc),
            lemmas: 0,
            pool,
        })
    }

    pub(crate) fn copy(&self, alloc: Global) -> Result<RaceState, AllocError>
        ensures { IfOk result (λ s. s ≡ self.now) }
    {
        Ok(RaceState {
            races: self.races.copy(alloc)?,
            lemmas: self.lemmas,
            pool: self.pool,
        })
    }
}
