// The races of a check, and those who run in them.
ghost use Rattle.std.specs.Prelude.{◌≡◌, ◌≢◌, ◌+◌, ◌-◌, ◌<◌, ◌≤◌, ◌^◌, ◌↔◌, ℕ, [], ◌∷◌, ◌++◌, false, true, None, Some, Err, length, IfOk, IfErr, IfSome, IfNone, replicate};
ghost use Rattle.race_word.specs.Views.{stays_with, goes_with, together, newcomer, of_race};
ghost use Rattle.race_word.specs.Has.{HasBranch, HasUnwon, HasWon, HasWin, MayWin, HasAll, HasFresh, HasSeen, Tells};
ghost use Rattle.race_word.specs.Keeps.{Keeps, Grows, SeenOn};
ghost use Rattle.race_word.specs.Runner.{IsOf, with_view, with_chain, place, Opens, Tries, tried, Draws, Collects, winner, Polls};

use crate::place::{Place, PoolEnd, RaceNo, Seen, Totals, Won};
use crate::rule::{self, RaceRule};
use crate::view::{Terms, View};
use atomic_table::{Seat, Table};
use std::alloc::{AllocError, Global};
use std::marker::{Brand, Model};

/// The table of the races of a check. Contracts see which table it is, and the pool and workers that it was made for.
#[derive(Drop)]
pub struct Races {
    table: Table<(), View, Terms, RaceRule, Global>,
}

impl Model for Races {
    ghost use Rattle.std.specs.Prelude.{◌≡◌};
    ghost use Rattle.race_word.specs.Runner.{Arena};

    ghost Value = { Arena };

    ghost view = { λ r. record { table = r.table.shared.table_id; terms = r.table.shared.key } };

    ghost invariant = { λ r. (r.table.shared.table_id.words ≡ 4097) × (r.table.shared.table_id.slots ≡ 0) };
}

/// A seat of a table, and the chain of at most 64 places that its owner runs in. Contracts see the table, what the seat
/// knows, and the chain, the outermost place first.
#[derive(Drop)]
pub struct Racer {
    seat: Seat<(), View>,
    places: [Place; 64],
    depth: usize,
    workers: u32,
    pool: u64,
    refused: bool,
    end: Option<u64>,
}

impl Model for Racer {
    ghost use Rattle.race_word.specs.Runner.{Runner};
    ghost use Rattle.std.specs.Prelude.{take};

    ghost Value = { Runner };

    ghost view = { λ r. record { table = r.seat.table_id; view = r.seat.me.0; chain = take r.depth r.places } };

    ghost use Rattle.race_word.specs.RacerIs.{RacerIs};

    ghost invariant = { λ r. RacerIs r };
}

impl Races {
    /// A table without races, and a racer with all workers and an empty chain. The pool is how many lemmas may be drawn
    /// before a draw is answered with its end: from 1 to 2^62. There are 1 to 64 workers.
    pub fn start(alloc: Global, pool: u64, workers: u32) -> Result<(Races, Racer), AllocError>
        requires pool { (1 ≤ pool) × (pool ≤ 2 ^ 62) }
        requires workers { (1 ≤ workers) × (workers ≤ 64) }
        ensures racer { IfOk result (λ r. r.1 ≡ record { table = r.0.table; view = newcomer pool workers; chain = [] }) }
        ensures terms { IfOk result (λ r. r.0.terms ≡ record { pool = pool; workers = workers }) }
        ensures of { IfOk result (λ r. IsOf r.0 r.1) }
    {
        let terms = Terms {
            pool,
            workers: workers as u64,
        };
        let (table, seat) = table_of(alloc, 4097, &terms)?;
        let place = Place { race: 1, branch: 0 };
        Ok((
            Races { table },
            Racer {
                seat,
                places: [place; 64],
                depth: 0,
                workers,
                pool,
                refused: false,
                end: None,
            },
        ))
    }

    /// The draws of all seats: on the count of races, the refused ones among them, and on that of lemmas. All workers
    /// are back at this racer, so both are its own numbers. The lemmas are within the pool where it noted no end of the pool; an end that
    /// it noted is a ticket past the pool, which they count.
    pub fn close(self, racer: Racer) -> Totals
        requires table { racer.table ≡ self.table }
        requires back { racer.view.workers ≡ self.terms.workers }
        ensures races { result.races ≡ racer.view.races }
        ensures lemmas { result.lemmas ≡ racer.view.draws }
        ensures most { result.lemmas ≤ self.terms.pool + self.terms.workers }
        ensures top { racer.view.top ≤ result.lemmas }
        ensures within { IfNone racer.view.end (result.lemmas ≤ self.terms.pool) }
        ensures ended { IfSome racer.view.end (λ ticket. (self.terms.pool ≤ ticket) × (ticket < result.lemmas)) }
    {
        let Races { table } = self;
        let Racer {
            seat,
            places: _,
            depth: _,
            workers: _,
            pool: _,
            refused: _,
            end: _,
        } = racer;
        let closed = table.close_with(seat);
        let races = closed.word(0);
        let lemmas = closed.word(1);
        closed.free();
        Totals { races, lemmas }
    }
}

impl Racer {
    /// How many workers the seat has.
    pub fn workers(&self) -> u32
        ensures { result ≡ self.now.view.workers }
    {
        self.workers
    }

    /// Draws a number and begins that race: the seat has all its branches, from 0, and none of them has won.
    ///
    /// None where the number drawn is past 4,095, which is marked; with that mark None comes without a step. A race has
    /// 1 to 65,536 branches.
    pub fn open_race(&mut self, races: &Races, branches: u32) -> Option<RaceNo>
        requires table { self.old.table ≡ races.now.table }
        requires some { (1 ≤ branches) × (branches ≤ 65536) }
        ensures marked { self.old.view.refused ≡ true → (self.new ≡ self.old) × (result ≡ None) }
        ensures drawn { self.old.view.refused ≡ false → Opens branches self.old result self.new }
        ensures opened { IfSome result (λ r. HasFresh self.new.view r branches) }
        ensures had_none { IfSome result (λ r. of_race r self.old.view.parts ≡ 0) }
        ensures grows { Grows self.old self.new }
    {
        if self.refused {
            return None;
        }
        let found = rule::open_as::<Brand>(&races.table.shared, &mut self.seat, branches);
        if found < 4095 {
            Some(RaceNo::of(found as u32 + 1))
        } else {
            self.refused = true;
            None
        }
    }

    /// Puts a branch that the seat has on the chain, as the innermost place. The chain has fewer than 64 places.
    pub fn enter(&mut self, race: RaceNo, branch: u32)
        requires has { (size : ℕ) × HasBranch self.old.view race size branch }
        requires room { length self.old.chain < 64 }
        ensures { self.new ≡ with_chain self.old (self.old.chain ++ place race branch ∷ []) }
    {
        self.places[self.depth] = Place {
            race: race.number(),
            branch,
        };
        self.depth += 1;
    }

    /// Takes the innermost place off the chain, which has one.
    pub fn leave(&mut self)
        requires { 0 < length self.old.chain }
        ensures { (r b : ℕ) × (self.old ≡ with_chain self.new (self.new.chain ++ place r b ∷ [])) }
    {
        self.depth -= 1;
    }

    /// Loads the word of each place of the chain, from the outermost in, up to the first that holds a winner other than
    /// the place's own branch: that one, or None where there is none.
    pub fn poll(&mut self, races: &Races) -> Option<Seen>
        requires { self.old.table ≡ races.now.table }
        ensures polls { Polls self.old.chain self.old.view result self.new.view }
        ensures sees { IfSome result (SeenOn self.old.chain self.new.view) }
        ensures quiet { IfNone result (self.new.view.polls ≡ self.old.view.polls + length self.old.chain) }
        ensures stopped { IfSome result (λ _. (self.old.view.polls < self.new.view.polls) × (self.new.view.polls ≤ self.old.view.polls + length self.old.chain)) }
        ensures rest { self.new ≡ with_view self.old (record self.old.view { seen = self.new.view.seen; polls = self.new.view.polls }) }
        ensures keeps { Keeps self.old self.new }
    {
        self.poll_chain(races)
    }

    /// Tries to win the race for a branch that the seat has and that hasn't won: the win, or the winner, another branch,
    /// that the race had.
    pub fn win(&mut self, races: &Races, race: RaceNo, branch: u32) -> Result<Won, Seen>
        requires table { self.old.table ≡ races.now.table }
        requires unwon { MayWin self.old.view race branch }
        ensures tried { Tries race branch self.old result self.new }
        ensures won { IfOk result (λ w. (w ≡ branch) × HasWin self.new.view race branch) }
        ensures lost { IfErr result (λ s. (s.race ≡ race) × (s.winner ≢ branch) × HasSeen self.new.view race s.winner) }
        ensures kept { IfErr result (λ _. Keeps self.old self.new) }
        ensures branches { (r size b : ℕ) → HasBranch self.old.view r size b → HasBranch self.new.view r size b }
    {
        let found = rule::win(&races.table.shared, &mut self.seat, race.number(), branch);
        win_or_winner(race, branch, found)
    }

    /// Draws the next ticket for a lemma: it, or `PoolEnd` exactly where the ticket is at least the pool, which is noted.
    ///
    /// A pool end that was noted is answered again, without a step.
    pub fn draw(&mut self, races: &Races) -> Result<u64, PoolEnd>
        requires { self.old.table ≡ races.now.table }
        ensures noted { IfSome self.old.view.end (λ t. (self.new ≡ self.old) × (result ≡ Err (record { ticket = t }))) }
        ensures drawn { self.old.view.end ≡ None → Draws self.old result self.new }
        ensures ticket { IfOk result (λ t. (self.old.view.top ≤ t) × (t < self.new.view.pool) × (self.new.view.top ≡ t + 1)) }
        ensures ended { IfErr result (λ e. (self.new.view.pool ≤ e.ticket) × (e.ticket < self.new.view.top)) }
        ensures keeps { Keeps self.old self.new }
    {
        if let Some(ticket) = self.end {
            return Err(PoolEnd { ticket });
        }
        let ticket = rule::draw(&races.table.shared, &mut self.seat);
        if ticket < self.pool {
            Ok(ticket)
        } else {
            self.end = Some(ticket);
            Err(PoolEnd { ticket })
        }
    }

    /// A new racer with the branches of the race from `mid` on, each with its win if it has one, and so many of the
    /// workers. It begins with the same chain, marks, top and winners seen, and with no counts. At least one worker
    /// stays on each side.
    pub fn split(&mut self, races: &Races, race: RaceNo, mid: u32, workers: u32) -> Racer
        requires table { self.old.table ≡ races.now.table }
        requires workers { (0 < workers) × (workers < self.old.view.workers) }
        ensures stays { self.new ≡ with_view self.old (stays_with race mid workers self.old.view) }
        ensures goes { result ≡ with_view self.old (goes_with race mid workers self.old.view) }
        ensures low { (size b : ℕ) → b < mid → HasUnwon self.old.view race size b → HasUnwon self.new.view race size b }
        ensures high { (size b : ℕ) → mid ≤ b → HasUnwon self.old.view race size b → HasUnwon result.view race size b }
    {
        let seat = rule::split_as::<Brand>(
            &races.table.shared,
            &mut self.seat,
            race.number(),
            mid,
            workers,
        );
        self.workers -= workers;
        Racer {
            seat,
            places: self.places,
            depth: self.depth,
            workers,
            pool: self.pool,
            refused: self.refused,
            end: self.end,
        }
    }

    /// Takes in another racer of the table: its branches, wins, workers and counts, and the winners that it saw. Marks
    /// are kept, of two pool ends the own one, of two tops the greater.
    pub fn join(&mut self, races: &Races, other: Racer)
        requires { (self.old.table ≡ races.now.table) × (other.table ≡ races.now.table) }
        ensures joined { self.new ≡ with_view self.old (together self.old.view other.view) }
        ensures own { (r size b : ℕ) → HasBranch self.old.view r size b → HasBranch self.new.view r size b }
        ensures taken_in { (r size b : ℕ) → HasBranch other.view r size b → HasBranch self.new.view r size b }
    {
        let Racer {
            seat,
            places: _,
            depth: _,
            workers,
            pool: _,
            refused,
            end,
        } = other;
        rule::join(&races.table.shared, &mut self.seat, seat);
        rule::count(&races.table.shared, &mut self.seat);
        self.workers += workers;
        self.refused = self.refused || refused;
        self.end = self.end.or(end);
    }

    /// Loads the word of a race of which the seat has all branches: the winner, whose win the seat has, or None, and
    /// then it has none.
    pub fn collect(&mut self, races: &Races, race: RaceNo) -> Option<u32>
        requires table { self.old.table ≡ races.now.table }
        requires all { (size : ℕ) × HasAll self.old.view race size }
        ensures loads { Collects race self.old result self.new }
        ensures winner { (b : ℕ) → HasWin self.old.view race b ↔ (result ≡ Some b) }
        ensures tells { Tells self.old.view race result }
        ensures keeps { Keeps self.old self.new }
    {
        let found = rule::collect(&races.table.shared, &mut self.seat, race.number());
        winner_in(found)
    }

    /// The walk of `poll` along the chain.
    fn poll_chain(&mut self, races: &Races) -> Option<Seen>
        requires { self.old.table ≡ races.now.table }
        ensures same { (self.new.table ≡ self.old.table) × (self.new.chain ≡ self.old.chain) }
        ensures polls { Polls self.old.chain self.old.view result self.new.view }
    {
        let mut i = 0;
        while i < self.depth {
            let place = self.places[i];
            let found = rule::poll(&races.table.shared, &mut self.seat, place.race);
            if found != 0 && found != place.branch as u64 + 1 {
                return Some(Seen {
                    race: RaceNo::of(place.race),
                    winner: (found - 1) as u32,
                });
            }
            i += 1;
        }
        None
    }
}

fn table_of(
    alloc: Global,
    count: usize,
    terms: &Terms,
) -> Result<(Table<(), View, Terms, RaceRule, Global>, Seat<(), View>), AllocError>
    requires words { count ≡ 4097 }
    requires terms { (terms.now.workers ≤ 64) × (terms.now.pool ≤ 2 ^ 62) }
    ensures { IfOk result (λ r. (r.0.shared.table_id.words ≡ 4097) × (r.0.shared.table_id.slots ≡ 0) × (r.0.shared.key ≡ terms.now) × (r.1.table_id ≡ r.0.shared.table_id) × (r.1.me ≡ (newcomer terms.now.pool terms.now.workers, []))) }
{
    let words = vec![in alloc; 0u64; count]?;
    Table::of_words(alloc, &words, terms)
}

/// What a try answers that found that word: 0, or the winner's branch plus 1.
fn win_or_winner(race: RaceNo, branch: u32, found: u64) -> Result<Won, Seen>
    requires { found ≤ 65536 }
    ensures { result ≡ tried race branch found }
{
    if found == 0 {
        Ok(Won::of(branch))
    } else {
        Err(Seen {
            race,
            winner: (found - 1) as u32,
        })
    }
}

/// The winner that a word names, if any.
fn winner_in(found: u64) -> Option<u32>
    requires { found ≤ 65536 }
    ensures { result ≡ winner found }
{
    if found == 0 {
        None
    } else {
        Some((found - 1) as u32)
    }
}
