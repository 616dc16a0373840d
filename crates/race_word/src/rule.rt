// The kinds of step of the table, under its rule: what each tells its seat, and one crate-private call for each.
ghost use Rattle.std.specs.Prelude.{◌≡◌, ◌+◌, ◌-◌, ◌<◌, ◌≤◌, ◌≢◌, ℕ, [], false, None};
ghost use Rattle.race_word.specs.Views.{after_open, after_win, after_draw, after_poll, after_collect, stays_with, goes_with, together, of_race};
ghost use Rattle.race_word.specs.Has.{MayWin};
ghost use Rattle.race_word.specs.Plays.{Learns, EndIs};

use crate::view::{Terms, View};
use atomic_table::{Join, Play, Seat, Shared, Split, TableRule};
use std::marker::{Brand, PhantomData};

/// The rule of a race table, specs/Rule.antt, which holds between any two steps.
pub struct RaceRule;

impl TableRule<(), View, Terms> for RaceRule {
    ghost use Rattle.race_word.specs.Views.{newcomer};
    ghost use Rattle.race_word.specs.Rule.{Holds};

    ghost holds = { λ t. Holds t };

    ghost first = { λ t. newcomer t.pool t.workers };
}

/// How many branches an opening asks for.
pub trait Asked {
    ghost use Rattle.std.specs.Prelude.{ℕ};

    ghost branches: { ℕ };
}

impl Asked for Brand {
    ghost branches = { 0 };
}

/// Which branches a split moves, and how many workers.
pub trait Cut {
    ghost use Rattle.std.specs.Prelude.{ℕ};

    ghost race: { ℕ };

    ghost mid: { ℕ };

    ghost workers: { ℕ };
}

impl Cut for Brand {
    ghost race = { 0 };

    ghost mid = { 0 };

    ghost workers = { 0 };
}

/// Draws the number of a race.
pub struct Opening<A: Asked> {
    of: PhantomData<A>,
}

impl<A: Asked> Play<(), View> for Opening<A> {
    ghost use Rattle.race_word.specs.Plays.{Opened};

    ghost then = { Opened A.branches };
}

/// Loads the word of a race, and counts the poll.
pub struct Polling;

impl Play<(), View> for Polling {
    ghost use Rattle.race_word.specs.Plays.{Polled};

    ghost then = { Polled };
}

/// Loads the word of a race of which the seat has all branches.
pub struct Collecting;

impl Play<(), View> for Collecting {
    ghost use Rattle.race_word.specs.Plays.{Collected};

    ghost then = { Collected };
}

/// Exchanges the word 0 of a race for a branch's number plus 1.
pub struct Trying;

impl Play<(), View> for Trying {
    ghost use Rattle.race_word.specs.Plays.{Tried};

    ghost then = { Tried };
}

/// Draws a ticket for a lemma.
pub struct Drawing;

impl Play<(), View> for Drawing {
    ghost use Rattle.race_word.specs.Plays.{Drawn};

    ghost then = { Drawn };
}

/// Loads word 0, to learn that there are at most 64 workers.
pub struct Counting;

impl Play<(), View> for Counting {
    ghost use Rattle.race_word.specs.Plays.{Counted};

    ghost then = { Counted };
}

/// Cuts a seat in two.
pub struct Parting<C: Cut> {
    of: PhantomData<C>,
}

impl<C: Cut> Split<View> for Parting<C> {
    ghost use Rattle.race_word.specs.Views.{stays_with, goes_with};

    ghost left = { stays_with C.race C.mid C.workers };

    ghost right = { goes_with C.race C.mid C.workers };
}

/// Puts two seats together.
pub struct Rejoining;

impl Join<View> for Rejoining {
    ghost use Rattle.race_word.specs.Views.{together, newcomer};

    ghost both = { together };

    ghost spent = { newcomer 0 0 };
}

type Words = Shared<(), View, Terms, RaceRule>;

type RaceSeat = Seat<(), View>;

/// The number that word 0 held. With it a race is begun, or the seat is marked.
pub(crate) fn open_as<A: Asked>(words: &Words, seat: &mut RaceSeat, branches: u32) -> u64
    requires asked { (branches ≡ A.branches) × (1 ≤ branches) × (branches ≤ 65536) }
    requires table { (seat.old.table_id ≡ words.now.table_id) × (words.now.table_id.words ≡ 4097) }
    requires works { (0 < seat.old.me.0.workers) × (seat.old.me.0.refused ≡ false) }
    ensures same { (seat.new.table_id ≡ seat.old.table_id) × (seat.new.id ≡ seat.old.id) }
    ensures view { seat.new.me ≡ (after_open branches result seat.old.me.0, seat.old.me.1) }
    ensures fresh { of_race (result + 1) seat.old.me.0.parts ≡ 0 }
{
    words.fetch_add::<Opening<A>>(seat, 0, 1)
}

/// The ticket.
pub(crate) fn draw(words: &Words, seat: &mut RaceSeat) -> u64
    requires table { (seat.old.table_id ≡ words.now.table_id) × (words.now.table_id.words ≡ 4097) }
    requires works { (0 < seat.old.me.0.workers) × (seat.old.me.0.end ≡ None) }
    ensures same { (seat.new.table_id ≡ seat.old.table_id) × (seat.new.id ≡ seat.old.id) }
    ensures view { seat.new.me ≡ (after_draw result seat.old.me.0, seat.old.me.1) }
    ensures top { seat.old.me.0.top ≤ result }
{
    words.fetch_add::<Drawing>(seat, 1, 1)
}

/// The word of the race.
pub(crate) fn poll(words: &Words, seat: &mut RaceSeat, race: u32) -> u64
    requires table { (seat.old.table_id ≡ words.now.table_id) × (words.now.table_id.words ≡ 4097) }
    requires race { (0 < race) × (race ≤ 4095) }
    ensures same { (seat.new.table_id ≡ seat.old.table_id) × (seat.new.id ≡ seat.old.id) }
    ensures view { seat.new.me ≡ (after_poll race result seat.old.me.0, seat.old.me.1) }
    ensures range { result ≤ 65536 }
{
    words.load::<Polling>(seat, race as usize + 1)
}

/// The word of the race.
pub(crate) fn collect(words: &Words, seat: &mut RaceSeat, race: u32) -> u64
    requires table { (seat.old.table_id ≡ words.now.table_id) × (words.now.table_id.words ≡ 4097) }
    requires race { (0 < race) × (race ≤ 4095) }
    ensures same { (seat.new.table_id ≡ seat.old.table_id) × (seat.new.id ≡ seat.old.id) }
    ensures view { seat.new.me ≡ (after_collect race result seat.old.me.0, seat.old.me.1) }
    ensures range { result ≤ 65536 }
    ensures learns { Learns seat.old.me.0 race result }
{
    words.load::<Collecting>(seat, race as usize + 1)
}

/// The word that the race had: 0 where the branch has won.
pub(crate) fn win(words: &Words, seat: &mut RaceSeat, race: u32, branch: u32) -> u64
    requires table { (seat.old.table_id ≡ words.now.table_id) × (words.now.table_id.words ≡ 4097) }
    requires race { (0 < race) × (race ≤ 4095) }
    requires unwon { MayWin seat.old.me.0 race branch }
    ensures same { (seat.new.table_id ≡ seat.old.table_id) × (seat.new.id ≡ seat.old.id) }
    ensures view { seat.new.me ≡ (after_win race branch result seat.old.me.0, seat.old.me.1) }
    ensures range { result ≤ 65536 }
    ensures other { result ≢ branch + 1 }
{
    words.compare_exchange::<Trying>(seat, race as usize + 1, 0, branch as u64 + 1)
}

/// A new seat with the branches of the race from `mid` on.
pub(crate) fn split_as<C: Cut>(
    words: &Words,
    seat: &mut RaceSeat,
    race: u32,
    mid: u32,
    workers: u32,
) -> RaceSeat
    requires cut { (race ≡ C.race) × (mid ≡ C.mid) × (workers ≡ C.workers) }
    requires table { (seat.old.table_id ≡ words.now.table_id) × (words.now.table_id.words ≡ 4097) }
    requires works { (0 < workers) × (workers < seat.old.me.0.workers) }
    ensures same { (seat.new.table_id ≡ seat.old.table_id) × (seat.new.id ≡ seat.old.id) × (result.table_id ≡ seat.old.table_id) }
    ensures left { seat.new.me ≡ (stays_with race mid workers seat.old.me.0, seat.old.me.1) }
    ensures right { result.me ≡ (goes_with race mid workers seat.old.me.0, []) }
{
    words.split_seat::<Parting<C>>(seat)
}

/// The seat takes in the other.
pub(crate) fn join(words: &Words, seat: &mut RaceSeat, other: RaceSeat)
    requires table { (seat.old.table_id ≡ words.now.table_id) × (other.table_id ≡ words.now.table_id) × (words.now.table_id.words ≡ 4097) }
    requires works { (0 < seat.old.me.0.workers) × (other.me.1 ≡ []) }
    ensures same { (seat.new.table_id ≡ seat.old.table_id) × (seat.new.id ≡ seat.old.id) }
    ensures view { seat.new.me ≡ (together seat.old.me.0 other.me.0, seat.old.me.1) }
{
    words.join_seat::<Rejoining>(seat, other);
}

/// The seat has at most 64 workers, and a pool end that it noted is at least its pool and below its top.
pub(crate) fn count(words: &Words, seat: &mut RaceSeat)
    requires table { (seat.old.table_id ≡ words.now.table_id) × (words.now.table_id.words ≡ 4097) }
    ensures same { (seat.new.table_id ≡ seat.old.table_id) × (seat.new.id ≡ seat.old.id) × (seat.new.me ≡ seat.old.me) }
    ensures few { seat.old.me.0.workers ≤ 64 }
    ensures ended { 0 < seat.old.me.0.workers → EndIs seat.old.me.0 }
{
    words.load::<Counting>(seat, 0);
}
