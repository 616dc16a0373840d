// What contracts see of a seat. No value of these types but `Terms` is made when the program runs.
use std::collections::LinkedList;

/// A branch of a race that a seat has: of how many branches, and whether with its win.
pub struct Held {
    pub race: u64,
    pub of: u64,
    pub branch: u64,
    pub won: bool,
}

/// A race's word as it was loaded: 0, or the winner's branch plus 1.
pub struct Note {
    pub race: u64,
    pub word: u64,
}

/// What a seat knows: its workers; the branches that it has; the words that it loaded; its numbers of opens, polls and
/// draws; whether a race was refused to it; the ticket that showed it the pool's end; its top, one more than the greatest
/// ticket that it, or a seat that it came from or took in, had drawn by then; and the pool.
pub struct View {
    pub workers: u64,
    pub parts: LinkedList<Held>,
    pub seen: LinkedList<Note>,
    pub races: u64,
    pub polls: u64,
    pub draws: u64,
    pub refused: bool,
    pub end: Option<u64>,
    pub top: u64,
    pub pool: u64,
}

/// What a table is made for: how many lemmas may be drawn before the pool's end, and the workers of all seats.
#[derive(Clone, Copy)]
pub struct Terms {
    pub pool: u64,
    pub workers: u64,
}
