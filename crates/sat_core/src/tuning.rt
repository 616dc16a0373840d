//! Numbers that say how the search goes about. They matter for speed alone.

/// By how much a conflict raises the score of a variable at first, and the most that it may come to.
pub const FIRST_STEP: u64 = 1024;

pub const LAST_STEP: u64 = 1 << 60;

/// After a conflict the step grows by one part in so many.
pub const STEP_PARTS: u64 = 32;

/// The search starts again after so many lemmas times a number of the Luby sequence.
pub const RESTART_LEMMAS: u64 = 2048;
