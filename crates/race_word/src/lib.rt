// The race table: words that several threads step on, and the seats from which racers step. The layer above opens races,
// enters branches, polls, wins, draws lemmas, parts its racer and takes it back; no call but `Races::start` takes memory.
// The clauses of a call say how the racer's view changes, and in the words of specs/Has.antt and specs/Keeps.antt what the
// racer then has; proofs/Having.antt and proofs/Racers.antt have lemmas on these words. The laws tie the words of the table
// to the race machine of `race_core`. The steps are those of `atomic_table`.
#![tactic(auto)]

mod law;
mod place;
mod racer;
mod rule;
mod view;

pub use law::{
    machine_steps_show_their_events, steps_show_their_events, table_and_machine_show_the_same,
    table_and_machine_stay_together, the_rule_holds_at_every_moment,
};
pub use place::{Place, PoolEnd, RaceNo, Seen, Totals, Won};
pub use racer::{Racer, Races};
pub use view::{Held, Note, Terms, View};
