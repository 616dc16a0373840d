// What holds of the table over every run of its seats. Nothing is run: each function stands for the law that it ensures.
// The laws speak of the same definitions, specs/Views.antt, as the clauses of the racer's calls.
ghost use Rattle.race_word.specs.Moments.{RuleHolds, ShowTheSame};
ghost use Rattle.race_word.specs.Shown.{MachineShows, StepsShow, StayTogether};

/// The rule's six points hold of every table that steps of its seats lead to from the start.
pub fn the_rule_holds_at_every_moment()
    ensures { RuleHolds }
{}

/// Each step of the table keeps the rule, and changes what the table shows as its event does.
pub fn steps_show_their_events()
    ensures { StepsShow }
{}

/// Each step of the race machine changes what its state shows as the step's event does.
pub fn machine_steps_show_their_events()
    ensures { MachineShows }
{}

/// Where the table and a state of the machine show the same, they do so after a step of the table and the machine's step
/// that has its event.
pub fn table_and_machine_stay_together()
    ensures { StayTogether }
{}

/// From the start on, the table and the machine show the same after each step of the table with the machine's step that
/// has its event, and after each step of the table that shows nothing.
pub fn table_and_machine_show_the_same()
    ensures { ShowTheSame }
{}
