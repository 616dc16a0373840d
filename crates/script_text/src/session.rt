//! A session: declared names and assertions with the levels that they stand in.
//!
//! What each call makes of a session over the trees of a store is told by `proofs/Levels.antt`.
ghost use Rattle.std.specs.Prelude.{◌≡◌, ◌++◌, ◌∷◌, [], OnOk, take, replicate, false};
ghost use Rattle.script_text.specs.Levels as spec;

use qterm::{Name, TermId};
use sqlite_items::Items;
use std::alloc::{AllocError, Global};

/// How many names and assertions there were when a level was opened.
#[derive(Clone, Copy, Debug, PartialEq, Eq)]
pub struct Mark {
    pub names: usize,
    pub asserts: usize,
}

/// What stands between two commands.
#[derive(Drop)]
pub struct Session {
    /// The declared names in force, in order.
    pub names: Items<Name>,
    /// The assertions in force, in order.
    pub asserts: Items<TermId>,
    /// The levels that are open, the outermost first.
    pub marks: Items<Mark>,
    /// Whether success is told.
    pub print_success: bool,
    /// How many checks there were.
    pub checks: u32,
    /// Whether the answer of the last check may be shown.
    pub shows: bool,
}

/// The session before the first command.
pub fn begin(alloc: Global) -> Session
    ensures { result ≡ record { names = []; asserts = []; marks = []; print_success = false; checks = 0; shows = false } }
{
    Session {
        names: Items::new(alloc),
        asserts: Items::new(alloc),
        marks: Items::new(alloc),
        print_success: false,
        checks: 0,
        shows: false,
    }
}

/// Declares a name.
pub fn declare(session: &mut Session, name: &Name) -> Result<(), AllocError>
    ensures { OnOk result (session.new ≡ record session.old { names = session.old.names ++ name.now ∷ []; shows = false }) }
{
    session.names.push(name.clone()?)?;
    session.shows = false;
    Ok(())
}

/// Asserts a formula.
pub fn assert_formula(session: &mut Session, id: TermId) -> Result<(), AllocError>
    ensures { OnOk result (session.new ≡ record session.old { asserts = session.old.asserts ++ id ∷ []; shows = false }) }
{
    session.asserts.push(id)?;
    session.shows = false;
    Ok(())
}

/// Opens so many levels.
pub fn push_levels(session: &mut Session, levels: u32) -> Result<(), AllocError>
    ensures { OnOk result (session.new ≡ record session.old { marks = session.old.marks ++ replicate levels (spec.mark_in session.old); shows = false }) }
{
    let mark = Mark {
        names: session.names.len(),
        asserts: session.asserts.len(),
    };
    open_levels(&mut session.marks, mark, levels)?;
    session.shows = false;
    Ok(())
}

// Opens so many levels at a mark.
fn open_levels(marks: &mut Items<Mark>, mark: Mark, levels: u32) -> Result<(), AllocError>
    ensures { OnOk result (marks.new ≡ marks.old ++ replicate levels mark) }
{
    for _at in 0..levels {
        marks.push(mark)?;
    }
    Ok(())
}

/// Closes so many levels, or all where there are fewer.
pub fn pop_levels(session: &mut Session, levels: u32)
    ensures { session.new ≡ spec.closed session.old levels }
{
    let left = session.marks.len().saturating_sub(levels as usize);
    if left < session.marks.len() {
        let Mark { names, asserts } = session.marks.as_slice()[left];
        cut(&mut session.names, names);
        cut(&mut session.asserts, asserts);
        cut(&mut session.marks, left);
    }
    session.shows = false;
}

// Takes away all but the first so many.
fn cut<T: Drop>(items: &mut Items<T>, count: usize)
    ensures { items.new ≡ take count items.old }
{
    while items.len() > count {
        let _last = items.pop();
    }
}

/// Takes all levels, names and assertions away.
pub fn reset(session: &mut Session)
    ensures { session.new ≡ record session.old { names = []; asserts = []; marks = []; shows = false } }
{
    cut(&mut session.names, 0);
    cut(&mut session.asserts, 0);
    cut(&mut session.marks, 0);
    session.shows = false;
}
