//! The lines of terms.
//!
//! A term may be thousands of levels deep, so no call nests with it: the terms that are yet to be written stand on a stack.
ghost use Rattle.std.specs.Prelude.{◌≡◌, ◌<◌, ◌++◌, ◌∷◌, [], All, map, OnOk};
ghost use Rattle.std.specs.Fmt.{signed_decimal};
ghost use Rattle.strat_text.specs.Spelled.{spaced};
ghost use Rattle.qterm.specs.Store.{Has, tree_at, trees_of};
ghost use Rattle.qterm.specs.Kids.{kids, listed};
ghost use Rattle.qwalk.specs.Subterms.{subterms};
ghost use Rattle.cert_text.specs.TermLines as spec;
ghost use Rattle.cert_text.specs.Waiting.{AreLines, HaveLines, IsReady, Visited, waiting, costs};

use crate::lines::Lines;
use crate::words::{push_integer, push_name, push_word, put};
use itoa::Buffer;
use qterm::{Sort, Store, Term, TermId};
use std::alloc::{AllocError, Global};

/// A term that is yet to be written.
#[derive(Clone, Copy)]
pub(crate) enum Task {
    /// The lines of the terms below the term, and its own.
    Visit(TermId),
    /// The line of the term.
    Line(TermId),
}

/// Adds the lines of a term and of the terms below it, as far as they have none.
pub(crate) fn push_terms(
    alloc: Global,
    text: &mut Vec<u8>,
    lines: &mut Lines,
    store: &Store,
    id: TermId,
) -> Result<(), AllocError>
    requires has { Has store.now id }
    requires lines { AreLines store.now lines.old }
    ensures text { OnOk result (text.new.items ≡ text.old.items ++ spec.term_lines (trees_of store.now lines.old) (subterms (tree_at store.now id))) }
    ensures known { OnOk result (trees_of store.now lines.new ≡ spec.with_lines (trees_of store.now lines.old) (subterms (tree_at store.now id))) }
    ensures lines { OnOk result (AreLines store.now lines.new) }
{
    let mut tasks = Vec::new(alloc);
    tasks.push(Task::Visit(id))?;
    while let Some(task) = tasks.pop() {
        turn(text, lines, &mut tasks, store, task)?;
    }
    Ok(())
}

/// Does the task that was on top of the stack, or puts those that it consists of on the stack.
fn turn(
    text: &mut Vec<u8>,
    lines: &mut Lines,
    tasks: &mut Vec<Task>,
    store: &Store,
    task: Task,
) -> Result<(), AllocError>
    requires ready { IsReady store.now lines.old (tasks.old.items ++ task ∷ []) }
    ensures ready { OnOk result (IsReady store.now lines.new tasks.new.items) }
    ensures text { OnOk result (text.new.items ++ spec.term_lines (trees_of store.now lines.new) (waiting store.now tasks.new.items) ≡ text.old.items ++ spec.term_lines (trees_of store.now lines.old) (waiting store.now (tasks.old.items ++ task ∷ []))) }
    ensures known { OnOk result (spec.with_lines (trees_of store.now lines.new) (waiting store.now tasks.new.items) ≡ spec.with_lines (trees_of store.now lines.old) (waiting store.now (tasks.old.items ++ task ∷ []))) }
    ensures less { OnOk result (costs store.now tasks.new.items < costs store.now (tasks.old.items ++ task ∷ [])) }
{
    store.is_distinct();
    match task {
        Task::Visit(id) => visit(lines, tasks, store, id),
        Task::Line(id) => write_line(text, lines, store, id),
    }
}

/// Puts visits of the terms below a term without a line, and its line behind them, on the stack.
fn visit(lines: &Lines, tasks: &mut Vec<Task>, store: &Store, id: TermId) -> Result<(), AllocError>
    requires has { Has store.now id }
    requires lines { All (Has store.now) lines.now }
    ensures { OnOk result (Visited store.now (trees_of store.now lines.now) id tasks.old.items tasks.new.items) }
{
    store.is_distinct();
    if lines.place(id).is_some() {
        return Ok(());
    }
    tasks.push(Task::Line(id))?;
    let term = store.view(id);
    let mut at = term.count();
    while at > 0 {
        at -= 1;
        tasks.push(Task::Visit(term.child(at)))?;
    }
    Ok(())
}

/// Writes the line of a term, unless it has one.
fn write_line(
    text: &mut Vec<u8>,
    lines: &mut Lines,
    store: &Store,
    id: TermId,
) -> Result<(), AllocError>
    requires has { Has store.now id }
    requires lines { AreLines store.now lines.old }
    requires due { HaveLines (trees_of store.now lines.old) (kids (tree_at store.now id)) }
    ensures text { OnOk result (text.new.items ≡ text.old.items ++ spec.term_lines (trees_of store.now lines.old) (tree_at store.now id ∷ [])) }
    ensures known { OnOk result (trees_of store.now lines.new ≡ spec.with_lines (trees_of store.now lines.old) (tree_at store.now id ∷ [])) }
    ensures lines { OnOk result (AreLines store.now lines.new) }
{
    store.is_distinct();
    if lines.place(id).is_some() {
        return Ok(());
    }
    put(text, b".")?;
    push_head(text, store, id)?;
    push_children(text, lines, store, id)?;
    put(text, b"\n")?;
    lines.add(id)
}

/// Adds what the line of a term has before its children.
fn push_head(text: &mut Vec<u8>, store: &Store, id: TermId) -> Result<(), AllocError>
    requires has { Has store.now id }
    ensures { OnOk result (text.new.items ≡ text.old.items ++ spaced (spec.head_texts (tree_at store.now id))) }
{
    match store.view(id) {
        Term::True => push_word(text, b"true"),
        Term::False => push_word(text, b"false"),
        Term::Var(name) => {
            push_word(text, sort_word(name.sort()))?;
            push_name(text, name)
        }
        Term::Num(number) => push_numbered(text, b"num", *number),
        Term::Sum(_) => push_word(text, b"sum"),
        Term::Scale(by, _) => push_numbered(text, b"mul", *by),
        Term::Le(_, _) => push_word(text, b"le"),
        Term::Eq(_, _) => push_word(text, b"eq"),
        Term::Iff(_, _) => push_word(text, b"iff"),
        Term::Not(_) => push_word(text, b"not"),
        Term::And(_) => push_word(text, b"and"),
        Term::Or(_) => push_word(text, b"or"),
        Term::Ite(_, _, _) => push_word(text, b"ite"),
    }
}

/// Adds a word and a number.
fn push_numbered(text: &mut Vec<u8>, word: &[u8], number: i128) -> Result<(), AllocError>
    ensures { OnOk result (text.new.items ≡ text.old.items ++ spaced (word.now ∷ signed_decimal number ∷ [])) }
{
    push_word(text, word)?;
    push_integer(text, number)
}

/// The word of a sort.
fn sort_word(sort: Sort) -> &'static [u8]
    ensures { result.now ≡ spec.sort_word sort }
{
    match sort {
        Sort::Bool => b"bool",
        Sort::Int => b"int",
    }
}

/// Adds references to the children of a term.
fn push_children(
    text: &mut Vec<u8>,
    lines: &Lines,
    store: &Store,
    id: TermId,
) -> Result<(), AllocError>
    requires has { Has store.now id }
    requires lines { All (Has store.now) lines.now }
    ensures { OnOk result (text.new.items ≡ text.old.items ++ spaced (map (spec.reference (trees_of store.now lines.now)) (listed (kids (tree_at store.now id))))) }
{
    let term = store.view(id);
    for at in 0..term.count() {
        push_reference(text, lines, store, term.child(at))?;
    }
    Ok(())
}

/// Adds a reference to a term.
pub(crate) fn push_reference(
    text: &mut Vec<u8>,
    lines: &Lines,
    store: &Store,
    id: TermId,
) -> Result<(), AllocError>
    requires has { Has store.now id }
    requires lines { All (Has store.now) lines.now }
    ensures { OnOk result (text.new.items ≡ text.old.items ++ spaced (spec.reference (trees_of store.now lines.now) (tree_at store.now id) ∷ [])) }
{
    store.is_distinct();
    let place = lines.place(id).unwrap_or(lines.len());
    let mut buffer = Buffer::new();
    put(text, b" #")?;
    put(text, buffer.format(place as u128 + 1).as_bytes())
}
