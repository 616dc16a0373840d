//! Terms and proofs as the tables write them.
//!
//! A term is written as its children and then a sign, with spaces between: `<` for at most, `=`, `~` for Iff, `!` for Not, `?` for
//! Ite, `*` for a numeral times a term, and `+2`, `&2` and `|2` for a Sum, an And and an Or of so many children. A small letter is a
//! Bool name, a large one an Int name; `:X` is the Bool name with the text `X`, and `.p` the Int name with the text `p`.
//!
//! The lines of a proof stand in their order, each ended by `;` but the last. A term is the number that it has in a list, from 1.

use qterm::{Name, Sort, Store, Term, TermId};
use sqlite_items::Items;
use std::alloc::{AllocError, Global};
use table_terms::{named, put, put_and, put_name, put_or, put_sum};
use tac_cert::{Close, Proof, Step};

/// The sort of the name that a word writes.
fn sort_of(word: &[u8]) -> Sort {
    match word {
        [b'.' | b'A'..=b'Z', ..] => Sort::Int,
        _ => Sort::Bool,
    }
}

/// The text of the name that a word writes.
fn text_of(word: &[u8]) -> &[u8] {
    match word {
        [b'.' | b':', text @ ..] => text,
        _ => word,
    }
}

/// The name that a word writes.
fn name_of(alloc: Global, word: &str) -> Result<Name, AllocError> {
    let word = word.as_bytes();
    named(alloc, text_of(word), sort_of(word))
}

/// The last term.
fn pop(stack: &mut Vec<TermId>) -> Result<TermId, AllocError> {
    Ok(stack.pop().ok_or(AllocError)?)
}

/// The last terms, in their order.
fn pop_all(stack: &mut Vec<TermId>, count: usize) -> Result<Vec<TermId>, AllocError> {
    let rest = stack.len().checked_sub(count).ok_or(AllocError)?;
    Ok(stack.split_off(rest)?)
}

/// The term of a sign over the last terms.
fn over(store: &Store, stack: &mut Vec<TermId>, sign: u8) -> Result<Term, AllocError> {
    let right = pop(stack)?;
    if sign == b'!' {
        return Ok(Term::Not(right));
    }
    let left = pop(stack)?;
    match sign {
        b'*' => scaled(store, left, right),
        b'<' => Ok(Term::Le(left, right)),
        b'=' => Ok(Term::Eq(left, right)),
        b'~' => Ok(Term::Iff(left, right)),
        _ => Ok(Term::Ite(pop(stack)?, left, right)),
    }
}

/// A number times a term.
fn scaled(store: &Store, by: TermId, of: TermId) -> Result<Term, AllocError> {
    if !store.has(by) {
        return Err(AllocError);
    }
    match store.view(by) {
        Term::Num(number) => Ok(Term::Scale(*number, of)),
        _ => Err(AllocError),
    }
}

/// The id of the term that a word gives, over the terms before it.
fn term(
    alloc: Global,
    store: &mut Store,
    stack: &mut Vec<TermId>,
    word: &str,
) -> Result<TermId, AllocError> {
    let bytes = word.as_bytes();
    let count = word.get(1..).unwrap_or("").parse::<usize>().ok();
    match (bytes, count) {
        ([b'+', ..], Some(count)) => Ok(put_sum(alloc, store, pop_all(stack, count)?.as_slice())?),
        ([b'&', ..], Some(count)) => Ok(put_and(alloc, store, pop_all(stack, count)?.as_slice())?),
        ([b'|', ..], Some(count)) => Ok(put_or(alloc, store, pop_all(stack, count)?.as_slice())?),
        ([b'0'..=b'9' | b'-', ..], _) => {
            let number = word.parse::<i128>().ok().ok_or(AllocError)?;
            Ok(put(store, Term::Num(number))?)
        }
        ([sign @ (b'!' | b'*' | b'<' | b'=' | b'~' | b'?')], _) => {
            let term = over(store, stack, *sign)?;
            Ok(put(store, term)?)
        }
        _ => plain(alloc, store, word),
    }
}

/// The id of a truth value or a name.
fn plain(alloc: Global, store: &mut Store, word: &str) -> Result<TermId, AllocError> {
    match word {
        "true" => Ok(put(store, Term::True)?),
        "false" => Ok(put(store, Term::False)?),
        _ => {
            let bytes = word.as_bytes();
            Ok(put_name(alloc, store, text_of(bytes), sort_of(bytes))?)
        }
    }
}

/// The terms of a text.
pub fn terms(alloc: Global, store: &mut Store, text: &str) -> Result<Vec<TermId>, AllocError> {
    let mut stack = Vec::new(alloc);
    for word in text.split_whitespace() {
        let id = term(alloc, store, &mut stack, word)?;
        stack.push(id)?;
    }
    Ok(stack)
}

/// What the words of a line are read with: the memory, and the terms by their numbers.
#[derive(Clone, Copy)]
struct Reader<'a> {
    alloc: Global,
    terms: &'a [TermId],
}

/// The number that a word writes.
fn number(words: &[&str], at: usize) -> Result<u32, AllocError> {
    Ok(
        words
            .get(at)
            .and_then(|word| word.trim_start_matches('#').parse::<u32>().ok())
            .ok_or(AllocError)?,
    )
}

/// The number that a word writes, of 128 bits.
fn wide(words: &[&str], at: usize) -> Result<i128, AllocError> {
    Ok(
        words
            .get(at)
            .and_then(|word| word.parse::<i128>().ok())
            .ok_or(AllocError)?,
    )
}

impl Reader<'_> {
    /// The numbers that the words write.
    fn numbers(&self, words: &[&str]) -> Result<Items<u32>, AllocError> {
        let mut all = Items::new(self.alloc);
        for at in 0..words.len() {
            all.push(number(words, at)?)?;
        }
        Ok(all)
    }

    /// The names that the words write.
    fn names(&self, words: &[&str]) -> Result<Items<Name>, AllocError> {
        let mut all = Items::new(self.alloc);
        for word in words {
            all.push(name_of(self.alloc, word)?)?;
        }
        Ok(all)
    }

    /// The name that a word writes.
    fn name(&self, words: &[&str], at: usize) -> Result<Name, AllocError> {
        Ok(name_of(self.alloc, words.get(at).ok_or(AllocError)?)?)
    }

    /// The term whose number a word writes.
    fn term(&self, words: &[&str], at: usize) -> Result<TermId, AllocError> {
        let number = number(words, at)? as usize;
        Ok(*self.terms.get(number.wrapping_sub(1)).ok_or(AllocError)?)
    }

    /// The step of a line about formulas.
    fn step(&self, rule: &str, words: &[&str]) -> Result<Step, AllocError> {
        match rule {
            "rw" => Ok(Step::Rw {
                item: number(words, 0)?,
                formula: self.term(words, 1)?,
            }),
            "keep" => Ok(Step::Keep {
                items: self.numbers(words)?,
            }),
            "and" => Ok(Step::Part {
                item: number(words, 0)?,
                part: number(words, 1)?,
            }),
            "def" => Ok(Step::Def {
                name: self.name(words, 0)?,
                term: self.term(words, 1)?,
            }),
            "subst" => Ok(Step::Subst {
                item: number(words, 0)?,
                from: self.term(words, 1)?,
                to: self.term(words, 2)?,
                target: number(words, 3)?,
            }),
            "ite" => Ok(Step::IteParts {
                item: number(words, 0)?,
            }),
            "table" => Ok(Step::Table {
                item: number(words, 0)?,
                clause: self.term(words, 1)?,
            }),
            "rup" => Ok(Step::Rup {
                clause: self.term(words, 0)?,
                hints: self.numbers(words.get(1..).ok_or(AllocError)?)?,
            }),
            _ => self.word_step(rule, words),
        }
    }

    /// The step of a line about bounds and words.
    fn word_step(&self, rule: &str, words: &[&str]) -> Result<Step, AllocError> {
        match rule {
            "range" => Ok(Step::Range {
                item: number(words, 0)?,
            }),
            "bits" => Ok(Step::Bits {
                name: self.name(words, 0)?,
                bits: self.rest(words, 1)?,
            }),
            "bit" => Ok(Step::Bit {
                name: self.name(words, 0)?,
                flag: self.name(words, 1)?,
            }),
            "mul" => Ok(Step::Mul {
                word: number(words, 0)?,
                by: wide(words, 1)?,
            }),
            "add" => Ok(Step::Add {
                left: number(words, 0)?,
                right: number(words, 1)?,
                names: self.rest(words, 2)?,
            }),
            "cmp" => Ok(Step::Cmp {
                word: number(words, 0)?,
                bound: wide(words, 1)?,
                names: self.rest(words, 2)?,
            }),
            "eqc" => Ok(Step::Eqc {
                word: number(words, 0)?,
                bound: wide(words, 1)?,
                names: self.rest(words, 2)?,
            }),
            _ => Err(AllocError),
        }
    }

    /// The names that the words from a place on write.
    fn rest(&self, words: &[&str], from: usize) -> Result<Items<Name>, AllocError> {
        self.names(words.get(from..).ok_or(AllocError)?)
    }
}

/// A proof whose first lines are still to come, its steps from the last to the first.
#[derive(Drop)]
struct Open {
    steps: Vec<Step>,
    close: Close,
}

/// The proof, where no line is to come.
fn closed(open: Open) -> Proof {
    let Open { mut steps, close } = open;
    steps.reverse();
    Proof {
        steps: Items::from_vec(steps),
        close,
    }
}

/// The last proof.
fn pop_proof(open: &mut Vec<Open>) -> Result<Proof, AllocError> {
    Ok(closed(open.pop().ok_or(AllocError)?))
}

/// The proof of a text.
pub fn proof(alloc: Global, terms: &[TermId], text: &str) -> Result<Proof, AllocError> {
    let reader = Reader { alloc, terms };
    let lines: Vec<&str> = text.split(';').collect(alloc)?;
    let mut open = Vec::new(alloc);
    for line in lines.iter().rev() {
        take(reader, &mut open, line)?;
    }
    pop_proof(&mut open)
}

/// Takes in the line before those that were taken in.
fn take(reader: Reader<'_>, open: &mut Vec<Open>, line: &str) -> Result<(), AllocError> {
    let all: Vec<&str> = line.split_whitespace().collect(reader.alloc)?;
    let (rule, words) = all.split_first().ok_or(AllocError)?;
    let close = match *rule {
        "false" => Close::False(number(words, 0)?),
        "split" => {
            let mut cases = Items::new(reader.alloc);
            for _ in 0..number(words, 1)? {
                cases.push(pop_proof(open)?)?;
            }
            Close::Split {
                item: number(words, 0)?,
                cases,
            }
        }
        _ => {
            let step = reader.step(rule, words)?;
            let mut proof = open.pop().ok_or(AllocError)?;
            proof.steps.push(step)?;
            open.push(proof)?;
            return Ok(());
        }
    };
    open.push(Open {
        steps: Vec::new(reader.alloc),
        close,
    })?;
    Ok(())
}
