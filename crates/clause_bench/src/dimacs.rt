//! Clause sets in DIMACS form: lines `c ..` are comments, a line `p cnf VARS CLAUSES` comes first, and then the clauses, each
//! a row of numbers ended by 0. Number n stands for the variable n - 1, and -n for its negation.
ghost use Rattle.std.specs.Prelude.{◌≡◌, ◌≢◌, ◌∷◌, ◌++◌, [], map, pos, IfOk, true};
ghost use Rattle.clause_bench.specs.Written.{number, written};
ghost use Rattle.sat_core.specs.Clauses.{all_below};

use rup::{Clause, Lit};
use sat_core::are_below;
use std::alloc::{AllocError, Global};
use thiserror::Error;

/// Clauses over the variables below `vars`.
#[derive(Drop)]
pub struct ClauseSet {
    pub vars: u32,
    pub clauses: Vec<Clause>,
    ghost in_range: { all_below vars clauses.items ≡ true },
}

/// What is wrong with a text.
#[derive(Debug, Drop, Error)]
pub enum ReadError {
    #[error("no line `p cnf VARS CLAUSES` before the clauses")]
    Header,
    #[error("a word that is no number")]
    Word,
    #[error("a clause without its 0")]
    Open,
    #[error("another number of clauses than the first line says")]
    Count,
    #[error("a variable past those of the first line")]
    Range,
    #[error("no memory")]
    Memory(#[from] AllocError),
}

/// The clause set that a text spells.
pub fn read(alloc: Global, text: &str) -> Result<ClauseSet, ReadError> {
    let (vars, count, numbers) = numbers_of(alloc, text)?;
    let clauses = clauses_of(alloc, numbers.as_slice())?;
    if clauses.len() as u64 != count {
        return Err(ReadError::Count);
    }
    if !are_below(vars, clauses.as_slice()) {
        return Err(ReadError::Range);
    }
    Ok(ClauseSet { vars, clauses })
}

/// The number of the variables, that of the clauses, and the numbers that follow.
fn numbers_of(alloc: Global, text: &str) -> Result<(u32, u64, Vec<i32>), ReadError> {
    let mut header = None;
    let mut numbers = Vec::new(alloc);
    for line in text.lines() {
        if line.starts_with('c') {
            continue;
        }
        match header {
            None => header = Some(header_of(line)?),
            Some(_) => push_numbers(&mut numbers, line)?,
        }
    }
    let (vars, count) = header.ok_or(ReadError::Header)?;
    Ok((vars, count, numbers))
}

/// The number of the variables and that of the clauses.
fn header_of(line: &str) -> Result<(u32, u64), ReadError> {
    let mut words = line.split_whitespace();
    if words.next() != Some("p") || words.next() != Some("cnf") {
        return Err(ReadError::Header);
    }
    let vars = words.next().and_then(|word| word.parse::<u32>().ok());
    let count = words.next().and_then(|word| word.parse::<u64>().ok());
    match (vars, count, words.next()) {
        (Some(vars), Some(count), None) => Ok((vars, count)),
        _ => Err(ReadError::Header),
    }
}

/// Adds the numbers of a line.
fn push_numbers(numbers: &mut Vec<i32>, line: &str) -> Result<(), ReadError> {
    for word in line.split_whitespace() {
        match word.parse::<i32>() {
            Ok(number) => push(numbers, number)?,
            Err(_) => return Err(ReadError::Word),
        }
    }
    Ok(())
}

fn push(numbers: &mut Vec<i32>, number: i32) -> Result<(), AllocError> {
    numbers.push(number)?;
    Ok(())
}

/// The clauses that the numbers write.
fn clauses_of(alloc: Global, numbers: &[i32]) -> Result<Vec<Clause>, ReadError>
    ensures { IfOk result (λ clauses. written clauses.items ≡ numbers.now) }
{
    let mut clauses = Vec::new(alloc);
    let mut lits = Vec::new(alloc);
    for n in numbers {
        lits = take_number(alloc, &mut clauses, lits, *n)?;
    }
    if !lits.is_empty() {
        return Err(ReadError::Open);
    }
    Ok(clauses)
}

/// The literals of the clause that is open after one number more: 0 puts the clause among the others.
#[tactic(auto, using(crate::proofs::Writing::after_end, crate::proofs::Writing::after_lit))]
fn take_number(
    alloc: Global,
    clauses: &mut Vec<Clause>,
    lits: Vec<Lit>,
    n: i32,
) -> Result<Vec<Lit>, AllocError>
    ensures { IfOk result (λ open_lits. written clauses.new.items ++ map number open_lits.items ≡ (written clauses.old.items ++ map number lits.items) ++ n ∷ []) }
{
    if n == 0 {
        clauses.push(Clause::from_vec(lits))?;
        return Ok(Vec::new(alloc));
    }
    let mut longer = lits;
    longer.push(lit_of(n))?;
    Ok(longer)
}

/// The literal that a number writes.
fn lit_of(n: i32) -> Lit
    requires { n ≢ pos 0 }
    ensures { number result ≡ n }
{
    if n > 0 {
        Lit {
            var: n as u32 - 1,
            positive: true,
        }
    } else {
        Lit {
            var: !n as u32,
            positive: false,
        }
    }
}
