//! Makes a certificate of the kind and the number of steps that standard input says, checks it, and writes one line: the number of
//! steps and what the check says. After the word `make` it is only made.
//!
//! It is there to time `check` from the outside: `bench/time_check.sh` runs it.
#![tactic(auto)]

mod made;

use cert_check::Verdict;
use made::{kind_of, make};
use std::alloc::{AllocError, Global};
use std::io;

fn main(rt: HostRuntime) -> io::Result<()> {
    let text = io::read_to_string(rt.alloc(), rt.reader())?;
    let said = answer(rt.alloc(), text.as_str())?;
    println!(rt; "{said}")
}

/// What is done at the words of a text: `rup COUNT`, `rw COUNT`, or one of them after `make`.
fn answer(alloc: Global, text: &str) -> Result<&'static str, AllocError> {
    let mut words = text.split_whitespace();
    let mut word = words.next().unwrap_or("");
    let is_made = word == "make";
    if is_made {
        word = words.next().unwrap_or("");
    }
    let count = words.next().and_then(|count| count.parse::<u32>().ok());
    let (Some(kind), Some(count)) = (kind_of(word), count) else {
        return Ok("usage: [make] rup|rw COUNT");
    };
    let mut certificate = make(alloc, kind, count)?;
    if is_made {
        return Ok("made");
    }
    match certificate.verdict(alloc)? {
        Verdict::Accepted => Ok("accepted"),
        Verdict::Refused { .. } => Ok("refused"),
    }
}
