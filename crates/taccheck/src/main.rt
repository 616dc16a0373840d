//! Reads a script from a file and a certificate from standard input, and tells on standard output whether the certificate is accepted.
//!
//! This is the trusted edge: it opens the file, makes the real sources and the sink, calls the top call and ends with its status.
#![tactic(auto)]

use check_front::{check_run, script_path};
use sexp_read::{StdSink, StdSource};
use std::fs::File;
use std::process::ExitCode;
use std::{env, io};

fn main(rt: HostRuntime) -> ExitCode {
    let words = words(&rt);
    let mut script = script_source(&rt, &words);
    let mut cert = StdSource::new(rt.reader());
    let mut out = StdSink::new(io::writer(&rt));
    ExitCode::from(check_run(rt.alloc(), &words, &mut script, &mut cert, &mut out))
}

// The script's file; one that can't be opened fails at its first read, and without a lawful word none is opened.
fn script_source(rt: &HostRuntime, words: &[String]) -> StdSource<File> {
    let Some(path) = script_path(words) else {
        return StdSource::missing();
    };
    match File::open(rt, path.as_str()) {
        Ok(file) => StdSource::new(file),
        Err(_) => StdSource::missing(),
    }
}

// The words of the command line, without the program's name; one that is no text counts as a wrong word. There are none at all
// where there is no memory for one of them, so that no file is taken for another.
fn words(rt: &HostRuntime) -> Vec<String> {
    let mut words = Vec::new(rt.alloc());
    let Ok(all) = env::args(rt) else {
        return words;
    };
    for word in all.skip(1) {
        if words.push(word).is_err() {
            return Vec::new(rt.alloc());
        }
    }
    words
}
