// Lists each cache of data/, under its name, and says how the listing ended: the cases at the listing's edges, and a folder, which can't be read.
#![tactic(auto)]

use listing::list;
use outcome::{Failure, Outcome, fail};
use std::fs;
use std::rt::Files;

// Each case, in the order in which it is listed.
const CASES: [&str; 12] = [
    "empty",
    "wrong_first_mark",
    "wrong_later_mark",
    "cut_in_mark",
    "cut_in_length",
    "cut_in_octets",
    "no_octets",
    "five_kinds",
    "unknown_kinds",
    "eight_and_nine_profiles",
    "longest",
    ".",
];

fn words_of(outcome: Outcome) -> &'static str {
    match outcome {
        Ok(()) => "done",
        Err(Failure::Broken) => "broken",
        Err(Failure::NotRead(_)) => "not read",
        Err(Failure::NotWritten(_)) => "not written",
    }
}

// Nobody is told of what can't be written.
fn list_file(rt: &(impl Files + Print + AllocGlobal), err: &impl Print, name: &str) {
    let _ = println!(rt; "{name}");
    match fs::open(rt, name) {
        Ok(mut file) => {
            let words = words_of(list(&mut file, rt, false));
            let _ = println!(rt; "{words}");
        }
        Err(error) => fail(err, rt.alloc(), name.as_bytes(), error),
    }
}

fn main(rt: HostRuntime) {
    let err = rt.stderr();
    for name in CASES {
        list_file(&rt, &err, name);
    }
}
