// How a run ended, told to whoever started the program. A program that was started with an argument, which names its input, ends with the status of its
// run: 0 all is well, 1 the input is broken, 2 the input can't be read or the output can't be written. One without an argument ends with 0. Either ends
// with 141 where nobody reads the output any more.
#![tactic(auto)]

ghost use Rattle.std.specs.Prelude.{◌≡◌, Ok, Err, Bool, is_some, cond, MatchResult};
ghost use Rattle.std.specs.Process.{exit_status};
ghost use Rattle.outcome.specs.Status.{status_of};
ghost use Rattle.outcome.specs.declared.Failure.TheVariants.{NotWritten};

use std::alloc::Global;
use std::env::FillError;
use std::io;
use std::io::ErrorKind;
use std::process::ExitCode;
use std::rt::Env;

// The status where nobody reads the output any more: that of a program which the signal of a broken pipe ended.
const UNREAD: u8 = 141;

// Why a run ended before all was done.
#[derive(Drop)]
pub enum Failure {
    Broken,
    NotRead(io::Error),
    NotWritten(io::Error),
}

pub type Outcome = Result<(), Failure>;

// The program's argument, which then stands in `room`; none without one. One that is longer than a path can be has no name.
pub fn input_name<'a>(rt: &impl Env, room: &'a mut [u8; 4096]) -> Option<&'a [u8]> {
    match rt.arg(1, room) {
        Ok(n) => Some(&room[..n]),
        Err(FillError::TooLong) => Some(b""),
        Err(FillError::NotPresent) => None,
    }
}

fn tell_status(status: u8, is_named: bool) -> ExitCode
    ensures { exit_status result ≡ cond is_named status 0 }
{
    if is_named {
        return ExitCode::from(status);
    }
    ExitCode::SUCCESS
}

// The system's words on an error, without the number that std puts behind them.
fn words_of(error: &str) -> &str {
    match error.split_once(" (os error ") {
        Some((words, _)) => words,
        None => error,
    }
}

// A line on `err`: what failed, a colon and why. Where it can't be written nobody is told.
pub fn fail(err: &impl Print, alloc: Global, what: &[u8], error: io::Error) {
    let _ = err.write_all(what);
    let _ = match format!(in alloc; "{error}") {
        Ok(text) => {
            let words = words_of(text.as_str());
            println!(err; ": {words}")
        }
        Err(_) => println!(err; ": {error}"),
    };
}

// Says why the input was not read. An input without a name is standard input.
fn say_not_read(err: &impl Print, alloc: Global, name: Option<&[u8]>, error: io::Error) {
    match name {
        Some(name) if name.len() > 0 => fail(err, alloc, name, error),
        _ => fail(err, alloc, b"standard input", error),
    }
}

// The status of an output that can't be written, and on `err` why, if anybody reads it.
fn tell_not_written(err: &impl Print, alloc: Global, error: io::Error, is_named: bool) -> ExitCode
    ensures { exit_status result ≡ status_of is_named (Err (NotWritten error)) }
{
    if let ErrorKind::BrokenPipe = error.kind() {
        return ExitCode::from(UNREAD);
    }
    fail(err, alloc, b"standard output", error);
    tell_status(2, is_named)
}

// Tells the outcome of a run on the input of that name: on `err` what failed, and the status that the program is to end with.
pub fn tell(err: &impl Print, alloc: Global, outcome: Outcome, name: Option<&[u8]>) -> ExitCode
    ensures { exit_status result ≡ status_of (is_some name.entry) outcome }
{
    let is_named = name.is_some();
    match outcome {
        Ok(()) => tell_status(0, is_named),
        Err(Failure::Broken) => tell_status(1, is_named),
        Err(Failure::NotRead(error)) => {
            say_not_read(err, alloc, name, error);
            tell_status(2, is_named)
        }
        Err(Failure::NotWritten(error)) => tell_not_written(err, alloc, error, is_named),
    }
}

// The outcome of a program that only writes.
pub fn tell_written(
    err: &impl Print,
    alloc: Global,
    written: io::Result<()>,
    name: Option<&[u8]>,
) -> ExitCode
    ensures { MatchResult written (λ _. exit_status result ≡ status_of (is_some name.entry) (Ok tt)) (λ e. exit_status result ≡ status_of (is_some name.entry) (Err (NotWritten e))) }
{
    match written {
        Ok(()) => tell(err, alloc, Ok(()), name),
        Err(error) => tell(err, alloc, Err(Failure::NotWritten(error)), name),
    }
}

// A whole program: runs it, and tells its outcome by the name that its argument gives the input.
pub fn run_named<F: FnOnce() -> Outcome>(rt: &HostRuntime, run: F) -> ExitCode
    requires { F.IsAlwaysCallable run }
    ensures { (outcome : _) × F.post run outcome × ((named : Bool) × (exit_status result ≡ status_of named outcome)) }
{
    let mut room = [0u8; 4096];
    let name = input_name(rt, &mut room);
    let outcome = run();
    tell(&rt.stderr(), rt.alloc(), outcome, name)
}
