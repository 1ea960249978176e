// Lists the references of a cache that comes from standard input; its argument is the input's name.
#![tactic(auto)]

use listing::list;
use outcome::run_named;
use std::process::ExitCode;

fn main(rt: HostRuntime) -> ExitCode {
    run_named(&rt, || list(&mut rt.stdin(), &rt, false))
}
