// Reads a sheet of wrapping tasks from standard input and prints their lines (document 01, module 7). All that it does is `run` of `rows`.
#![tactic(auto)]

use std::env::Env;

// An argument that is not there, or is longer than the buffer, is taken as an empty one.
fn main(rt: HostRuntime) {
    let mut argument = [0; 4096];
    let n = rt.arg(1, &mut argument).unwrap_or(0);
    rows::run(
        &argument[..n],
        &mut rt.stdin(),
        &mut rt.stdout(),
        &mut rt.stderr(),
    );
}
