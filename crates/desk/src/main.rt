//! The program `desk`.
#![tactic(auto)]

use std::env;
use std::process::ExitCode;

fn main(rt: HostRuntime) -> ExitCode {
    let args = env::args(&rt);
    let status = contest_cli::start(&rt, args, rt.stdin(), rt.stdout(), rt.stderr());
    ExitCode::from(status)
}
