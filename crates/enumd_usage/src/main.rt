//! The program `enumd`, run on words that are no request.
#![tactic(auto)]

use command_line::answer;
use std::process::ExitCode;

fn main(rt: HostRuntime) -> ExitCode {
    answer(&rt)
}
