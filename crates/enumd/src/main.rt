//! The program `enumd`.
#![tactic(auto)]

use command_line::answer;
use std::process::ExitCode;

fn main(rt: HostRuntime) -> ExitCode {
    answer(&rt)
}
