//! The program `enumd`, run on words that ask for a report without an end.
#![tactic(auto)]

use command_line::answer;
use std::process::ExitCode;

fn main(rt: HostRuntime) -> ExitCode {
    answer(&rt)
}
