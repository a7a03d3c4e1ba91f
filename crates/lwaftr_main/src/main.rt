//! The program `lwaftr`.
#![tactic(auto)]

use lwaftr_program::run_program;
use std::fs;
use std::process::ExitCode;

// A file that can always be opened, and takes nothing where it is open for reading.
const NOTHING: &str = "/dev/null";

fn main(rt: HostRuntime) -> ExitCode {
    // A standard stream that was closed would give its number to the first file that is opened, and the summary would be
    // written into that. So each such number is taken first, by something that cannot be written to.
    let _streams = [
        fs::open(&rt, NOTHING),
        fs::open(&rt, NOTHING),
        fs::open(&rt, NOTHING),
    ];
    ExitCode::from(run_program(&rt))
}
