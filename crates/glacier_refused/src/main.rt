//! The program once more: its stored run is refused.
#![tactic(auto)]

use gl_top_program::program;
use std::process::ExitCode;

fn main(rt: HostRuntime) -> ExitCode {
    program(rt)
}
