// Runs the cases of the bench set through the proved calls, and prints a line for each answer.
#![tactic(auto)]

mod frames;
mod say;
mod sky;

use std::io;

fn main(rt: HostRuntime) -> io::Result<()> {
    frames::run(&rt)?;
    sky::run(&rt)?;
    frames::run_lone(&rt)
}
