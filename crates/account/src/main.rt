// The account program: reads packets on standard input to the end and prints what became of every payload byte.
#![tactic(auto)]

mod input;
mod listing;
mod progress;
mod reading;
mod tally;

use progress::Failed;
use std::io;
use std::process::ExitCode;

fn main(rt: HostRuntime) -> io::Result<ExitCode> {
    let mut source = reading::standard_input(rt.stdin());
    let mut buf = [0u8; 65536];
    let mut hold = [0u8; 4096];
    let mut out = [0u8; 4280];
    let p = input::account_of(&mut source, &mut buf, &mut hold, &mut out);
    match progress::ending_of(p) {
        Err(Failed) => {
            if let Some(e) = reading::failure_of(source) {
                eprintln!(rt; "standard input: {e}")?;
            }
            return Ok(ExitCode::FAILURE);
        }
        Ok(None) => listing::no_packets(&rt)?,
        Ok(Some(a)) => listing::print(&rt, a)?,
    }
    Ok(ExitCode::SUCCESS)
}
