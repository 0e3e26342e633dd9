//! Prints what the table of fabrics and the fail-safe answer, and what the commands come to by which a node is
//! commissioned. What must be printed is worked out outside of the program.
//!
//! - `calls.txt`: calls of the table and of the fail-safe, a line each (`calls`);
//! - `cases.txt`: commands of General Commissioning, Network Commissioning, Operational Credentials, Administrator
//!   Commissioning and Group Key Management, and what a time step makes of a commissioning window (`commands`), over
//!   the configuration in `config.json`, which has the verdicts too.
#![tactic(auto)]

mod calls;
mod commands;
mod fabric_calls;
mod failsafe_calls;
mod rows;
mod state;
mod telling;
mod words;

use cases_page::{Page, no_case};
use mt_files::config;
use std::{fs, io};

fn main(rt: HostRuntime) -> io::Result<()> {
    let mut page = Page::new(rt.alloc());
    let calls = fs::read_to_string(&rt, "calls.txt")?;
    calls::tell(rt.alloc(), &mut page, calls.as_str())?;
    tell_commands(&rt, &mut page)?;
    print!(rt; "{}", page.whole()?)
}

fn tell_commands(rt: &HostRuntime, page: &mut Page) -> io::Result<()> {
    let cases = fs::read_to_string(rt, "cases.txt")?;
    let text = fs::read_to_string(rt, "config.json")?;
    match config(rt.alloc(), text.as_bytes()) {
        Ok(config) => commands::tell(rt.alloc(), page, &config, cases.as_str()),
        Err(_) => Err(no_case()),
    }
}
