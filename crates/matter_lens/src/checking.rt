//! Whether a configuration is one, in words: which row, field and rule is wrong, or what the node then is.

use crate::faults::{Fault, Which};
use mt_check::{Verdict, check, explain};
use std::fs;
use std::io::{self, Write};

// The status where the configuration is none.
const BAD: u8 = 3;

/// Checks the configuration of this name, shows what is found, and answers the exit status.
pub(crate) fn tell(rt: &HostRuntime, name: &str) -> Result<u8, Fault> {
    let Ok(bytes) = fs::read(rt, name) else {
        return Err(Fault::Unread(Which::Configuration));
    };
    let checked = check(rt.alloc(), &bytes)?;
    let text = explain(rt.alloc(), &checked)?;
    let Ok(()) = io::writer(rt).write_all(text.as_bytes()) else {
        return Err(Fault::Unwritten);
    };
    match &checked.verdict {
        Verdict::Good(_) => Ok(0),
        Verdict::Bad { .. } => Ok(BAD),
    }
}
