//! Calls of the table of fabrics and of the fail-safe. Each line is a call, and what must be printed for it is worked
//! out by hand from the rules on them. Numbers are in decimal digits, and `-` stands for an empty label:
//!
//! - `table`: a table with no fabric; `copy-table`;
//! - `add key id label`, `update index key id`, `remove index`, `label index label`: the root's public key is the one byte,
//!   and the id of what goes is told;
//! - `fabrics`: the index, the id and the label of each; `by key id`;
//! - `failsafe`: one that is not armed; `adding`: one that fabric 1 armed, and fabric 2 was added since; `copy-failsafe`;
//! - `arm owner ms seconds`, `renew owner ms seconds`, `expire`, `complete CASE|PASE fabric`, `note`: a root, where that may be;
//! - `until`: when it ends, 0 where it is not armed;
//! - `orders calls`: two calls on a new fail-safe, and what each of the five answers behind them;
//! - any other line is a title.

use crate::fabric_calls::Table;
use crate::failsafe_calls::Timer;
use cases_page::{Page, word};
use std::alloc::{AllocError, Global};

/// Tells each line, and what the call answers.
pub(crate) fn tell(alloc: Global, page: &mut Page, lines: &str) -> Result<(), AllocError> {
    let mut table = Table::new(alloc);
    let mut timer = Timer::new(alloc);
    for line in lines.lines() {
        page.line(line);
        let words: Vec<&str> = line.split(' ').collect(alloc)?;
        match word(&words, 0) {
            "table" | "copy-table" | "add" | "update" | "remove" | "label" | "by" | "fabrics" => {
                table.tell(page, &words)?
            }
            _ => timer.tell(page, &words)?,
        }
    }
    Ok(())
}
