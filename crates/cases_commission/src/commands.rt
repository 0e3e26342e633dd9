//! What the commands come to by which a node is commissioned. Each line is a case, `NAME|WHO|STATE|COMMAND|FIELDS`:
//!
//! - WHO asks: `case:` or `pase:` and a fabric;
//! - STATE has words on the node (`state`), over the configuration;
//! - COMMAND is CLUSTER/NUMBER in hex digits, of endpoint 0;
//! - FIELDS are the bytes of an element: pieces of hex with `,` between them, of which one may say with `*` how
//!   many times it stands there.
//!
//! A case `NAME|STATE` is a time step: what it makes of the commissioning window.

use crate::state::{node_of, time_of};
use crate::telling;
use crate::words::{Asked, asked_of};
use cases_page::{Page, no_case};
use mt_meta::clusters::{
    ADMINISTRATOR_COMMISSIONING, GROUP_KEY_MANAGEMENT, OPERATIONAL_CREDENTIALS,
};
use mt_model::{Config, Effect, TableVerdicts, View};
use std::alloc::{AllocError, Global};
use std::io;

/// Tells of each case its name, and what the command comes to.
pub(crate) fn tell(alloc: Global, page: &mut Page, config: &Config, cases: &str) -> io::Result<()> {
    let verdicts = TableVerdicts::new(config)?;
    for case in cases.lines() {
        tell_case(alloc, page, config, &verdicts, case)?;
    }
    Ok(())
}

fn tell_case(
    alloc: Global,
    page: &mut Page,
    config: &Config,
    verdicts: &TableVerdicts,
    case: &str,
) -> io::Result<()> {
    let words: Vec<&str> = case.split('|').collect(alloc)?;
    match *words.as_slice() {
        [name, who, state, command, fields] => {
            page.line(name);
            let asked = asked_of(alloc, who, command, fields)?;
            tell_asked(alloc, page, config, verdicts, state, &asked)
        }
        [name, state] => {
            page.line(name);
            tell_tick(alloc, page, config, state)
        }
        _ => Err(no_case()),
    }
}

fn tell_asked(
    alloc: Global,
    page: &mut Page,
    config: &Config,
    verdicts: &TableVerdicts,
    state: &str,
    asked: &Asked,
) -> io::Result<()> {
    let node = node_of(alloc, config, state)?;
    let now = time_of(state);
    let effect = invoke(alloc, config, verdicts, &node.view(), asked, now)?;
    telling::tell(alloc, page, &effect);
    Ok(())
}

fn tell_tick(alloc: Global, page: &mut Page, config: &Config, state: &str) -> io::Result<()> {
    let node = node_of(alloc, config, state)?;
    let effect = mt_admin::tick(alloc, &node.view(), time_of(state))?;
    telling::tell(alloc, page, &effect);
    Ok(())
}

// What the command that is asked for comes to at this time, in ms.
fn invoke(
    alloc: Global,
    config: &Config,
    verdicts: &TableVerdicts,
    view: &View,
    asked: &Asked,
    now: u64,
) -> Result<Effect, AllocError> {
    let Asked {
        actor,
        command,
        fields,
    } = asked;
    match command.cluster {
        ADMINISTRATOR_COMMISSIONING => mt_admin::invoke(alloc, view, actor, command, fields, now),
        GROUP_KEY_MANAGEMENT => mt_groupkeys::invoke(alloc, view, actor, command, fields),
        OPERATIONAL_CREDENTIALS => {
            mt_opcreds::invoke(alloc, view, actor, command, fields, verdicts)
        },
        _ => mt_commission::invoke(alloc, view, actor, command, fields, &config.reachable),
    }
}
