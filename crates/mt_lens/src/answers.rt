//! Answers in words.

use crate::fronts::{Fronts, Refusal, STRUCTURE, Unread};
use crate::hearing::{
    Happening, Hears, Report, expected_report, hear_invoked, hear_report, hear_written,
};
use crate::page::{Colour, Page};
use crate::shapes::reason;
use crate::words::{ITEM, Leaf, show_message_name, show_path, whole_of};
use mt_model::Path;
use mt_model::opcode::{
    INVOKE_RESPONSE, REPORT_DATA, STATUS_RESPONSE, SUBSCRIBE_RESPONSE, WRITE_RESPONSE,
};
use mt_names::{status_name, status_of};

/// A status by its name and its code.
pub(crate) fn show_status(page: &mut Page, code: u8) {
    if code != 0 {
        page.begin(Colour::Refusal);
    }
    match status_of(code) {
        Some(status) => page.text(status_name(status)),
        None => page.text("status"),
    }
    page.text(" (");
    page.octets(&[code]);
    page.text(")");
    if code != 0 {
        page.end()
    }
}

// The reason that a cluster gives by a code of its own, behind the status.
fn show_reason(page: &mut Page, cluster: Option<u32>, code: u8) {
    page.text(", ");
    match reason(cluster, code) {
        Some(words) => page.text(words),
        None => {
            page.text("code ");
            page.number(code as u64);
            page.text(" of the cluster")
        }
    }
}

/// An answer, behind who is sent it, with the end of its line and lines below it. What can't be read as an
/// answer is shown by its bytes.
pub(crate) fn show_answer(page: &mut Page, opcode: u8, payload: &[u8]) {
    show_message_name(page, opcode);
    let before = page.len();
    if show_message(page, opcode, payload).is_err() {
        page.cut(before);
        page.text(", which can't be read\n");
        page.blanks(ITEM);
        page.octets(payload);
        page.end_line()
    }
}

fn show_message(page: &mut Page, opcode: u8, payload: &[u8]) -> Result<(), Unread> {
    let mut fronts = Fronts::new(payload);
    fronts.pass(&[STRUCTURE])?;
    match opcode {
        STATUS_RESPONSE => show_status_response(page, &mut fronts)?,
        REPORT_DATA => show_report(page, &mut fronts)?,
        SUBSCRIBE_RESPONSE => show_subscribed(page, &mut fronts)?,
        WRITE_RESPONSE => {
            page.end_line();
            hear_written(page, &mut fronts)?
        }
        INVOKE_RESPONSE => {
            page.end_line();
            hear_invoked(page, &mut fronts)?
        }
        _ => return Err(Unread),
    }
    Ok(())
}

fn show_status_response(page: &mut Page, fronts: &mut Fronts<'_>) -> Result<(), Unread> {
    let code = fronts.octet(0)?;
    page.byte(b' ');
    show_status(page, code);
    page.end_line();
    fronts.close()
}

fn show_subscribed(page: &mut Page, fronts: &mut Fronts<'_>) -> Result<(), Unread> {
    let id = fronts.word(0)?;
    let ceiling = fronts.short(2)?;
    page.text(", subscription ");
    page.number(id as u64);
    page.text(", a report within ");
    page.number(ceiling as u64);
    page.text(" s\n");
    fronts.close()
}

// What a report says of itself stands in front of its items, and is heard behind them: it is shown as it is expected, and
// once more where it was not so.
fn show_report(page: &mut Page, fronts: &mut Fronts<'_>) -> Result<(), Unread> {
    let start = *fronts;
    let before = page.len();
    let mut report = expected_report(fronts);
    for _ in 0..2 {
        show_report_head(page, report);
        let begun = page.len();
        let heard = hear_report(page, fronts)?;
        if heard == report {
            if page.len() == begun {
                page.blanks(ITEM);
                page.text("nothing\n");
            }
            return Ok(());
        }
        page.cut(before);
        *fronts = start;
        report = heard;
    }
    Err(Unread)
}

// Of which subscription a report is, whether more follows, and whether the last is to be confirmed.
fn show_report_head(page: &mut Page, report: Report) {
    if let Some(id) = report.subscription {
        page.text(", subscription ");
        page.number(id as u64);
    }
    if report.follows {
        page.text(", more follows");
    } else if !report.suppress {
        page.text(", to be confirmed");
    }
    page.end_line()
}

impl Hears for Page {
    fn begin_attribute(&mut self, path: &Path, version: u32) {
        self.blanks(ITEM);
        show_path(self, path, Leaf::Attribute);
        self.text("  version ");
        self.number(version as u64);
        self.text("  ")
    }

    fn end_attribute(&mut self, _version: u32) {
        self.end_line()
    }

    fn begin_event(&mut self, event: &Happening) {
        self.blanks(ITEM);
        self.text("event ");
        self.number(event.number);
        self.text(", ");
        show_path(self, &event.path, Leaf::Event);
        self.text(match event.priority {
            0 => ", debug, at ",
            1 => ", info, at ",
            2 => ", critical, at ",
            _ => ", at ",
        });
        self.number(event.at);
        self.text(" ms  ")
    }

    fn end_event(&mut self) {
        self.end_line()
    }

    fn begin_response(&mut self, path: &Path) {
        self.blanks(ITEM);
        show_path(self, path, Leaf::Response);
        self.text(NO_FIELDS_YET)
    }

    // Fields that are none are not shown.
    fn end_response(&mut self) {
        if self.bytes().ends_with(NO_FIELDS) {
            self.cut(self.len().saturating_sub(NO_FIELDS.len()));
        }
        self.end_line()
    }

    // Which items of lists were meant is said where they were asked.
    fn refused(&mut self, path: &Path, leaf: Leaf, refusal: Refusal) {
        self.blanks(ITEM);
        if let Leaf::Event = leaf {
            self.text("events ");
        }
        show_path(self, &whole_of(path), leaf);
        self.text("  ");
        show_status(self, refusal.code);
        if let Some(code) = refusal.reason {
            show_reason(self, path.cluster, code);
        }
        self.end_line()
    }
}

// What stands between a response and its fields, and what stands there where these are none.
const NO_FIELDS_YET: &str = "  ";

const NO_FIELDS: &[u8] = b"  {}";
