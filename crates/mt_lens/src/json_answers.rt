//! Answers as objects of JSON.

use crate::fronts::{Fronts, Refusal, STRUCTURE, Unread};
use crate::hearing::{
    Happening, Hears, Report, expected_report, hear_invoked, hear_report, hear_written,
};
use crate::json_messages::{put_name, put_path, put_refused, put_status_name};
use crate::json_objects::Object;
use crate::words::Leaf;
use mt_model::Path;
use mt_model::opcode::{
    INVOKE_RESPONSE, REPORT_DATA, STATUS_RESPONSE, SUBSCRIBE_RESPONSE, WRITE_RESPONSE,
};

/// An answer. What can't be read as one is told by its bytes.
pub(crate) fn put_answer(out: &mut Object, opcode: u8, payload: &[u8]) {
    let before = out.written();
    if put_message(out, opcode, payload).is_err() {
        out.go_back(before);
        out.octets("bytes", payload);
        put_name(out, opcode)
    }
}

fn put_message(out: &mut Object, opcode: u8, payload: &[u8]) -> Result<(), Unread> {
    let mut fronts = Fronts::new(payload);
    fronts.pass(&[STRUCTURE])?;
    match opcode {
        STATUS_RESPONSE => put_status_response(out, &mut fronts)?,
        REPORT_DATA => put_report(out, &mut fronts)?,
        SUBSCRIBE_RESPONSE => put_subscribed(out, &mut fronts)?,
        WRITE_RESPONSE => put_written(out, &mut fronts)?,
        INVOKE_RESPONSE => {
            hear_invoked(out, &mut fronts)?;
            put_name(out, INVOKE_RESPONSE)
        }
        _ => return Err(Unread),
    }
    Ok(())
}

fn put_status_response(out: &mut Object, fronts: &mut Fronts<'_>) -> Result<(), Unread> {
    let code = fronts.octet(0)?;
    out.number("code", code as u64);
    put_name(out, STATUS_RESPONSE);
    put_status_name(out, code);
    fronts.close()
}

fn put_subscribed(out: &mut Object, fronts: &mut Fronts<'_>) -> Result<(), Unread> {
    let id = fronts.word(0)?;
    let ceiling = fronts.short(2)?;
    out.number("ceiling", ceiling as u64);
    put_name(out, SUBSCRIBE_RESPONSE);
    out.number("subscription", id as u64);
    fronts.close()
}

fn put_written(out: &mut Object, fronts: &mut Fronts<'_>) -> Result<(), Unread> {
    out.key("items");
    out.open_list();
    hear_written(out, fronts)?;
    out.close_list();
    put_name(out, WRITE_RESPONSE);
    Ok(())
}

// Whether more follows stands in front of the items, and is heard behind them: it is told as it is expected, and once more
// where it was not so.
fn put_report(out: &mut Object, fronts: &mut Fronts<'_>) -> Result<(), Unread> {
    let start = *fronts;
    let before = out.written();
    let mut report = expected_report(fronts);
    for _ in 0..2 {
        out.truth("follows", report.follows);
        out.key("items");
        out.open_list();
        let heard = hear_report(out, fronts)?;
        out.close_list();
        if heard == report {
            put_report_end(out, report);
            return Ok(());
        }
        out.go_back(before);
        *fronts = start;
        report = heard;
    }
    Err(Unread)
}

fn put_report_end(out: &mut Object, report: Report) {
    put_name(out, REPORT_DATA);
    if let Some(id) = report.subscription {
        out.number("subscription", id as u64);
    }
    out.truth("suppress", report.suppress)
}

impl Hears for Object {
    fn begin_attribute(&mut self, path: &Path, _version: u32) {
        self.next_item();
        self.open();
        put_path(self, path, Leaf::Attribute);
        self.next_key("\"value\":")
    }

    fn end_attribute(&mut self, version: u32) {
        self.next_key("\"version\":");
        self.page.number(version as u64);
        self.close()
    }

    fn begin_event(&mut self, event: &Happening) {
        self.next_item();
        self.open();
        self.number("at", event.at);
        put_path(self, &event.path, Leaf::Event);
        self.number("number", event.number);
        self.number("priority", event.priority as u64);
        self.key("value")
    }

    fn end_event(&mut self) {
        self.close()
    }

    fn begin_response(&mut self, path: &Path) {
        put_path(self, path, Leaf::Response);
        self.key("fields")
    }

    fn end_response(&mut self) {}

    // What is refused of a command is told beside its message, any other as an item.
    fn refused(&mut self, path: &Path, leaf: Leaf, refusal: Refusal) {
        if let Leaf::Command = leaf {
            return put_refused(self, path, leaf, refusal);
        }
        self.next_item();
        self.open();
        put_refused(self, path, leaf, refusal);
        self.close()
    }
}
