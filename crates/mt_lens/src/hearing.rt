//! Answers, as they are read part by part (Matter Core Specification, chapter 10, Interaction Model Encoding). What is
//! read is told at once to whoever shows it, so no answer is kept.

use crate::fronts::{
    ARRAY, END, FALSE, FIELD, Fronts, REVISION, Refusal, STRUCTURE, TRUE, Unread, has_members,
};
use crate::shapes::{Shape, shape_of_attribute, shape_of_event, shape_of_response, unknown};
use crate::values::{Shows, Where, show_number, show_value};
use crate::words::{ITEM, Leaf};
use mt_model::Path;

const ATTRIBUTES: [u8; 2] = [FIELD + ARRAY, 1];

const EVENTS: [u8; 2] = [FIELD + ARRAY, 2];

const MORE: [u8; 2] = [FIELD + TRUE, 3];

const SILENT: [u8; 2] = [FIELD + TRUE, 4];

const ENDED: [u8; 1] = [END];

const ENDED_TWICE: [u8; 2] = [END, END];

const DATA: [u8; 3] = [STRUCTURE, FIELD + STRUCTURE, 1];

const STATUS: [u8; 3] = [STRUCTURE, FIELD + STRUCTURE, 0];

const STATUSES: [u8; 2] = [FIELD + ARRAY, 0];

const BEGUN: [u8; 1] = [STRUCTURE];

const RESPONSES: [u8; 5] = [FIELD + FALSE, 0, FIELD + ARRAY, 1, STRUCTURE];

const RESPONSE: [u8; 2] = [FIELD + STRUCTURE, 0];

const RESPONSE_STATUS: [u8; 2] = [FIELD + STRUCTURE, 1];

/// An event that happened, but for its value.
#[derive(Drop)]
pub(crate) struct Happening {
    pub path: Path,
    pub number: u64,
    pub priority: u8,
    pub at: u64,
}

/// What a message of a report says beside its items.
#[derive(Clone, Copy, PartialEq, Eq)]
pub(crate) struct Report {
    pub subscription: Option<u32>,
    /// Whether more messages of the same report follow.
    pub follows: bool,
    /// Whether no confirmation is wanted.
    pub suppress: bool,
}

/// A form in which the items of answers are shown.
pub(crate) trait Hears: Shows {
    /// An attribute of this data version. Its value is shown next.
    fn begin_attribute(&mut self, path: &Path, version: u32);

    fn end_attribute(&mut self, version: u32);

    /// An event. Its value is shown next.
    fn begin_event(&mut self, event: &Happening);

    fn end_event(&mut self);

    /// The response of a command. Its fields are shown next.
    fn begin_response(&mut self, path: &Path);

    fn end_response(&mut self);

    /// What was asked of a path is answered with a status.
    fn refused(&mut self, path: &Path, leaf: Leaf, refusal: Refusal);
}

/// What a ReportData seems to say beside its items, by its front and its end. Only whoever has heard it knows: a
/// report without items may end as one that says more.
pub(crate) fn expected_report(fronts: &Fronts<'_>) -> Report {
    let mut front = *fronts;
    Report {
        subscription: front.word(0).ok(),
        follows: fronts.ends_with(&FOLLOWS),
        suppress: fronts.ends_with(&SUPPRESS),
    }
}

// What a report ends with of which more messages follow, and one that wants no confirmation.
const FOLLOWS: [u8; 6] = [FIELD + TRUE, 3, 0x24, REVISION, 1, END];

const SUPPRESS: [u8; 6] = [FIELD + TRUE, 4, 0x24, REVISION, 1, END];

/// The body of a ReportData: subscription (0), attributes (1), events (2), whether more follows (3), whether no
/// confirmation is wanted (4).
pub(crate) fn hear_report<H: Hears>(
    out: &mut H,
    fronts: &mut Fronts<'_>,
) -> Result<Report, Unread> {
    let subscription = fronts.word(0).ok();
    if fronts.passes(&ATTRIBUTES) {
        hear_attributes(out, fronts)?;
    }
    if fronts.passes(&EVENTS) {
        hear_events(out, fronts)?;
    }
    let report = Report {
        subscription,
        follows: fronts.passes(&MORE),
        suppress: fronts.passes(&SILENT),
    };
    fronts.close()?;
    Ok(report)
}

fn hear_attributes<H: Hears>(out: &mut H, fronts: &mut Fronts<'_>) -> Result<(), Unread> {
    for _ in 0..fronts.len() {
        if fronts.passes(&ENDED) {
            return Ok(());
        }
        hear_attribute(out, fronts)?;
    }
    Err(Unread)
}

// An AttributeReport, which has data (1) or a status (0).
fn hear_attribute<H: Hears>(out: &mut H, fronts: &mut Fronts<'_>) -> Result<(), Unread> {
    if !fronts.passes(&DATA) {
        fronts.pass(&STATUS)?;
        hear_refused(out, fronts, 2, Leaf::Attribute)?;
        return fronts.pass(&ENDED);
    }
    let version = fronts.word(0)?;
    let path = fronts.path(1, 2)?;
    out.begin_attribute(&path, version);
    match fronts.number(2) {
        Ok(number) => show_number(out, number, Where::whole(unknown(), ITEM)),
        Err(Unread) => {
            let value = fronts.value(2)?;
            show_value(out, value, Where::whole(shape_of(&path, value), ITEM))?
        }
    }
    out.end_attribute(version);
    fronts.pass(&ENDED_TWICE)
}

// What the structures in an attribute's value are. It is not looked up for a value that has no members.
fn shape_of(path: &Path, value: &[u8]) -> Shape {
    if has_members(value) {
        return shape_of_attribute(path);
    }
    unknown()
}

// The body of a status of a path: path (0), whose fields are numbered from `first` on, and status (1).
fn hear_refused<H: Hears>(
    out: &mut H,
    fronts: &mut Fronts<'_>,
    first: u8,
    leaf: Leaf,
) -> Result<(), Unread> {
    let path = fronts.path(0, first)?;
    let refusal = fronts.refusal()?;
    out.refused(&path, leaf, refusal);
    fronts.pass(&ENDED)
}

fn hear_events<H: Hears>(out: &mut H, fronts: &mut Fronts<'_>) -> Result<(), Unread> {
    for _ in 0..fronts.len() {
        if fronts.passes(&ENDED) {
            return Ok(());
        }
        hear_event(out, fronts)?;
    }
    Err(Unread)
}

// An EventReport, which has data (1), namely path (0), number (1), priority (2), time (4) and value (7), or a status (0).
fn hear_event<H: Hears>(out: &mut H, fronts: &mut Fronts<'_>) -> Result<(), Unread> {
    if !fronts.passes(&DATA) {
        fronts.pass(&STATUS)?;
        hear_refused(out, fronts, 1, Leaf::Event)?;
        return fronts.pass(&ENDED);
    }
    let event = Happening {
        path: fronts.path(0, 1)?,
        number: fronts.number(1)?,
        priority: fronts.octet(2)?,
        at: fronts.number(4)?,
    };
    let value = fronts.value(7)?;
    out.begin_event(&event);
    show_value(out, value, Where::whole(shape_of_event(&event.path), ITEM))?;
    out.end_event();
    fronts.pass(&ENDED_TWICE)
}

/// The body of a WriteResponse: statuses (0).
pub(crate) fn hear_written<H: Hears>(out: &mut H, fronts: &mut Fronts<'_>) -> Result<(), Unread> {
    fronts.pass(&STATUSES)?;
    for _ in 0..fronts.len() {
        if fronts.passes(&ENDED) {
            return fronts.close();
        }
        fronts.pass(&BEGUN)?;
        hear_refused(out, fronts, 2, Leaf::Attribute)?;
    }
    Err(Unread)
}

/// The body of an InvokeResponse: whether no answer is wanted (0), and an array (1) of one answer, which has data (0),
/// namely path (0) and fields (1), or a status (1).
pub(crate) fn hear_invoked<H: Hears>(out: &mut H, fronts: &mut Fronts<'_>) -> Result<(), Unread> {
    fronts.pass(&RESPONSES)?;
    if fronts.passes(&RESPONSE) {
        let path = fronts.path(0, 0)?;
        let fields = fronts.value(1)?;
        out.begin_response(&path);
        show_value(out, fields, Where::whole(shape_of_response(&path), ITEM))?;
        out.end_response();
        fronts.pass(&ENDED)?;
    } else {
        fronts.pass(&RESPONSE_STATUS)?;
        hear_refused(out, fronts, 0, Leaf::Command)?;
    }
    fronts.pass(&ENDED_TWICE)?;
    fronts.close()
}
