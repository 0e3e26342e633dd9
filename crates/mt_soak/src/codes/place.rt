//! How far a scan is on the path to the status codes.

ghost use Rattle.std.specs.Prelude.{◌≡◌, ◌<◌, ◌-◌, ◌^◌, slice_get};
ghost use Rattle.mt_tlv.specs.Parts.{piece};
ghost use Rattle.mt_soak.specs.Scan.{is_on_path, goes_next_into, told, after, inside, outside};

use crate::codes::paths::Step;
use mt_tlv::{Part, Tag, Value};

/// Which containers are open: those that the first steps of the path lead into, and inside them those
/// that are passed over.
#[derive(Clone, Copy)]
pub struct At {
    pub on_path: usize,
    pub passed_over: usize,
}

/// The number of a part that stands where the whole path leads.
pub fn number_in(path: &[Step], at: At, part: &Part<'_>) -> Option<u64>
    ensures { result ≡ told path.now at (piece part.now) }
{
    match part {
        Part::Scalar(tag, Value::Uint(number))
            if at.passed_over == 0
                && path.get(at.on_path).is_none()
                && is_on_path(path, at.on_path, *tag) => { Some(*number) }
        _ => None,
    }
}

/// Where the scan is behind a part.
pub fn behind(path: &[Step], at: At, part: &Part<'_>) -> At
    requires { at.passed_over < 2 ^ 64 - 1 }
    ensures { result ≡ after path.now at (piece part.now) }
{
    match part {
        Part::Enter(tag, element_type) => inside(path, at, *tag, *element_type),
        Part::Leave => outside(at),
        _ => at,
    }
}

fn inside(path: &[Step], at: At, tag: Tag, element_type: u8) -> At
    requires { at.passed_over < 2 ^ 64 - 1 }
    ensures { result ≡ inside path.now at tag element_type }
{
    if at.passed_over == 0
        && goes_next_into(path, at.on_path, element_type)
        && is_on_path(path, at.on_path, tag)
    {
        At {
            on_path: at.on_path + 1,
            passed_over: 0,
        }
    } else {
        At {
            on_path: at.on_path,
            passed_over: at.passed_over + 1,
        }
    }
}

fn outside(at: At) -> At
    ensures { result ≡ outside at }
{
    if at.passed_over == 0 {
        At {
            on_path: at.on_path.saturating_sub(1),
            passed_over: 0,
        }
    } else {
        At {
            on_path: at.on_path,
            passed_over: at.passed_over - 1,
        }
    }
}

// Whether the path goes on to an element under this tag, where this many containers on it are open.
fn is_on_path(path: &[Step], open_count: usize, tag: Tag) -> bool
    ensures { result ≡ is_on_path path.now open_count tag }
{
    if open_count == 0 {
        return true;
    }
    match path.get(open_count - 1) {
        Some(step) => step.picks(tag),
        None => false,
    }
}

// Whether the path goes on into a container of this element type, where this many on it are open.
fn goes_next_into(path: &[Step], open_count: usize, element_type: u8) -> bool
    ensures { result ≡ goes_next_into (slice_get path.now open_count) element_type }
{
    match path.get(open_count) {
        Some(step) => step.goes_into(element_type),
        None => false,
    }
}
