//! The commissioning window: its attributes, the steps that open and close it, and its end.

ghost use Rattle.std.specs.Prelude.{◌≡◌, ◌∷◌, [], IfOk, map, option_and_then};
ghost use Rattle.mt_tlv.specs.Scalars.{unsigned_in};
ghost use Rattle.mt_tlv.specs.View.{tree};
ghost use Rattle.mt_tlv.specs.declared.value.Value.TheVariants.{Uint};
ghost use Rattle.mt_model.specs.declared.messages.message.Reply.TheVariants as replies;
ghost use Rattle.mt_model.specs.rows.Shown.{first_value};
ghost use Rattle.mt_model.specs.tables.Known.{fabric_known_to};
ghost use Rattle.mt_apps.specs.Seen.{nobodys_rows};
ghost use Rattle.mt_admin.specs.Commands.{number_of_fault};
ghost use Rattle.mt_admin.specs.Windows.{closed, end_behind, has_ended, is_open, nullable_value, number_at, number_of_window, opened, set_attribute, some_fabric, ticked, vendor_of, window_at, window_end};

use mt_meta::clusters::ADMINISTRATOR_COMMISSIONING;
use mt_meta::clusters::administrator_commissioning::{
    ADMIN_FABRIC_INDEX, ADMIN_VENDOR_ID, WINDOW_END, WINDOW_STATUS,
};
use mt_model::{Effect, Fabric, NodeStep, Place, Reply, Row, Steps, Values, View, unsigned_of};
use mt_tlv::Value;
use std::alloc::{AllocError, Global};

/// What the window is (Matter Core Specification, chapter 11, Administrator Commissioning Cluster,
/// CommissioningWindowStatusEnum).
#[derive(Clone, Copy, Debug, PartialEq, Eq)]
pub enum Window {
    /// No window is open.
    Closed = 0,
    /// It is open with a passcode of its own, whose verifier the administrator has sent.
    Enhanced = 1,
    /// It is open with the passcode that the node came with.
    Basic = 2,
}

impl Window {
    /// The number, as it stands in the attribute WindowStatus.
    pub fn number(self) -> u8
        ensures { result ≡ number_of_window self }
    {
        self as u8
    }
}

/// Why a command fails (Matter Core Specification, chapter 11, Administrator Commissioning Cluster,
/// StatusCodeEnum).
#[derive(Clone, Copy, Debug, PartialEq, Eq)]
pub enum WindowFault {
    /// A window is open already, or the fail-safe is armed.
    Busy = 2,
    /// The verifier of the passcode, its iterations or its salt has not its range.
    PakeParameterError = 3,
    /// No window is open.
    WindowNotOpen = 4,
}

impl WindowFault {
    /// The number, as it stands in the status of the command.
    pub fn number(self) -> u8
        ensures { result ≡ number_of_fault self }
    {
        self as u8
    }
}

// Reading the attributes.

fn window_at(attribute: u32) -> Place
    ensures { result ≡ window_at attribute }
{
    Place {
        endpoint: 0,
        cluster: ADMINISTRATOR_COMMISSIONING,
        leaf: attribute,
    }
}

// The number of an attribute, None where it is null.
fn number_at(view: &View, attribute: u32) -> Option<u64>
    ensures { result ≡ number_at (nobodys_rows view.now) attribute }
{
    let place = window_at(attribute);
    first_number(view.rows.of(&place, 0))
}

// The number of the first row, None where it is null or where there is no row.
fn first_number(rows: &[Row]) -> Option<u64>
    ensures { result ≡ unsigned_in (tree (first_value rows.now)) }
{
    match rows.first() {
        Some(row) => unsigned_of(&row.value),
        None => None,
    }
}

/// Whether a window is open.
pub(crate) fn is_open(view: &View) -> bool
    ensures { result ≡ is_open (nobodys_rows view.now) }
{
    number_at(view, WINDOW_STATUS).unwrap_or(0) != 0
}

// Opening and closing.

/// The steps that open a window of this kind for so many seconds from a time in ms on, for an administrator of
/// this fabric.
pub(crate) fn opened(
    alloc: Global,
    window: Window,
    fabrics: &[Fabric],
    fabric: u8,
    seconds: u64,
    now: u64,
) -> Result<Steps, AllocError>
    ensures { IfOk result (λ steps. steps ≡ opened window (map (fabric_known_to fabric) fabrics.now) fabric seconds now) }
{
    window_steps(
        alloc,
        window,
        some_fabric(fabric),
        admin_vendor(fabrics, fabric),
        Some(end_behind(now, seconds)),
    )
}

/// The steps that close the window: all its attributes have their first values.
pub(crate) fn closed(alloc: Global) -> Result<Steps, AllocError>
    ensures { IfOk result (λ steps. steps ≡ closed) }
{
    window_steps(alloc, Window::Closed, None, None, None)
}

// The steps that set all attributes, those that are None to null.
fn window_steps(
    alloc: Global,
    window: Window,
    fabric: Option<u64>,
    vendor: Option<u64>,
    end: Option<u64>,
) -> Result<Steps, AllocError>
    ensures { IfOk result (λ steps. steps ≡ set_attribute 0 (Uint (number_of_window window)) ∷ set_attribute 1 (nullable_value fabric) ∷ set_attribute 2 (nullable_value vendor) ∷ set_attribute window_end (nullable_value end) ∷ []) }
{
    let status = Value::Uint(window.number() as u64);
    let steps = vec![in alloc;
        set_attribute(alloc, WINDOW_STATUS, status)?,
        set_attribute(alloc, ADMIN_FABRIC_INDEX, nullable_value(fabric))?,
        set_attribute(alloc, ADMIN_VENDOR_ID, nullable_value(vendor))?,
        set_attribute(alloc, WINDOW_END, nullable_value(end))?,
    ]?;
    Ok(Steps::from_vec(steps))
}

// An attribute has this value. Its row is nobody's.
fn set_attribute(alloc: Global, attribute: u32, value: Value) -> Result<NodeStep, AllocError>
    ensures { IfOk result (λ step. step ≡ set_attribute attribute value) }
{
    let mut values = Values::new(alloc);
    values.push(value)?;
    Ok(NodeStep::SetRow {
        place: window_at(attribute),
        fabric: 0,
        values,
    })
}

fn nullable_value(number: Option<u64>) -> Value
    ensures { result ≡ nullable_value number }
{
    match number {
        Some(number) => Value::Uint(number),
        None => Value::Null,
    }
}

// A fabric, None where it is 0, which is nobody's.
fn some_fabric(fabric: u8) -> Option<u64>
    ensures { result ≡ some_fabric fabric }
{
    if fabric == 0 {
        None
    } else {
        Some(fabric as u64)
    }
}

// The vendor of an administrator of this fabric, None where the fabric is 0 or is not in the table.
fn admin_vendor(fabrics: &[Fabric], fabric: u8) -> Option<u64>
    ensures { result ≡ option_and_then (vendor_of (map (fabric_known_to fabric) fabrics.now)) (some_fabric fabric) }
{
    if fabric == 0 {
        return None;
    }
    vendor_of(fabrics, fabric)
}

// The vendor of a fabric, which all know.
#[tactic(auto, using(crate::proofs::Vendors::known_vendor))]
fn vendor_of(fabrics: &[Fabric], fabric: u8) -> Option<u64>
    ensures { result ≡ vendor_of (map (fabric_known_to fabric) fabrics.now) fabric }
{
    first_vendor(fabrics, fabric)
}

fn first_vendor(fabrics: &[Fabric], fabric: u8) -> Option<u64>
    ensures { result ≡ vendor_of fabrics.now fabric }
{
    fabrics
        .iter()
        .find(|other| other.index == fabric)
        .map(|other| other.vendor as u64)
}

// How many ms a second has.
const SECOND: u64 = 1000;

// When a window ends that is opened now, in ms, for so many seconds: at most at the greatest number of 64 bits.
fn end_behind(now: u64, seconds: u64) -> u64
    ensures { result ≡ end_behind now seconds }
{
    now.saturating_add(seconds.saturating_mul(SECOND))
}

// Time.

/// What a time step makes of the window, at a time in ms: it is closed where its end has come (Matter Core
/// Specification, chapter 11, Administrator Commissioning Cluster). There is nobody to answer.
pub fn tick(alloc: Global, view: &View, now: u64) -> Result<Effect, AllocError>
    ensures { IfOk result (λ effect. effect ≡ record { reply = replies.Nothing; steps = ticked (nobodys_rows view.now) now }) }
{
    let steps = if has_ended(now, number_at(view, WINDOW_END)) {
        closed(alloc)?
    } else {
        Steps::new(alloc)
    };
    Ok(Effect {
        reply: Reply::Nothing,
        steps,
    })
}

fn has_ended(now: u64, end: Option<u64>) -> bool
    ensures { result ≡ has_ended now end }
{
    match end {
        Some(until) => until <= now,
        None => false,
    }
}
