//! Whose turn it is, and what is done on it.

ghost use Rattle.std.specs.Prelude.{◌≡◌, ◌<◌, ◌^◌};
ghost use Rattle.mt_soak.specs.Generated.{fabric_of, is_subscribe, moved, turn_of, upper_half};

// The multiplier and the increment of a linear congruential generator modulo 2^64.
const MULTIPLIER: u64 = 6_364_136_223_846_793_005;

const INCREMENT: u64 = 1_442_695_040_888_963_407;

/// What an event does.
#[derive(Clone, Copy, Debug, PartialEq, Eq)]
pub enum Turn {
    /// Reads OnOff.
    ReadOnOff,
    /// Invokes Toggle.
    Toggle,
    /// Writes NodeLabel.
    WriteLabel,
    /// Reads all attributes of an endpoint.
    ReadEndpoint,
    /// Writes the list of Bench whole.
    ReplaceBench,
    /// Reads the access control lists of all fabrics.
    ReadAccess,
    /// Subscribes to OnOff, or lets a subscription report.
    Subscribe,
    /// Lets time go on.
    Tick,
}

/// The number behind a draw.
pub fn moved(number: u64) -> u64
    ensures { result ≡ moved number }
{
    number.wrapping_mul(MULTIPLIER).wrapping_add(INCREMENT)
}

/// What a draw gives.
pub fn upper_half(number: u64) -> u32
    ensures { result ≡ upper_half number }
{
    (number >> 32) as u32
}

/// The fabric that has its turn, among so many, and 0 where there is none.
pub fn fabric_of(fabrics: u8, drawn: u32) -> u8
    ensures { result ≡ fabric_of fabrics drawn }
{
    if fabrics == 0 {
        return 0;
    }
    1 + (drawn % fabrics as u32) as u8
}

/// What is done.
pub fn turn_of(fabrics: u8, drawn: u32) -> Turn
    ensures { result ≡ turn_of fabrics drawn }
{
    if fabrics == 0 {
        return Turn::Tick;
    }
    match drawn % 8 {
        0 => Turn::ReadOnOff,
        1 => Turn::Toggle,
        2 => Turn::WriteLabel,
        3 => Turn::ReadEndpoint,
        4 => Turn::ReplaceBench,
        5 => Turn::ReadAccess,
        6 => Turn::Subscribe,
        _ => Turn::Tick,
    }
}

/// Whether it is the turn of subscriptions.
pub fn is_subscribe(turn: Turn) -> bool
    ensures { result ≡ is_subscribe turn }
{
    match turn {
        Turn::Subscribe => true,
        _ => false,
    }
}
