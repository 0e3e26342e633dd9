//! Why bytes are no header, or a header was not written.

ghost use Rattle.std.specs.Prelude.{◌≡◌};
ghost use Rattle.mt_frame.specs.Faults.{number_of};

/// What keeps bytes from being a header that is read here, or a header from being written. Of several
/// faults, reading answers the first in the order of the format.
#[derive(Clone, Copy, Debug, PartialEq, Eq)]
pub enum FrameFault {
    /// The fixed fields are cut off, or a field that the flags announce is.
    Short = 1,
    /// The message format's version is not 0.
    Version = 2,
    /// A reserved bit is set, or DSIZ or the session type has a reserved value.
    Reserved = 3,
    /// A group session, or a group id as destination.
    Group = 4,
    /// The P flag: the header itself is obfuscated.
    Private = 5,
    /// The MX or the SX flag: there are message extensions or secured extensions.
    Extended = 6,
    /// Session 0: the message is not sealed.
    Unsecured = 7,
    /// The buffer to write to is shorter than the header. Nothing was written.
    NoRoom = 8,
    /// The C flag: a control message.
    Control = 9,
}

impl FrameFault {
    /// The fault's number, under which logs and counts name it: 1 to 9.
    pub fn number(self) -> u8
        ensures { result ≡ number_of self }
    {
        self as u8
    }
}
