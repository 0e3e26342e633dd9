//! Where the status codes of a message stand, by its opcode.

ghost use Rattle.std.specs.Prelude.{◌≡◌, option_map};
ghost use Rattle.mt_soak.specs.Paths.{path_of};
ghost use Rattle.mt_soak.specs.Codes.{picks};
ghost use Rattle.mt_model.specs.Trees.{is_context};
ghost use Rattle.mt_soak.specs.Scan.{goes_into};

use mt_model::opcode;
use mt_tlv::Tag;

/// A step from a container to those of its members that are, or that hold, status codes.
#[derive(Clone, Copy)]
pub enum Step {
    /// To a structure's field under this context tag.
    Field(u8),
    /// To a structure's fields under either of these context tags.
    Either(u8, u8),
    /// To every member of an array.
    Member,
}

impl Step {
    /// Whether the step goes from a container to its member under this tag.
    pub fn picks(self, tag: Tag) -> bool
        ensures { result ≡ picks self tag }
    {
        match self {
            Step::Field(number) => is_context(number, tag),
            Step::Either(number, other) => is_context(number, tag) || is_context(other, tag),
            Step::Member => true,
        }
    }

    /// Whether the step goes to members of a container of this element type.
    pub fn goes_into(self, element_type: u8) -> bool
        ensures { result ≡ goes_into self element_type }
    {
        match self {
            Step::Member => element_type == 0x16,
            _ => element_type == 0x15,
        }
    }
}

fn is_context(number: u8, tag: Tag) -> bool
    ensures { result ≡ is_context number tag }
{
    match tag {
        Tag::Context(own) => own == number,
        _ => false,
    }
}

/// The number of a Status, and of a StatusResponse.
const CODE: Step = Step::Field(0);

/// The Status of an AttributeStatus, an EventStatus or a CommandStatus.
const STATUS: Step = Step::Field(1);

/// The reports of a ReportData: of attributes, and of events.
const REPORTS: Step = Step::Either(1, 2);

/// The AttributeStatus or the EventStatus of a report.
const REPORT_STATUS: Step = Step::Field(0);

/// The AttributeStatuses of a WriteResponse.
const STATUSES: Step = Step::Field(0);

/// The responses of an InvokeResponse.
const RESPONSES: Step = Step::Field(1);

/// The CommandStatus of a response to a command.
const COMMAND_STATUS: Step = Step::Field(1);

/// The steps from a message of this opcode to its status codes. None: it has none.
pub fn path_to_codes(opcode: u8) -> Option<&'static [Step]>
    ensures { option_map (λ path. path.now) result ≡ path_of opcode }
{
    match opcode {
        opcode::STATUS_RESPONSE => Some(&[CODE]),
        opcode::REPORT_DATA => Some(&[REPORTS, Step::Member, REPORT_STATUS, STATUS, CODE]),
        opcode::WRITE_RESPONSE => Some(&[STATUSES, Step::Member, STATUS, CODE]),
        opcode::INVOKE_RESPONSE => Some(&[RESPONSES, Step::Member, COMMAND_STATUS, STATUS, CODE]),
        _ => None,
    }
}
