//! Refusals of requests.

ghost use Rattle.std.specs.Prelude.{◌≡◌};
ghost use Rattle.fax_job.specs.Refusal.{body_word, body_line, refusal_number, refusal_word, refusal_status, line_refusal, order_refusal};

use crate::lines::{LineFault, LineKind};
use crate::order::OrderFault;
use std::alloc::AllocError;
use std::error::Error;
use std::fmt;

/// Why a request is refused.
#[derive(Clone, Copy, Debug, PartialEq, Eq)]
pub enum Refusal {
    /// What came is no HTTP message.
    BadHttp,
    /// The message's content is too long.
    TooLarge,
    /// No such method and path.
    NoRoute,
    /// The client's name is missing or malformed.
    BadClient,
    /// The request's number is missing or malformed.
    BadNumber,
    BadBody(BodyFault),
    /// The number was accepted with other content.
    NumberReused,
    NoJob,
    NoModem,
    NoGrant,
    /// The destination isn't served.
    Rejected,
    TooManyPages,
    /// The job is done or failed.
    JobOver,
    /// The job is granted.
    JobActive,
    NotSuspended,
    /// The job would have used up its tries or dials.
    LimitReached,
    ModemDown,
    /// The modem holds a grant.
    ModemBusy,
    GrantClosed,
    /// A call is known already.
    CallKnown,
    /// No connected call is known.
    NotConnected,
    /// The page isn't the next one.
    PageOrder,
    /// No call is known.
    CallMissing,
    /// Another number of pages was accepted.
    PagesMismatch,
    /// Pages are left.
    PagesLeft,
    /// No number of a job or a grant is left.
    Full,
    /// Memory or the store gave out.
    Unavailable,
    /// The client has given up the replies through this number.
    GivenUp,
    /// The replies to be given up aren't all of earlier numbers.
    FloorHigh,
    /// The moment before which jobs are to be purged is later than now.
    PurgeHigh,
}

impl fmt::Display for Refusal {
    fn fmt<W: fmt::Write>(&self, f: &mut fmt::Formatter<W>) -> fmt::Result {
        write!(f, "refused: {}", self.word())
    }
}

impl Error for Refusal {}

/// What is wrong with the body of a request.
#[derive(Clone, Copy, Debug, PartialEq, Eq)]
pub enum BodyFault {
    /// A fault of the text of key lines. The line counts from 1; it is 0 where the whole text is none.
    Line { line: u64, kind: LineKind },
    /// A fault of the values of key lines.
    Order(OrderFault),
    /// No JSON.
    BadJson,
    /// JSON that isn't the report.
    BadField,
}

impl fmt::Display for BodyFault {
    fn fmt<W: fmt::Write>(&self, f: &mut fmt::Formatter<W>) -> fmt::Result {
        f.write_str(self.word())
    }
}

impl Error for BodyFault {}

impl BodyFault {
    /// The word for it in a reply.
    pub fn word(self) -> &'static str
        ensures { result.now ≡ body_word self }
    {
        match self {
            BodyFault::Line { line: _, kind } => kind.word(),
            BodyFault::Order(fault) => fault.word(),
            BodyFault::BadJson => "bad-json",
            BodyFault::BadField => "bad-field",
        }
    }

    /// The line at fault, where it is a fault of the text of key lines.
    pub fn line(self) -> Option<u64>
        ensures { result ≡ body_line self }
    {
        match self {
            BodyFault::Line { line, kind: _ } => Some(line),
            _ => None,
        }
    }
}

impl Refusal {
    /// The refusal's number, from 1 to 30.
    pub fn number(self) -> u8
        ensures { result ≡ refusal_number self }
    {
        match self {
            Refusal::BadHttp => 1,
            Refusal::TooLarge => 2,
            Refusal::NoRoute => 3,
            Refusal::BadClient => 4,
            Refusal::BadNumber => 5,
            Refusal::BadBody(_) => 6,
            Refusal::NumberReused => 7,
            Refusal::NoJob => 8,
            Refusal::NoModem => 9,
            Refusal::NoGrant => 10,
            Refusal::Rejected => 11,
            Refusal::TooManyPages => 12,
            Refusal::JobOver => 13,
            Refusal::JobActive => 14,
            Refusal::NotSuspended => 15,
            Refusal::LimitReached => 16,
            Refusal::ModemDown => 17,
            Refusal::ModemBusy => 18,
            Refusal::GrantClosed => 19,
            Refusal::CallKnown => 20,
            Refusal::NotConnected => 21,
            Refusal::PageOrder => 22,
            Refusal::CallMissing => 23,
            Refusal::PagesMismatch => 24,
            Refusal::PagesLeft => 25,
            Refusal::Full => 26,
            Refusal::Unavailable => 27,
            Refusal::GivenUp => 28,
            Refusal::FloorHigh => 29,
            Refusal::PurgeHigh => 30,
        }
    }

    /// The word for it in a reply.
    pub fn word(self) -> &'static str
        ensures { result.now ≡ refusal_word self }
    {
        match self {
            Refusal::BadHttp => "bad-http",
            Refusal::TooLarge => "too-large",
            Refusal::NoRoute => "no-route",
            Refusal::BadClient => "bad-client",
            Refusal::BadNumber => "bad-number",
            Refusal::BadBody(_) => "bad-body",
            Refusal::NumberReused => "number-reused",
            Refusal::NoJob => "no-job",
            Refusal::NoModem => "no-modem",
            Refusal::NoGrant => "no-grant",
            Refusal::Rejected => "rejected",
            Refusal::TooManyPages => "too-many-pages",
            Refusal::JobOver => "job-over",
            Refusal::JobActive => "job-active",
            Refusal::NotSuspended => "not-suspended",
            Refusal::LimitReached => "limit-reached",
            Refusal::ModemDown => "modem-down",
            Refusal::ModemBusy => "modem-busy",
            Refusal::GrantClosed => "grant-closed",
            Refusal::CallKnown => "call-known",
            Refusal::NotConnected => "not-connected",
            Refusal::PageOrder => "page-order",
            Refusal::CallMissing => "call-missing",
            Refusal::PagesMismatch => "pages-mismatch",
            Refusal::PagesLeft => "pages-left",
            Refusal::Full => "full",
            Refusal::Unavailable => "unavailable",
            Refusal::GivenUp => "given-up",
            Refusal::FloorHigh => "floor-high",
            Refusal::PurgeHigh => "purge-high",
        }
    }

    /// The status of the reply, of RFC 9110, section 15.
    pub fn status(self) -> u16
        ensures { result ≡ refusal_status self }
    {
        match self {
            Refusal::BadHttp | Refusal::BadClient | Refusal::BadNumber | Refusal::BadBody(_) => 400,
            Refusal::TooLarge => 413,
            Refusal::NoRoute | Refusal::NoJob | Refusal::NoModem | Refusal::NoGrant => 404,
            Refusal::Rejected | Refusal::TooManyPages => 403,
            Refusal::NumberReused
            | Refusal::JobOver
            | Refusal::JobActive
            | Refusal::NotSuspended
            | Refusal::LimitReached
            | Refusal::ModemDown
            | Refusal::ModemBusy
            | Refusal::GrantClosed
            | Refusal::CallKnown
            | Refusal::NotConnected
            | Refusal::PageOrder
            | Refusal::CallMissing
            | Refusal::PagesMismatch
            | Refusal::PagesLeft
            | Refusal::FloorHigh
            | Refusal::PurgeHigh => 409,
            Refusal::GivenUp => 410,
            Refusal::Full => 507,
            Refusal::Unavailable => 503,
        }
    }
}

impl From<LineFault> for Refusal {
    ghost from_gives = { λ fault refusal. refusal ≡ line_refusal fault.line fault.kind };

    fn from(fault: LineFault) -> Refusal {
        match fault.kind {
            LineKind::NoMemory => Refusal::Unavailable,
            kind => Refusal::BadBody(BodyFault::Line {
                line: fault.line,
                kind,
            }),
        }
    }
}

impl From<OrderFault> for Refusal {
    ghost from_gives = { λ fault refusal. refusal ≡ order_refusal fault };

    fn from(fault: OrderFault) -> Refusal {
        match fault {
            OrderFault::NoMemory => Refusal::Unavailable,
            fault => Refusal::BadBody(BodyFault::Order(fault)),
        }
    }
}

impl From<AllocError> for Refusal {
    ghost use Rattle.fax_job.specs.declared.refusal.Refusal.TheVariants.{Unavailable};

    ghost from_gives = { λ _ refusal. refusal ≡ Unavailable };

    fn from(_: AllocError) -> Refusal {
        Refusal::Unavailable
    }
}
