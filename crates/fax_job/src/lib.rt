//! Jobs of a fax queue, and the key lines that state them, in the tags of HylaFAX's sendq(5).
//!
//! [`Lines`] are a list of (tag, value), which `fax_lines` reads from a text. From these comes an [`Order`], what a
//! submission asks for, an [`Alter`], what changes a held job, or an [`Import`], what an older queue recorded
//! of a job. A [`Job`] is a record whose numbers are within their limits, and it is written as key lines again.
#![tactic(auto)]

mod alter;
mod import;
mod job;
mod line_text;
mod lines;
mod order;
mod refusal;
mod tag;
mod values;
mod writing;

pub use alter::Alter;
pub use fax_value::{
    Dial, DialFault, JobTag, Moment, Name, RequestNumber, Status, TextFault, at_comma,
    before_blanks, begins_with_blank, ends_with_backslash, is_blank, is_name, is_of_blanks,
    is_plain, limits, read_number, trimmed, without_blanks,
};
pub use import::Import;
pub use job::{Call, Job, JobFields, Phase, Wish};
pub use line_text::Line;
pub use lines::{LineFault, LineKind, Lines};
pub use order::{Order, OrderFault};
pub use refusal::{BodyFault, Refusal};
pub use tag::{is_known, is_tag};
pub use writing::write_lines;
