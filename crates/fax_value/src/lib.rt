//! The single values of a fax queue: numbers to dial, names, statuses, moments, numbers of requests, and their limits.
//!
//! Most are the value of a key line in the manner of HylaFAX's sendq(5). A text is read as a value of its kind, or is
//! none.
#![tactic(auto)]

mod blank;
mod comma;
mod dial;
mod job_tag;
pub mod limits;
mod moment;
mod name;
mod number;
mod request_number;
mod status;
mod text_fault;
mod value;

pub use blank::{before_blanks, begins_with_blank, is_blank, is_of_blanks, without_blanks};
pub use comma::{at_comma, trimmed};
pub use dial::{Dial, DialFault};
pub use job_tag::JobTag;
pub use moment::Moment;
pub use name::{Name, is_name};
pub use number::number as read_number;
pub use request_number::RequestNumber;
pub use status::Status;
pub use text_fault::TextFault;
pub use value::{ends_with_backslash, is_plain};
