//! Requests read from method, path and body, and replies spelled.
//!
//! [`Routes::read_ask`] gives what is asked for, or the refusal of a path that isn't in the table of
//! requests or of a body at fault. A [`Reply`] is a status and the bytes of a body: JSON (RFC 8259),
//! key lines in the manner of HylaFAX's sendq(5), or a listing in the manner of its faxstat(1).
#![tactic(auto)]

mod answer;
mod ask;
mod detail;
pub mod laws;
mod method;
mod modem_name;
mod reply;
mod report;
mod request;
mod routes;
mod spelling;
mod view;

pub use answer::{Answer, Handed};
pub use ask::Ask;
pub use detail::Detail;
pub use method::Method;
pub use reply::Reply;
pub use routes::Routes;
pub use view::View;
