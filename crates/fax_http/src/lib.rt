//! Messages over a stream of bytes (RFC 9112, sections 2 to 6), and the replies to them.
//!
//! A stream is divided into [`Message`]s, each is answered by a [`Handler`], and its reply is written before the next is
//! read to its end: that is what [`serve`] does, over any reader and writer, which are [`Watched`]. A [`Clock`] gives the
//! moments. [`laws`] has what is proved of the definitions.
//!
//! [`read_answer`] is the other side: it reads the reply to one request that was sent.
#![tactic(auto)]

mod answer;
mod buffer;
mod clock;
mod cut;
mod device;
mod exchange;
mod head;
pub mod laws;
mod message;
mod outgoing;
mod serving;
mod turn;

pub use answer::{Answer, AnswerFault, read_answer};
pub use buffer::{BUFFER_LIMIT, Buffer};
pub use clock::{Clock, MachineClock, SaidClock, moment_of};
pub use cut::{Cut, post_at};
pub use device::{ReadFailed, Watched, WriteFailed};
pub use message::{Broken, Front, Message, split_message};
pub use outgoing::Outgoing;
pub use serving::{Bounds, End, Handler, Served, serve};
pub use turn::{Found, answer_front};
