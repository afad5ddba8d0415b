//! The way to a queue over TCP.

use crate::line::Line;
use fax_http::{Answer, AnswerFault};
use fax_net::{Breaks, exchange};

/// The way to the queue at an address, with a connection for each message.
#[derive(Drop)]
pub struct QueueLine<'r> {
    rt: &'r HostRuntime,
    address: &'r str,
    breaks: Breaks<'r>,
}

impl<'r> QueueLine<'r> {
    /// The way to this host and port, with these breaks between tries.
    pub fn new(rt: &'r HostRuntime, address: &'r str, breaks: Breaks<'r>) -> QueueLine<'r> {
        QueueLine {
            rt,
            address,
            breaks,
        }
    }
}

impl<J> Line<J> for QueueLine<'_> {
    ghost use Rattle.std.specs.Prelude.{⊤};

    // What a peer gets and sends isn't known here, nor what the clock shows: `checks/run journals` tries them.
    ghost carries = { λ old journal message reply new. ⊤ };

    ghost pauses = { λ old again new. ⊤ };

    fn exchange(&mut self, _journal: &J, message: &[u8]) -> Result<Answer, AnswerFault> {
        exchange(self.rt, self.address, message)
    }

    fn pause(&mut self) -> bool {
        self.breaks.take()
    }
}
