//! The way from a client to its queue and back.

use fax_http::{Answer, AnswerFault};

/// The way to a queue and back. It may lose, double and reorder what it carries. `J` is the client's journal.
pub trait Line<J> {
    ghost use Rattle.std.specs.Prelude.{ℕ, Bool, List};
    ghost use Rattle.fax_client.specs.Line.{Reply};

    // What may come back for a message that is sent while the journal is this, and the line after it.
    ghost carries: { Self → J → List ℕ → Reply → Self → Type 0 };

    // Whether there may be another try after a pause, and the line after it.
    ghost pauses: { Self → Bool → Self → Type 0 };

    /// Sends a message once, and reads a reply. It need not be the queue's. The journal stays as it is during the call.
    ///
    /// # Errors
    ///
    /// `NoReply`, or `NoMemory`. Whether the message came to the queue isn't known.
    fn exchange(&mut self, journal: &J, message: &[u8]) -> Result<Answer, AnswerFault>
        ensures { carries self.old journal.now message.now result self.new };

    /// Waits before the next try. Returns whether there is to be one: its time may be over.
    fn pause(&mut self) -> bool
        ensures { pauses self.old result self.new };
}
