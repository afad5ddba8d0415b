//! Laws of what the program leaves.
//!
//! What such a function does is nothing: its contract is the law. The statements stand in `specs/Restarts.antt`.

ghost use Rattle.faxqd.specs.Restarts.{RestartsHaveOneHistory};

use fax_http::Clock;

/// However often the program is started on one database's files, with whatever setup and controls, and however each
/// start ends: there is one list of accepted requests, each at the moment that the clock of its start gave, which tells
/// all that was answered, and what the files hold.
pub fn restarts<C: Clock>()
    ensures { RestartsHaveOneHistory C.gives }
{}
