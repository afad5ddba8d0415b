//! Laws of the definitions.
//!
//! What such a function does is nothing: its contract is the law. The statements stand in
//! `specs/Laws.antt` and `specs/Turns.antt`.

ghost use Rattle.fax_desk.specs.Laws.{OneReplay};
ghost use Rattle.fax_desk.specs.Turns.{TurnsAreASession};

use fax_http::Clock;

/// Two replays of one input, by offices of the same settings, reply the same, where no reply says that memory or
/// the store gave out.
pub fn one_replay()
    ensures { OneReplay }
{}

/// Messages that a queue answers one after the other, each at the moment that a clock gives, are a session: their
/// arrivals, with their replies. So `fax_once::laws::sessions` speaks of what was served.
pub fn turns_are_a_session<C: Clock>()
    ensures { TurnsAreASession C.gives }
{}
