//! Laws of the definitions.
//!
//! What such a function does is nothing: its contract is the law. The statements stand in
//! `specs/Laws.antt`.

ghost use Rattle.fax_net.specs.Laws.{EachItsOwn};

/// What each connection gets is the division of what it said itself, and its own replies in order, however the
/// connections are interleaved.
pub fn each_its_own()
    ensures { EachItsOwn }
{}
