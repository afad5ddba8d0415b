//! Laws of the definitions.
//!
//! What such a function does is nothing: its contract is the law. The statements stand in
//! `specs/Laws.antt`.

ghost use Rattle.fax_http.specs.Laws.{OneDivision, OneMessage, ServesWholeInputs};

use crate::serving::Handler;
use std::io::{Read, Write};

/// Bytes begin with one message at most, and an input is divided into messages in one way.
pub fn one_division()
    ensures message { OneMessage }
    ensures division { OneDivision }
{}

/// Whoever answers to the end, and whatever pieces the input comes in: where neither the reader nor the writer fails, the
/// messages of the whole input are handed over, and what is written are their replies, with the refusal of what begins no message.
pub fn whole_inputs<R: Read, W: Write, H: Handler>()
    ensures { ServesWholeInputs R.remaining W.contents H.answers H.over }
{}
