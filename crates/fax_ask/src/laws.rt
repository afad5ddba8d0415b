//! Laws of the definitions.
//!
//! Each function here changes nothing: its contract is the law. The statements stand in
//! `specs/Laws.antt`.

ghost use Rattle.fax_ask.specs.Laws.{AcceptedAre200Or201, AskOrRefusal, AsksOrHasFault, OneAsk, OneFault, OnlyUnavailableIs503, RoutedPathsLackLf};

/// A path that names a request has no LF. So a path, LF and a body tell one request from another.
pub fn paths()
    ensures { RoutedPathsLackLf }
{}

/// A method, a path and a body ask for one thing at most, what asks for something is refused for want
/// of memory alone, and a body has one fault at most. So what [`Routes::read_ask`](crate::Routes::read_ask) answers is fixed,
/// unless memory runs out.
pub fn asks()
    ensures one { OneAsk }
    ensures refused { AskOrRefusal }
    ensures fault { OneFault }
{}

/// A request with this body asks for something, or the body has a fault. So each body has its answer,
/// which [`Routes::read_ask`](crate::Routes::read_ask) gives unless memory runs out. All that is done
/// is to look whether the body is text.
pub fn each_asks_or_has_fault(body: &[u8])
    ensures { AsksOrHasFault body.now }
{
    let _ = str::from_utf8(body);
}

/// An accepted request is answered with 200 or 201, and a refused one with 503 only where memory or
/// the store gave out. So a reply of 503 says that the request was as good as lost.
pub fn statuses()
    ensures accepted { AcceptedAre200Or201 }
    ensures unavailable { OnlyUnavailableIs503 }
{}
