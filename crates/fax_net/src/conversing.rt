//! One connection of many: what is done for it at its turn, none of which waits for its peer.
ghost use Rattle.std.specs.Prelude.{◌≡◌, ◌&&◌, nat_le, nat_lt, true, false};
ghost use Rattle.fax_http.specs.Serving.{replying};
ghost use Rattle.fax_net.specs.History.{IsAttended, room, untaken};
ghost use Rattle.fax_net.specs.Link.{HasAnswered, awaits, is_done, is_taken};
ghost use Rattle.fax_net.specs.Deeds.{Admits, Does, HoldsUp, TakesIn, TakesMore, Writes};
ghost use Rattle.fax_net.specs.Many.{IsSettled, Moves};

use crate::link::{Link, Stage, stage_behind};
use crate::peers::{Coming, Moved, Peers};
use fax_http::{Found, Handler, answer_front};

/// Does what there is to do at a place, and gives whether more may be to do there at once. What is read goes through
/// `piece`. Where `is_full`, there is no room for a listing.
pub(crate) fn serve_place<P: Peers, H: Handler>(
    peers: &mut P,
    place: usize,
    link: &mut Link,
    left: &mut u64,
    is_full: bool,
    handler: &mut H,
    piece: &mut [u8],
) -> bool
    requires { H.over handler.old ≡ false }
    ensures { Moves P.did (replying H.answers H.together) H.over place peers.old peers.new handler.old handler.new link.old link.new left.old left.new
        (λ earlier. is_full ≡ (is_taken link.old.stage && nat_le room (untaken earlier))) result (IsAttended result (nat_lt 0 left.new)) }
{
    if link.is_free() {
        admit(peers, place, link, left)
    } else {
        converse(peers, place, link, is_full, handler, piece)
    }
}

/// Gives a free place to a connection that waits, where more are to come.
fn admit<P: Peers>(peers: &mut P, place: usize, link: &mut Link, left: &mut u64) -> bool
    requires { link.old.stage ≡ Stage.Free }
    ensures { Admits P.did place peers.old peers.new link.old link.new left.old left.new result }
{
    if *left == 0 {
        return false;
    }
    match peers.admit(place) {
        Coming::One => {
            *left -= 1;
            link.clear(Stage::Open);
            true
        }
        Coming::Missed => {
            *left -= 1;
            false
        }
        Coming::Nobody => false,
    }
}

/// Reads where a message is awaited, answers one that is there, writes what is owed, ends what is done, and reads again unless
/// something was written: where nothing more came then, there is nothing to do until the peer says more. One that asks for
/// a listing is held while there is no room.
fn converse<P: Peers, H: Handler>(
    peers: &mut P,
    place: usize,
    link: &mut Link,
    is_full: bool,
    handler: &mut H,
    piece: &mut [u8],
) -> bool
    requires on { H.over handler.old ≡ false }
    requires taken { ¬ (link.old.stage ≡ Stage.Free) }
    ensures { Moves P.did (replying H.answers H.together) H.over place peers.old peers.new handler.old handler.new link.old link.new 0 0
        (λ earlier. is_full ≡ nat_le room (untaken earlier)) result (IsSettled result) }
{
    let came = take_in(peers, place, link, piece);
    let answered = answer(link, is_full, handler);
    let refused = link.end_input();
    let written = write(peers, place, link);
    let ended = leave(peers, place, link);
    link.await_next();
    let read = take_more(peers, place, link, piece, written);
    let moved = came | answered | refused | written | ended | read;
    let closed = hold(peers, place, link, is_full & !moved);
    closed | moved & (read | !link.awaits())
}

/// Looks for the next message, and has it answered unless it is to be held.
fn answer<H: Handler>(link: &mut Link, is_full: bool, handler: &mut H) -> bool
    requires { H.over handler.old ≡ false }
    ensures { HasAnswered H.answers H.over handler.old handler.new is_full link.old link.new result }
{
    if !link.is_due() || link.is_held(is_full) {
        return false;
    }
    match answer_front(&mut link.said, handler) {
        Found::Answered(reply) => {
            link.messages = link.messages.saturating_add(1);
            link.owe(reply, stage_behind(link.messages));
            true
        }
        Found::Last(reply) => {
            link.owe(reply, Stage::Ending);
            true
        }
        Found::Refused(reply) => {
            link.owe(reply, Stage::Ending);
            true
        }
        Found::NotYet => {
            link.is_awaited = true;
            false
        }
    }
}

/// Holds a connection that asks for a listing while there is no room for it. Returns whether it was closed, since its time
/// is over.
fn hold<P: Peers>(peers: &mut P, place: usize, link: &mut Link, is_full: bool) -> bool
    ensures { HoldsUp P.did place peers.old peers.new link.old link.new is_full result }
{
    if !link.is_held(is_full) || peers.hold(place) {
        return false;
    }
    link.clear(Stage::Free);
    true
}

/// Writes once of what is owed.
pub(crate) fn write<P: Peers>(peers: &mut P, place: usize, link: &mut Link) -> bool
    ensures does { Writes P.did place peers.old peers.new link.old link.new result }
    ensures still { result ≡ false → link.new ≡ link.old }
{
    if !link.is_owing() {
        return false;
    }
    let (front, back) = link.pending.parts();
    match peers.write(place, front, back) {
        Moved::Bytes(count) => {
            link.pending.advance(count);
            true
        }
        Moved::Nothing => false,
        Moved::End | Moved::Failed => {
            link.clear(Stage::Free);
            true
        }
    }
}

/// Ends a connection for which all is written.
fn leave<P: Peers>(peers: &mut P, place: usize, link: &mut Link) -> bool
    ensures does { Does P.did place peers.old peers.new link.old link.new result }
    ensures still { result ≡ false → link.new ≡ link.old }
    ensures left { result ≡ false → is_done link.old ≡ false }
{
    if !link.is_done() {
        return false;
    }
    peers.leave(place);
    link.clear(Stage::Free);
    true
}

/// Reads again where a message is awaited, and returns whether more may be to do at once. After a write nothing is read: what
/// the peer says to that comes with the next look, beside what others say.
fn take_more<P: Peers>(
    peers: &mut P,
    place: usize,
    link: &mut Link,
    piece: &mut [u8],
    has_written: bool,
) -> bool
    ensures does { TakesMore P.did place peers.old peers.new link.old link.new has_written result }
    ensures still { result ≡ false → link.new ≡ link.old }
{
    has_written || take_in(peers, place, link, piece)
}

/// Reads once where a message is awaited.
pub(crate) fn take_in<P: Peers>(
    peers: &mut P,
    place: usize,
    link: &mut Link,
    piece: &mut [u8],
) -> bool
    ensures does { TakesIn P.did place peers.old peers.new link.old link.new result }
    ensures still { result ≡ false → link.new ≡ link.old }
    ensures paid { result ≡ true → awaits link.old ≡ true }
{
    if !link.awaits() {
        return false;
    }
    let room = link.said.room().min(piece.len());
    match peers.read(place, &mut piece[..room]) {
        Moved::Bytes(count) => {
            link.said.put(&piece[..count]);
            link.is_awaited = false;
            true
        }
        Moved::Nothing => false,
        Moved::End => {
            link.stage = Stage::Ended;
            true
        }
        Moved::Failed => {
            link.clear(Stage::Free);
            true
        }
    }
}
