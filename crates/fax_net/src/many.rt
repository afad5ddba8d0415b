//! Many connections are served side by side: each has its turn, and none waits for another's peer.
ghost use Rattle.std.specs.Prelude.{◌≡◌, ◌<◌, ◌&&◌, ℕ, true, false, length, get_or, nat_le, IfOk};
ghost use Rattle.fax_http.specs.Serving.{replying};
ghost use Rattle.fax_net.specs.History.{room};
ghost use Rattle.fax_net.specs.Link.{is_taken, untaken_in};
ghost use Rattle.fax_net.specs.declared.link.Link.{Link as KeptLink};
ghost use Rattle.fax_net.specs.Many.{Readies, Rounds, ServesMany};

use crate::conversing::{serve_place, take_in, write};
use crate::joining::{PLACES, answer_posts};
use crate::link::{Link, Stage};
use crate::peers::Peers;
use fax_http::Handler;
use std::alloc::{AllocError, Global};

/// How many bytes the replies may have that their peers haven't taken whole while a listing is begun.
const ROOM: u128 = 64_000_000;

/// The most bytes of one read.
const PIECE_LIMIT: usize = 4_096;

/// Serves connections until so many have come and are served to their end, or the handler is over. One that can't be
/// accepted counts as served. The server waits only where it has nothing to do for any of them.
pub(crate) fn serve_many<P: Peers, H: Handler>(
    alloc: Global,
    peers: &mut P,
    links: &mut [Link],
    count: u64,
    handler: &mut H,
)
    requires places { length links.old ≡ PLACES }
    requires free { (k : ℕ) (d : KeptLink) → k < length links.old → (get_or links.old k d).stage ≡ Stage.Free }
    ensures { ServesMany P.did (replying H.answers H.together) H.over count peers.old handler.old peers.new handler.new }
{
    let mut left = count;
    let mut is_busy = true;
    let mut piece = [0; PIECE_LIMIT];
    for _ in 0..u64::MAX {
        if handler.is_over() {
            return;
        }
        if left == 0 && are_free(links) {
            return;
        }
        peers.look(is_busy, left > 0);
        let held_back = answer_ready(alloc, peers, links, handler, &mut piece);
        is_busy = serve_round(peers, links, &mut left, handler, &mut piece, &held_back);
    }
}

/// Reads once where a message is awaited, and has the POSTs that are there answered together, unless one more look may find
/// more of them. Returns where something was read that waits for that look.
fn answer_ready<P: Peers, H: Handler>(
    alloc: Global,
    peers: &mut P,
    links: &mut [Link],
    handler: &mut H,
    piece: &mut [u8],
) -> [bool; PLACES]
    requires on { H.over handler.old ≡ false }
    requires places { length links.old ≡ PLACES }
    ensures { Readies P.did (replying H.answers H.together) H.over peers.old peers.new handler.old handler.new links.old links.new result }
{
    let mut has_read = [false; PLACES];
    for place in 0..links.len() {
        has_read[place] = take_in(peers, place, &mut links[place], piece);
    }
    if may_gain(links, &has_read) {
        return has_read;
    }
    answer_posts(alloc, links, handler);
    [false; PLACES]
}

/// Whether one more look may find more messages for those that are there to be answered with: some came just now, each that
/// is there did, and another connection may say more. So no message waits for two looks.
fn may_gain(links: &[Link], has_read: &[bool]) -> bool
    requires { length has_read.now ≡ length links.now }
{
    let mut has_some = false;
    let mut has_more = false;
    for place in 0..links.len() {
        if links[place].is_due() && !has_read[place] {
            return false;
        }
        has_some |= has_read[place];
        has_more |= links[place].awaits();
    }
    has_some && has_more
}

/// Gives each place its turn, but for those that are held back until the next look; once the handler is over, only what is owed
/// is written. Returns whether more may be to do at once.
fn serve_round<P: Peers, H: Handler>(
    peers: &mut P,
    links: &mut [Link],
    left: &mut u64,
    handler: &mut H,
    piece: &mut [u8],
    held_back: &[bool],
) -> bool
    requires places { length links.old ≡ PLACES }
    requires as_many { length held_back.now ≡ PLACES }
    ensures { Rounds P.did (replying H.answers H.together) H.over peers.old peers.new handler.old handler.new links.old links.new left.old left.new held_back.now result }
{
    let mut is_busy = false;
    for place in 0..links.len() {
        if handler.is_over() {
            write(peers, place, &mut links[place]);
            continue;
        }
        if held_back[place] {
            is_busy = true;
            continue;
        }
        let is_full = is_full(links, place);
        let link = &mut links[place];
        is_busy |= serve_place(peers, place, link, left, is_full, handler, piece);
    }
    is_busy
}

/// Whether there is no room for a listing. It isn't looked up for a place where nobody is.
fn is_full(links: &[Link], place: usize) -> bool
    requires places { length links.now ≡ PLACES }
    requires within { place < PLACES }
    ensures { (d : KeptLink) → result ≡ (is_taken (get_or links.now place d).stage && nat_le room (untaken_in links.now)) }
{
    !links[place].is_free() && fill_room(links)
}

/// Whether the replies that their peers haven't taken whole fill the room that they have.
fn fill_room(links: &[Link]) -> bool
    ensures { result ≡ nat_le room (untaken_in links.now) }
{
    let mut left = ROOM;
    for link in links {
        let untaken = link.untaken();
        if left <= untaken {
            return true;
        }
        left -= untaken;
    }
    false
}

/// Whether nobody is there.
fn are_free(links: &[Link]) -> bool
    ensures { result ≡ true → (k : ℕ) (d : KeptLink) → k < length links.now → (get_or links.now k d).stage ≡ Stage.Free }
{
    for link in links {
        if !link.is_free() {
            return false;
        }
    }
    true
}

/// The places. All memory for them is taken now.
pub(crate) fn free_places(alloc: Global) -> Result<Vec<Link>, AllocError>
    ensures places { IfOk result (λ links. length links.items ≡ PLACES) }
    ensures free { IfOk result (λ links. (k : ℕ) (d : KeptLink) → k < length links.items → (get_or links.items k d).stage ≡ Stage.Free) }
{
    let mut links = Vec::with_capacity(alloc, PLACES)?;
    for _ in 0..PLACES {
        links.push(Link::new(alloc)?)?;
    }
    Ok(links)
}
