//! The POSTs that are there as a round begins are answered together: one of each connection at most.
ghost use Rattle.std.specs.Prelude.{◌≡◌, ◌<◌, ℕ, None, false, get_or, length, IfSome};
ghost use Rattle.fax_net.specs.Joining.{FitsIn, Gathers, GivesOut, Joins, replies_in};
ghost use Rattle.fax_net.specs.declared.link.Link.{Link as KeptLink};

use crate::link::Link;
use fax_ask::Reply;
use fax_http::{Cut, Handler, Message};
use fax_job::Refusal;
use std::alloc::Global;

/// How many connections are served at once.
pub(crate) const PLACES: usize = 64;

/// Has the POSTs that are there to their end answered together. Without memory for that each waits for its place's turn.
pub(crate) fn answer_posts<H: Handler>(alloc: Global, links: &mut [Link], handler: &mut H)
    requires on { H.over handler.old ≡ false }
    requires places { length links.old ≡ PLACES }
    ensures { Joins H.together H.over handler.old handler.new links.old links.new }
{
    let mut cuts = [None; PLACES];
    let replies = match gather(alloc, links, &mut cuts) {
        Some(messages) if !messages.is_empty() => handler.answer_all(&messages),
        _ => return,
    };
    give_out(alloc, links, &cuts, replies);
}

/// The POSTs that are there to their end, in the order of their places, and how each is cut off. None without memory for them.
fn gather<'a>(
    alloc: Global,
    links: &'a [Link],
    cuts: &mut [Option<Cut>],
) -> Option<Vec<Message<'a>>>
    requires { length cuts.old ≡ length links.now }
    ensures as_many { length cuts.new ≡ length cuts.old }
    ensures gathered { IfSome result (λ messages. Gathers links.now cuts.new messages.items) }
{
    let mut messages = Vec::with_capacity(alloc, links.len()).ok()?;
    for place in 0..links.len() {
        cuts[place] = match links[place].due_post() {
            Some((message, cut)) => {
                messages.push(message).ok()?;
                Some(cut)
            }
            None => None,
        };
    }
    Some(messages)
}

/// Has each place whose message was cut off write its reply; without replies each gets 503.
fn give_out(alloc: Global, links: &mut [Link], cuts: &[Option<Cut>], replies: Option<Vec<Reply>>)
    requires fits { (place : ℕ) (d : KeptLink) → place < length links.old → FitsIn (get_or links.old place d) (get_or cuts.now place None) }
    requires as_many { length cuts.now ≡ length links.old }
    ensures { GivesOut links.old links.new cuts.now (replies_in replies) }
{
    let mut replies = replies.unwrap_or(Vec::new(alloc)).into_iter();
    for place in 0..links.len() {
        if let Some(cut) = cuts[place] {
            let reply = match replies.next() {
                Some(reply) => reply,
                None => Reply::refused(Refusal::Unavailable),
            };
            links[place].take_reply(cut, reply);
        }
    }
}
