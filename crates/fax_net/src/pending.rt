//! What is still to be written of a reply.
ghost use Rattle.std.specs.Prelude.{◌≡◌, ◌+◌, ◌≤◌, ◌++◌, [], drop, length};
ghost use Rattle.fax_net.specs.Lists.{is_none};

use fax_http::Outgoing;
use std::marker::Model;

/// The bytes of a reply that aren't written yet, or none.
#[derive(Drop)]
pub(crate) struct Pending {
    reply: Option<Outgoing>,
    sent: u128,
}

impl Model for Pending {
    ghost use Rattle.std.specs.Prelude.{ℕ, List, [], ◌≤◌, ◌<◌, ◌^◌, drop, length, unwrap_or};

    ghost Value = { List ℕ };

    ghost view = { λ pending. drop pending.sent (unwrap_or pending.reply []) };

    ghost invariant = { λ pending. (pending.sent ≤ length (unwrap_or pending.reply []))
        × (length (unwrap_or pending.reply []) < 2 ^ 65) };
}

impl Pending {
    pub(crate) fn nothing() -> Pending
        ensures { result ≡ [] }
    {
        Pending {
            reply: None,
            sent: 0,
        }
    }

    pub(crate) fn all_of(reply: Outgoing) -> Pending
        ensures { result ≡ reply }
    {
        let _bounded = reply.parts();
        Pending {
            reply: Some(reply),
            sent: 0,
        }
    }

    /// The bytes, in two parts: the front and what stands behind it.
    pub(crate) fn parts(&self) -> (&[u8], &[u8])
        ensures { result.0.now ++ result.1.now ≡ self.now }
    {
        match &self.reply {
            None => (&[], &[]),
            Some(reply) => {
                let (front, back) = reply.parts();
                behind(front, back, self.sent)
            }
        }
    }

    /// How many bytes they are.
    pub(crate) fn len(&self) -> u128
        ensures { result ≡ length self.now }
    {
        let (front, back) = self.parts();
        front.len() as u128 + back.len() as u128
    }

    pub(crate) fn is_empty(&self) -> bool
        ensures { result ≡ is_none self.now }
    {
        let (front, back) = self.parts();
        front.is_empty() && back.is_empty()
    }

    /// The first bytes were written.
    pub(crate) fn advance(&mut self, count: usize)
        requires { count ≤ length self.old }
        ensures { self.new ≡ drop count self.old }
    {
        self.sent += count as u128;
    }
}

/// What stands behind so many bytes of two parts.
fn behind<'b>(front: &'b [u8], back: &'b [u8], count: u128) -> (&'b [u8], &'b [u8])
    requires { count ≤ length front.now + length back.now }
    ensures { result.0.now ++ result.1.now ≡ drop count (front.now ++ back.now) }
{
    let front_length = front.len() as u128;
    if count < front_length {
        (&front[count as usize..], back)
    } else {
        (&[], &back[(count - front_length) as usize..])
    }
}
