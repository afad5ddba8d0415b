//! The queue as what answers messages: each message becomes an arrival at the moment that the clock
//! gives for it.

ghost use Rattle.std.specs.Prelude.{◌≡◌, ℕ, length, IfSome, List};
ghost use Rattle.httparse.specs.Grammar.{RequestHead};
ghost use Rattle.fax_http.specs.Conversation.{Turn};
ghost use Rattle.fax_http.specs.Cut.{ArePartsOf};
ghost use Rattle.fax_http.specs.Joined.{AreMessages};
ghost use Rattle.fax_run.specs.declared.arrival.Arrival.{Arrival as ArrivalOf};
ghost use Rattle.fax_desk.specs.Desk.{Arrive, IsArrival};

use fax_ask::{Method, Reply};
use fax_http::{Clock, Handler, Message};
use fax_job::Moment;
use fax_once::{Arrival, Queue};
use sqlite::Alter;
use std::alloc::Global;

/// A queue and the clock that it is asked by.
#[derive(Drop)]
pub struct Desk<C: Clock + Drop, S: Alter> {
    alloc: Global,
    clock: C,
    queue: Queue<S>,
}

impl<C: Clock + Drop, S: Alter> Desk<C, S> {
    pub fn new(alloc: Global, clock: C, queue: Queue<S>) -> Desk<C, S>
        ensures clock { result.clock ≡ clock }
        ensures queue { result.queue ≡ queue }
    {
        Desk {
            alloc,
            clock,
            queue,
        }
    }

    /// The queue, as it stands.
    pub fn close(self) -> Queue<S>
        ensures { result ≡ self.queue }
    {
        let Desk {
            alloc: _,
            clock,
            queue,
        } = self;
        drop(clock);
        queue
    }
}

impl<C: Clock + Drop, S: Alter> Handler for Desk<C, S> {
    ghost use Rattle.std.specs.Prelude.{[], ◌∷◌};
    ghost use Rattle.fax_desk.specs.Desk.{HasAnswered};

    ghost answers = { λ old head body reply new. HasAnswered C.gives S.Store old (record { head = head; body = body; reply = reply } ∷ []) new };

    ghost together = { λ old turns new. HasAnswered C.gives S.Store old turns new };

    ghost over = { λ desk. desk.queue.is_shut };

    fn answer(&mut self, message: &Message<'_>) -> Reply {
        let moment = self.clock.moment(message.moment);
        let arrival = arrival_of(message, moment);
        self.queue.handle(self.alloc, &arrival)
    }

    fn answer_all(&mut self, messages: &[Message<'_>]) -> Option<Vec<Reply>> {
        let arrivals = arrivals_of(self.alloc, &mut self.clock, messages)?;
        self.queue.batch(self.alloc, &arrivals).ok()
    }

    fn is_over(&self) -> bool {
        self.queue.is_shut()
    }
}

/// The arrivals of messages, each at the moment that the clock gives then. None without memory for them.
fn arrivals_of<'b, C: Clock>(
    alloc: Global,
    clock: &mut C,
    messages: &[Message<'b>],
) -> Option<Vec<Arrival<'b>>>
    ensures as_many { IfSome result (λ arrivals. length arrivals.items ≡ length messages.now) }
    ensures arrived { (turns : List Turn) → AreMessages messages.now turns → (arrivals : List ArrivalOf)
        × Arrive C.gives clock.old turns arrivals clock.new × IfSome result (λ them. them.items ≡ arrivals) }
{
    let mut arrivals = Vec::with_capacity(alloc, messages.len()).unwrap_or(Vec::new(alloc));
    let mut are_whole = true;
    for message in messages {
        let moment = clock.moment(message.moment);
        are_whole &= arrivals.push(arrival_of(message, moment)).is_ok();
    }
    if are_whole { Some(arrivals) } else { None }
}

/// The arrival of a message at that moment.
fn arrival_of<'b>(message: &Message<'b>, moment: Moment) -> Arrival<'b>
    ensures { (head : RequestHead) (body : List ℕ) → ArePartsOf message.now head body → IsArrival head body moment result }
{
    Arrival {
        client: message.client,
        number: message.number,
        moment,
        method: Method::of(message.method),
        path: message.target,
        body: message.body,
    }
}
