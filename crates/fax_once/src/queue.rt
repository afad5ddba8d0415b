//! The send queue: takes one arrival after the other, and answers each.
//!
//! An accepted request's effect and its kept reply are one transaction of the store, and the reply's
//! bytes are made before its commit. A refused request changes nothing, and neither does a repeat of an
//! accepted one, which gets the kept reply.

ghost use Rattle.std.specs.Prelude.{◌≡◌, ◌<◌, ◌^◌, false, length, IfOk, IsTrue, OnErr};
ghost use Rattle.sqlite.specs.Effect.{Database};
ghost use Rattle.sqlite.specs.State.{HasCleanDisk};
ghost use Rattle.fax_ask.specs.Response.{refused_response};
ghost use Rattle.fax_ask.specs.declared.method.Method.TheVariants.{Get};
ghost use Rattle.fax_core.specs.Reply.{NoKeys};
ghost use Rattle.fax_store.specs.Store.{CommitsNothing, LeavesAlone, Rests, Serves, Stays};
ghost use Rattle.fax_schema.specs.Schema.{our_tables};
ghost use Rattle.fax_core.specs.Ledger.{IsKeptStatus};
ghost use Rattle.fax_once.specs.Handled.{IsSoundWith, Answers, Handles, IsGivenUp, IsUsed, SaysShut};
ghost use Rattle.fax_once.specs.Ran.{RunsWell, RunsAsSession};
ghost use Rattle.fax_decide.specs.Fault.{OnlyNoAnswer};
ghost use Rattle.fax_once.specs.Batch.{replies_to};
ghost use Rattle.fax_once.specs.Queue.{AnswersNew, ClosedWhereShut, From, Replies, settings, tables};
ghost use Rattle.fax_once.specs.Stop.{Stops, StopsAnswered, StopsIn};
ghost use Rattle.fax_run.specs.declared.arrival.Arrival.{Arrival as ArrivalOf};

use crate::acceptance::{Answered, answer_new};
use crate::arrival::get;
use crate::batch::{Batch, answer_together};
use crate::known::Known;
use crate::laws::{no_verdict_is_unavailable, one_verdict};
use crate::looking::{Looked, NewRequest, look_up};
use crate::sender::Sender;
use fax_ask::{Reply, Routes};
use fax_core::Ask as Step;
use fax_decide::{Fault, Office};
use fax_dest::{Controls, Setup};
use fax_job::{Moment, Refusal};
use fax_run::Arrival;
use fax_store::Store;
use sqlite::{Alter, Connection};
use std::alloc::{AllocError, Global};

/// The send queue over a store, by an office's setup and destination controls.
pub struct Queue<S: Alter> {
    store: Store<S>,
    office: Office,
    routes: Routes,
    /// Whether the last request was answered 503 and found that a fault of the disk has shut the store.
    is_shut: bool,
}

// By hand, so that a proof lets it go in one step.
impl<S: Alter + Drop> Drop for Queue<S> {
    fn drop(self) {
        let Queue {
            store: _,
            office: _,
            routes: _,
            is_shut: _,
        } = self;
    }
}

impl<S: Alter + Drop> Queue<S> {
    /// The queue that the store has, by this setup and these controls.
    ///
    /// # Errors
    ///
    /// Want of memory for the routes; then all three are dropped.
    pub fn new(
        alloc: Global,
        store: Store<S>,
        setup: Setup,
        controls: Controls,
    ) -> Result<Queue<S>, AllocError>
        ensures store { IfOk result (λ queue. queue.store ≡ store) }
        ensures office { IfOk result (λ queue. queue.office ≡ record { setup = setup; controls = controls }) }
        ensures open { IfOk result (λ queue. queue.is_shut ≡ false) }
    {
        let routes = Routes::new(alloc)?;
        Ok(Queue {
            store,
            office: Office { setup, controls },
            routes,
            is_shut: false,
        })
    }
}

impl<S: Alter> Queue<S> {
    /// Whether the last request found that a fault of the disk has shut the store. Then each further one is answered 503,
    /// until the files are opened again.
    pub fn is_shut(&self) -> bool
        ensures { result ≡ self.now.is_shut }
    {
        self.is_shut
    }

    /// Answers the request, after its effect where it is accepted.
    pub fn handle(&mut self, alloc: Global, arrival: &Arrival<'_>) -> Reply
        ensures office { self.new.office ≡ self.old.office }
        ensures clean { HasCleanDisk (tables S.Store self.new) → HasCleanDisk (tables S.Store self.old) }
        ensures handled { From S.Store self.old (λ m k. HasCleanDisk (tables S.Store self.new)
            → Handles (settings self.old) arrival.now m k result (tables S.Store self.new)) }
        ensures sound { From S.Store self.old (λ m k. HasCleanDisk (tables S.Store self.new)
            → IsSoundWith k (tables S.Store self.new)) }
        // A crash leaves what a crash before could leave, or what the request makes, with its reply kept: where the
        // store is shut, only if it is answered 503. While the store is open it leaves the last commit alone.
        ensures crash { From S.Store self.old (λ m k. StopsAnswered (settings self.old) arrival.now m k result
            (tables S.Store self.old) (tables S.Store self.new)) }
        ensures alone { Serves (tables S.Store self.new)
            → LeavesAlone (tables S.Store self.new) (tables S.Store self.new).committed.trees }
        // Whatever the rows say, a refusal changes nothing, a GET doesn't either, and nor does what comes under a used
        // number, or under one that is given up.
        ensures refused { ¬ IsKeptStatus result.status → Stays (tables S.Store self.old) (tables S.Store self.new) }
        ensures seen { arrival.now.method ≡ Get → Stays (tables S.Store self.old) (tables S.Store self.new) }
        ensures repeated { (db : Database) → db.schema ≡ our_tables → Rests (tables S.Store self.old) db
            → IsUsed arrival.now db → Rests (tables S.Store self.new) db }
        ensures given { (db : Database) → db.schema ≡ our_tables → Rests (tables S.Store self.old) db
            → IsGivenUp arrival.now db → Rests (tables S.Store self.new) db }
        // So what `close` gives back is what `Store::adopt` takes.
        ensures idle { From S.Store self.old (λ m k. Serves (tables S.Store self.new)
            → (tables S.Store self.new).in_transaction ≡ false) }
        ensures shut { IsTrue self.new.is_shut → HasCleanDisk (tables S.Store self.new)
            → (tables S.Store self.new).is_open ≡ false }
        // And where an answer of 503 leaves it shut, the queue says so, unless the engine can't be asked.
        ensures says { From S.Store self.old (λ m k. HasCleanDisk (tables S.Store self.new)
            → result ≡ refused_response Refusal.Unavailable NoKeys
            → SaysShut self.new.is_shut (tables S.Store self.new)) }
    {
        one_verdict();
        no_verdict_is_unavailable();
        match self.answer(alloc, arrival) {
            Ok(reply) => {
                self.is_shut = false;
                reply
            }
            Err(_) => {
                self.is_shut = self.store.is_shut() == Ok(true);
                Reply::refused(Refusal::Unavailable)
            }
        }
    }

    /// Answers `GET` of that path at that moment, as [`Queue::handle`] does. Nothing changes.
    pub fn view(&mut self, alloc: Global, path: &str, moment: Moment) -> Reply
        ensures office { self.new.office ≡ self.old.office }
        ensures clean { HasCleanDisk (tables S.Store self.new) → HasCleanDisk (tables S.Store self.old) }
        ensures stays { Stays (tables S.Store self.old) (tables S.Store self.new) }
        ensures crash { From S.Store self.old (λ m k. CommitsNothing (tables S.Store self.old)
            (tables S.Store self.new)) }
        ensures viewed { From S.Store self.old (λ m k. HasCleanDisk (tables S.Store self.new) → (a : ArrivalOf)
            × (a.method ≡ Get) × (a.path.now ≡ path.now) × (a.moment ≡ moment)
            × Handles (settings self.old) a m k result (tables S.Store self.new)) }
    {
        let arrival = get(path, moment);
        self.handle(alloc, &arrival)
    }

    /// The database, as the queue has it.
    pub fn close(self) -> Connection<S>
        ensures { result ≡ self.store.conn }
    {
        let Queue {
            store,
            office: _,
            routes: _,
            is_shut: _,
        } = self;
        store.close()
    }

    /// Answers the arrivals one after the other. The room for their replies is taken first.
    ///
    /// # Errors
    ///
    /// Want of memory for the replies; then no arrival was handled.
    pub fn run(&mut self, alloc: Global, arrivals: &[Arrival<'_>]) -> Result<Vec<Reply>, AllocError>
        ensures office { self.new.office ≡ self.old.office }
        ensures none { OnErr result (self.new ≡ self.old) }
        ensures as_many { IfOk result (λ replies. length replies.items ≡ length arrivals.now) }
        ensures clean { HasCleanDisk (tables S.Store self.new) → HasCleanDisk (tables S.Store self.old) }
        ensures ran { From S.Store self.old (λ m k. HasCleanDisk (tables S.Store self.new)
            → IfOk result (λ replies. RunsWell (settings self.old)
            (record { queue = m; kept = k }) arrivals.now replies.items (tables S.Store self.new))) }
        ensures crash { From S.Store self.old (λ m k. HasCleanDisk (tables S.Store self.new)
            → IfOk result (λ replies. StopsIn (settings self.old)
            (record { queue = m; kept = k }) arrivals.now replies.items (tables S.Store self.old)
            (tables S.Store self.new))) }
        ensures shut { ClosedWhereShut S.Store self.old → ClosedWhereShut S.Store self.new }
        // So it is one of the sessions of which `laws::sessions` tells, also where it was broken off.
        ensures session { From S.Store self.old (λ m k. HasCleanDisk (tables S.Store self.new)
            → IfOk result (λ replies. RunsAsSession (settings self.old)
            (record { queue = m; kept = k }) arrivals.now replies.items (tables S.Store self.old)
            (tables S.Store self.new))) }
    {
        let mut replies = Vec::with_capacity(alloc, arrivals.len())?;
        for arrival in arrivals {
            let reply = self.handle(alloc, arrival);
            replies.push(reply).unwrap();
        }
        Ok(replies)
    }

    /// Answers the arrivals of a batch one after the other, as [`Queue::run`] does, and commits what they change together:
    /// all of it is kept, or nothing. Where one of them has no answer, each is handled by itself.
    ///
    /// # Errors
    ///
    /// [`Fault::NoAnswer`]: there is no memory for the replies, or what the batch changes couldn't be committed. Then each
    /// arrival is to be answered 503.
    pub fn batch(&mut self, alloc: Global, arrivals: &[Arrival<'_>]) -> Result<Vec<Reply>, Fault>
        ensures office { self.new.office ≡ self.old.office }
        ensures as_many { IfOk result (λ replies. length replies.items ≡ length arrivals.now) }
        ensures clean { HasCleanDisk (tables S.Store self.new) → HasCleanDisk (tables S.Store self.old) }
        ensures ran { From S.Store self.old (λ m k. HasCleanDisk (tables S.Store self.new)
            → RunsWell (settings self.old) (record { queue = m; kept = k }) arrivals.now (replies_to arrivals.now result)
            (tables S.Store self.new)) }
        ensures crash { From S.Store self.old (λ m k. HasCleanDisk (tables S.Store self.new)
            → StopsIn (settings self.old) (record { queue = m; kept = k }) arrivals.now (replies_to arrivals.now result)
            (tables S.Store self.old) (tables S.Store self.new)) }
        // While the store is open a crash leaves the last commit alone.
        ensures alone { Serves (tables S.Store self.new)
            → LeavesAlone (tables S.Store self.new) (tables S.Store self.new).committed.trees }
        ensures shut { ClosedWhereShut S.Store self.new }
    {
        let answered = answer_together(
            &mut self.store,
            &self.office,
            &self.routes,
            alloc,
            arrivals,
        );
        self.is_shut = false;
        let Ok(batch) = answered else {
            return Ok(self.run(alloc, arrivals)?);
        };
        match batch {
            Batch::Done(replies) => Ok(replies),
            Batch::Failed => {
                self.is_shut = self.store.is_shut() == Ok(true);
                Err(Fault::NoAnswer)
            }
        }
    }

    /// Answers the request, as [`Queue::handle`] does, or says why there is no answer but 27.
    ///
    /// # Errors
    ///
    /// [`Fault::NoAnswer`] where memory or the store gave out, and [`Fault::Strange`] where rows aren't lawful or
    /// contradict each other; nothing has changed.
    pub fn answer(&mut self, alloc: Global, arrival: &Arrival<'_>) -> Result<Reply, Fault>
        ensures leaves { Replies S.Store self.old self.new result }
        ensures seen { arrival.now.method ≡ Get → Stays (tables S.Store self.old) (tables S.Store self.new) }
        ensures repeated { (db : Database) → db.schema ≡ our_tables → Rests (tables S.Store self.old) db
            → IsUsed arrival.now db → Rests (tables S.Store self.new) db }
        ensures given { (db : Database) → db.schema ≡ our_tables → Rests (tables S.Store self.old) db
            → IsGivenUp arrival.now db → Rests (tables S.Store self.new) db }
        ensures crash { From S.Store self.old (λ m k. Stops (settings self.old) arrival.now m k
            (tables S.Store self.old) (tables S.Store self.new)) }
        ensures answered { From S.Store self.old (λ m k. HasCleanDisk (tables S.Store self.new)
            → Answers (settings self.old) arrival.now m k result (tables S.Store self.new)) }
        // No rows of a sound queue are strange, while the store serves.
        ensures cause { From S.Store self.old (λ m k. Serves (tables S.Store self.new)
            → OnlyNoAnswer result) }
    {
        match look_up(&mut self.store, &self.office, &self.routes, alloc, arrival)? {
            Looked::Known(reply) => Ok(reply),
            Looked::New(NewRequest { sender, ask, floor }) => {
                self.step_once(alloc, arrival, &sender, ask, floor)
            }
        }
    }

    /// Answers a request whose number is new, by the tables within the work that its change is made in.
    fn step_once(
        &mut self,
        alloc: Global,
        arrival: &Arrival<'_>,
        sender: &Sender<'_>,
        ask: Step,
        floor: u64,
    ) -> Result<Reply, Fault>
        requires { floor < 10 ^ 18 }
        ensures { AnswersNew S.Store self.old self.new result arrival.now sender.now ask floor }
    {
        let mut work = self.store.begin()?;
        let mut known = Known::nothing();
        match answer_new(
            &mut work,
            &self.office,
            alloc,
            arrival,
            sender,
            ask,
            floor,
            &mut known,
        )? {
            Answered::Unchanged(reply) => Ok(reply),
            Answered::Accepted(reply) => {
                known.settle(&mut work)?;
                work.commit()?;
                Ok(reply)
            }
        }
    }
}
