//! The jobs that wait, read a few at a time.

ghost use Rattle.std.specs.Prelude.{◌≡◌, [], None, Some, OnOk};
ghost use Rattle.std.specs.Vec.Iter.{into_iter_items};
ghost use Rattle.sqlite.specs.State.{HasCleanDisk};
ghost use Rattle.fax_core.specs.Ledger.{Ledger};
ghost use Rattle.fax_core.specs.Queue.{Queue};
ghost use Rattle.fax_core.specs.State.{calls_to};
ghost use Rattle.fax_store.specs.Calls.{AnswersRows, Looks, Recalls, shown};
ghost use Rattle.fax_store.specs.Candidates.{AreAsked, Gives, IsPage, IsProspect, Reaches, ReadsOn, StandsAt, Starts};
ghost use Rattle.fax_store.specs.Grant.{CallsStand};
ghost use Rattle.fax_store.specs.Store.{MeansNow, Serves};
ghost use Rattle.fax_tables.specs.Fault.{OrUnavailable};

use crate::store::Store;
use fax_job::{Dial, Moment};
use fax_schema::statements::{
    SELECT_BEHIND_NUMBER, SELECT_BEHIND_PRIORITY, SELECT_BEHIND_TIME, SELECT_FIRST,
};
use fax_tables::{Prospect, StoreFault, prospect_in};
use sqlite::{Alter, Row, params};
use std::vec::IntoIter;

/// How many jobs the first page has at most.
const FIRST_PAGE: u32 = 16;

/// How many jobs any page has at most. A job of a page takes a few hundred bytes.
const LONGEST_PAGE: u32 = 4_096;

/// Which of the jobs that wait are asked for: those that may be tried at a moment, but for those to a number, where one
/// is named.
#[derive(Drop)]
pub struct Asked {
    t: Moment,
    but: Option<Dial>,
}

impl Asked {
    ghost use Rattle.std.specs.Prelude.{◌≡◌};
    ghost use Rattle.sqlite.specs.Values.{or_null};
    ghost use Rattle.sqlite.specs.declared.types.Value.TheVariants.{Text};
    ghost use Rattle.fax_store.specs.Candidates.{value_of};

    /// The number that is named, for SQL.
    fn but(&self) -> Option<&str>
        ensures { or_null (λ s. Text s.now) result ≡ value_of self.now.but }
    {
        match &self.but {
            Some(dial) => Some(dial.text()),
            None => None,
        }
    }
}

/// Behind which of the jobs that wait those stand that are still to be read, in the order of the choice.
#[derive(Clone, Copy)]
pub enum Front {
    /// Behind none: all are left.
    First,
    /// Behind the job of this priority, this time to send and this number.
    Number(u32, u32, u32),
    /// Behind all jobs of this priority and this time to send.
    Time(u32, u32),
    /// Behind all jobs of this priority.
    Priority(u32),
}

impl Front {
    ghost use Rattle.std.specs.Prelude.{◌≡◌};
    ghost use Rattle.fax_store.specs.Candidates.{front_of, is_last, next_front};
    ghost use Rattle.fax_tables.specs.declared.prospect.Prospect.{Prospect};

    /// Behind that job.
    fn of(last: &Prospect) -> Front
        ensures { result ≡ front_of last.now }
    {
        Front::Number(u32::from(last.priority), last.tts.seconds(), last.job)
    }

    /// The next one, where one statement finds no more jobs behind this one.
    fn next(self) -> Front
        ensures { result ≡ next_front self }
    {
        match self {
            Front::Number(priority, tts, _) => Front::Time(priority, tts),
            Front::Time(priority, _) => Front::Priority(priority),
            Front::First | Front::Priority(_) => self,
        }
    }

    /// Whether one statement finds all jobs behind it.
    fn is_last(self) -> bool
        ensures { result ≡ is_last self }
    {
        match self {
            Front::First | Front::Priority(_) => true,
            Front::Number(..) | Front::Time(..) => false,
        }
    }
}

/// The jobs that wait and are asked for, one after the other in the order of the choice:
/// by priority, then time to send, then number. They are read in pages, of 16 jobs at first, then of
/// twice as many each, and of 4096 at most. It may be dropped at any job.
pub struct Candidates<'s, S: Alter, P: Drop = IntoIter<Row>, A: Drop = Asked> {
    pub(crate) store: &'s mut Store<S>,
    asked: A,
    // What was read and not given yet. Its type and that of `asked` are parameters, so that a drop shows what it leaves
    // behind `store`.
    page: P,
    front: Front,
    // How many jobs the next page has at most.
    most: u32,
}

impl<S: Alter> Store<S> {
    /// The jobs that wait and may be tried at `t`, to be read one at a time. None is read yet.
    pub fn candidates(&mut self, t: Moment) -> Candidates<'_, S>
        ensures { Starts S.Store self.entry.ghost_name self.old (record { t = t; but = None }) result }
    {
        self.asked_for(Asked { t, but: None })
    }

    /// The jobs that wait and may be tried at `t`, but for those to `dial`, to be read one at a time. None is read yet.
    pub fn candidates_but(&mut self, t: Moment, dial: Dial) -> Candidates<'_, S>
        ensures { Starts S.Store self.entry.ghost_name self.old (record { t = t; but = Some dial }) result }
    {
        self.asked_for(Asked { t, but: Some(dial) })
    }

    fn asked_for(&mut self, asked: Asked) -> Candidates<'_, S>
        ensures { Starts S.Store self.entry.ghost_name self.old asked result }
    {
        let page = Vec::new(self.alloc);
        Candidates {
            store: self,
            asked,
            page: page.into_iter(),
            front: Front::First,
            most: FIRST_PAGE,
        }
    }

    /// Of the jobs that are asked for, the rows of the first that one statement reads behind a front, at most `most`.
    fn page(&mut self, asked: &Asked, front: Front, most: u32) -> Result<Vec<Row>, StoreFault>
        ensures { Recalls S.Store self.old self.new result (λ m k rows. IsPage asked.now m front most rows.items) }
    {
        let (t, but) = (asked.t.seconds(), asked.but());
        match front {
            Front::First => self.show(SELECT_FIRST, params![t, most, but]),
            Front::Number(priority, tts, job) => {
                let params = params![t, most, but, priority, tts, job];
                self.show(SELECT_BEHIND_NUMBER, params)
            }
            Front::Time(priority, tts) => {
                let from = i64::from(tts) + 1;
                self.show(SELECT_BEHIND_TIME, params![t, most, but, priority, from])
            }
            Front::Priority(priority) => {
                let from = i64::from(priority) + 1;
                self.show(SELECT_BEHIND_PRIORITY, params![t, most, but, from])
            }
        }
    }
}

impl<S: Alter> Candidates<'_, S> {
    /// The next job as the choice looks at it, or none behind the last. After an error it isn't to be asked again.
    ///
    /// # Errors
    ///
    /// `Unavailable`, or `Strange` where what the choice asks of a job is no part of a lawful record.
    pub fn prospect(&mut self) -> Result<Option<Prospect>, StoreFault>
        ensures { Reaches S.Store self.old self.new result (λ found. found ≡ None)
            (λ m given. Gives IsProspect self.old.asked m given (into_iter_items self.new.page) self.new.front
            self.new.most) }
    {
        self.refill()?;
        match self.page.next() {
            Some(row) => Ok(Some(prospect_in(self.store.alloc, &row)?)),
            None => Ok(None),
        }
    }

    /// How many grants are open of jobs to that number.
    ///
    /// # Errors
    ///
    /// As those of [`Store::active_to`].
    pub fn active_to(&mut self, dial: &Dial) -> Result<u64, StoreFault>
        ensures same_reference { self.new.store.ghost_name ≡ self.old.store.ghost_name }
        ensures leaves { Looks S.Store self.old.store.now self.new.store.now result }
        ensures opens { OnOk result (HasCleanDisk (shown S.Store self.new.store.now)
            → Serves (shown S.Store self.new.store.now)) }
        ensures same { (self.new.asked ≡ self.old.asked) × (self.new.page ≡ self.old.page)
            × (self.new.front ≡ self.old.front) × (self.new.most ≡ self.old.most) }
        ensures found { (m : Queue) (k : Ledger) → MeansNow (shown S.Store self.old.store.now) m k
            → Serves (shown S.Store self.new.store.now) → OrUnavailable result (λ calls. calls ≡ calls_to dial.now m) }
        ensures stands { AnswersRows S.Store self.old.store.now self.new.store.now result (λ db. CallsStand db dial.now) }
    {
        self.store.active_to(dial)
    }

    /// Reads on, where all that was read is given, until there is a job or none is left.
    fn refill(&mut self) -> Result<(), StoreFault>
        ensures { Reaches S.Store self.old self.new result (λ _. into_iter_items self.new.page ≡ [])
            (λ m given _. StandsAt self.old.asked m given (into_iter_items self.new.page) self.new.front self.new.most
            × (into_iter_items self.new.page ≡ [] → AreAsked self.old.asked m given)) }
    {
        while self.page.len() == 0 {
            if self.read_on()? {
                break;
            }
        }
        Ok(())
    }

    /// Reads the next page, where all of the last one is given. Gives whether none is left where it has no job.
    fn read_on(&mut self) -> Result<bool, StoreFault>
        ensures { ReadsOn S.Store self.old self.new result }
    {
        let is_last = self.front.is_last();
        let page = self.store.page(&self.asked, self.front, self.most)?;
        self.front = match page.last() {
            Some(row) => Front::of(&prospect_in(self.store.alloc, row)?),
            None => self.front.next(),
        };
        self.page = page.into_iter();
        self.most = self.most.saturating_add(self.most).min(LONGEST_PAGE);
        Ok(is_last)
    }
}

impl<S: Alter, P: Drop, A: Drop> Drop for Candidates<'_, S, P, A> {
    fn drop(self)
        ensures { self.exit.0.now ≡ self.entry.store.now }
    {
        let Candidates {
            store: _,
            asked: _,
            page: _,
            front: _,
            most: _,
        } = self;
    }
}
