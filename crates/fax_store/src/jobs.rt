//! The jobs.

ghost use Rattle.std.specs.Prelude.{◌≡◌, ◌<◌, ℕ, List, [], ◌∷◌, map, None, Err, is_err};
ghost use Rattle.std.specs.Option.{option_map};
ghost use Rattle.fax_core.specs.Job.{job_of, fields_of};
ghost use Rattle.fax_core.specs.Queue.{job_numbered};
ghost use Rattle.fax_store.specs.Calls.{LooksUp, Makes, MakesIf, MakesWhere, RecallsLawful, RecallsOnly, Writes, WritesIf, WritesWhere};
ghost use Rattle.fax_store.specs.Job.{BriefStands, BriefsStand, BriefsStandFrom, HasJobRow, JobStands, IsChange, IsNewJob, jobs_from, with_change, with_placed, with_one_more_job, with_expired, with_expired_in, with_failed_in, with_set};
ghost use Rattle.fax_store.specs.Times.{is_among, is_expired};
ghost use Rattle.fax_tables.specs.Job.{brief};
ghost use Rattle.fax_tables.specs.Row.{number};

use crate::store::Store;
use crate::work::Work;
use fax_core::has_ended;
use fax_job::{Job, Moment, Phase};
use fax_schema::statements::{
    EXPIRE_JOBS, INSERT_JOB, SELECT_BRIEF, SELECT_BRIEFS, SELECT_BRIEFS_FROM, SELECT_EXPIRED,
    SELECT_JOB, UPDATE_JOB,
};
use fax_tables::{
    StoreFault, brief_in, briefs_in, job_in, killtime_number, phase_number, spelling, wish_number,
};
use sqlite::{Alter, Row, params};

impl<S: Alter> Store<S> {
    /// The job of this number.
    ///
    /// # Errors
    ///
    /// `Unavailable`, or `Strange` where its row is no lawful record.
    pub fn job(&mut self, job: u32) -> Result<Option<Job>, StoreFault>
        ensures { LooksUp S.Store self.old self.new result (λ m. option_map fields_of (job_numbered job m))
            (λ db. HasJobRow db job) (λ db. JobStands db job) }
    {
        match self.find(SELECT_JOB, params![job])? {
            Some(row) => Ok(Some(job_in(self.alloc, &row)?)),
            None => Ok(None),
        }
    }

    /// The job of this number without its extra lines, which aren't read.
    ///
    /// # Errors
    ///
    /// `Unavailable`, or `Strange` where the rest of its row is no part of a lawful record.
    pub fn brief(&mut self, job: u32) -> Result<Option<Job>, StoreFault>
        ensures { LooksUp S.Store self.old self.new result (λ m. option_map (λ j. brief (fields_of j))
            (job_numbered job m)) (λ db. HasJobRow db job) (λ db. BriefStands db job) }
    {
        match self.find(SELECT_BRIEF, params![job])? {
            Some(row) => Ok(Some(brief_in(self.alloc, &row)?)),
            None => Ok(None),
        }
    }

    /// The jobs of the queue without their extra lines, which aren't read, in ascending order of their numbers.
    ///
    /// # Errors
    ///
    /// `Unavailable`, or `Strange` where the rest of a row is no part of a valid record.
    pub fn briefs(&mut self) -> Result<Vec<Job>, StoreFault>
        ensures { RecallsLawful S.Store self.old self.new result (λ m k found. found.items
            ≡ map (λ j. brief (fields_of j)) m.jobs) (λ db found. BriefsStand db found.items)
            (λ found. map brief found.items ≡ found.items) }
    {
        let shown = self.show(SELECT_BRIEFS, &[])?;
        briefs_in(self.alloc, shown.as_slice())
    }

    /// The jobs from the number `first` on, as [`Store::briefs`] has all.
    ///
    /// # Errors
    ///
    /// Those of [`Store::briefs`].
    pub fn briefs_from(&mut self, first: u32) -> Result<Vec<Job>, StoreFault>
        ensures { RecallsLawful S.Store self.old self.new result (λ m k found. found.items
            ≡ map (λ j. brief (fields_of j)) (jobs_from first m)) (λ db found. BriefsStandFrom db first found.items)
            (λ found. map brief found.items ≡ found.items) }
    {
        let shown = self.show(SELECT_BRIEFS_FROM, params![first])?;
        briefs_in(self.alloc, shown.as_slice())
    }

    fn insert_job(&mut self, job: &Job) -> Result<(), StoreFault>
        ensures { WritesIf S.Store self.old self.new result (λ m k. job_numbered job.now.job m ≡ None)
            (with_placed (job_of job.now)) (λ k. k) }
    {
        let job = job.fields();
        let extra = spelling(self.alloc, &job.extra)?;
        self.insert(
            INSERT_JOB,
            params![
                job.job,
                job.dial.text(),
                job.modem.as_str(),
                job.jobtag.as_str(),
                job.status.text(),
                job.tts.seconds(),
                killtime_number(job.killtime),
                u32::from(job.priority),
                u32::from(job.npages),
                u32::from(job.totpages),
                u32::from(job.ntries),
                u32::from(job.tottries),
                u32::from(job.maxtries),
                u32::from(job.ndials),
                u32::from(job.totdials),
                u32::from(job.maxdials),
                phase_number(job.phase),
                wish_number(job.wish),
                job.next,
                &extra,
            ],
        )
    }

    /// Sets what a change may set of a job.
    fn set_job(&mut self, job: &Job) -> Result<(), StoreFault>
        ensures { WritesWhere S.Store self.old self.new result (IsChange (job_of job.now))
            (with_set (job_of job.now)) (λ k. k) }
    {
        let job = job.fields();
        self.run(
            UPDATE_JOB,
            params![
                job.job,
                job.modem.as_str(),
                job.jobtag.as_str(),
                job.status.text(),
                job.tts.seconds(),
                killtime_number(job.killtime),
                u32::from(job.priority),
                u32::from(job.npages),
                u32::from(job.ntries),
                u32::from(job.tottries),
                u32::from(job.maxtries),
                u32::from(job.ndials),
                u32::from(job.totdials),
                u32::from(job.maxdials),
                phase_number(job.phase),
                wish_number(job.wish),
                job.next,
            ],
        )
    }

    /// Sets it, and where the job is over has it end at `t`.
    fn write_change(&mut self, job: &Job, t: Moment) -> Result<(), StoreFault>
        ensures { WritesWhere S.Store self.old self.new result (IsChange (job_of job.now))
            (with_change t (job_of job.now)) (λ k. k) }
    {
        self.set_job(job)?;
        let fields = job.fields();
        if !has_ended(fields.phase) {
            return Ok(());
        }
        self.end_job(fields.job, t)
    }

    fn write_expired(&mut self, t: Moment) -> Result<(), StoreFault>
        ensures { Writes S.Store self.old self.new result (with_expired t) (λ k. k) }
    {
        self.expire_in(Phase::Held, t)?;
        self.expire_in(Phase::Waiting, t)
    }

    /// The numbers of the jobs of this phase whose kill time is from 1 to `t`, in any order. An index has the answer.
    fn expired(&mut self, phase: Phase, t: Moment) -> Result<Vec<Row>, StoreFault>
        ensures { RecallsOnly S.Store self.old self.new result (λ m k found.
            (numbers : List ℕ) × (found.items ≡ map (λ n. number n ∷ []) numbers)
            × ((n : ℕ) → is_among numbers n ≡ is_expired phase t (job_numbered n m))) }
    {
        let rows = self.show(SELECT_EXPIRED, params![t.seconds(), phase_number(phase)])?;
        Ok(rows)
    }

    /// Lets each job of this phase fail, and end at `t`, whose kill time is from 1 to `t`. One phase at a time, since
    /// the index that finds them is by phase first. Where there is none, a question costs less than the change.
    fn expire_in(&mut self, phase: Phase, t: Moment) -> Result<(), StoreFault>
        ensures { Writes S.Store self.old self.new result (with_expired_in phase t) (λ k. k) }
    {
        let expired = self.expired(phase, t)?;
        if expired.len() == 0 {
            return Ok(());
        }
        self.end_rows(expired.as_slice(), t)?;
        self.fail_in(phase, t)
    }

    /// Lets each job of this phase fail whose kill time is from 1 to `t`, and leaves its end as it is.
    fn fail_in(&mut self, phase: Phase, t: Moment) -> Result<(), StoreFault>
        ensures { Writes S.Store self.old self.new result (with_failed_in phase t) (λ k. k) }
    {
        self.run(EXPIRE_JOBS, params![t.seconds(), phase_number(phase)])
    }

    fn add_job(&mut self, job: &Job, t: Moment) -> Result<(), StoreFault>
        ensures { WritesIf S.Store self.old self.new result (λ m k. IsNewJob (job_of job.now) m)
            (with_one_more_job t (job_of job.now)) (λ k. k) }
    {
        self.insert_job(job)?;
        self.insert_times(job, t)
    }
}

impl<S: Alter> Work<'_, S> {
    /// Adds a job of a number that no job has, which came in at `t`. The next number stays as it is.
    ///
    /// # Errors
    ///
    /// `Unavailable`, or `Strange` where a job has the number.
    pub fn put_job(&mut self, job: &Job, t: Moment) -> Result<(), StoreFault>
        ensures { MakesIf S.Store self.old self.new result (λ m k. IsNewJob (job_of job.now) m)
            (with_one_more_job t (job_of job.now)) (λ k. k) }
    {
        if self.failed {
            return Err(StoreFault::Unavailable);
        }
        let done = self.store.add_job(job, t);
        self.failed = done.is_err();
        done
    }

    /// Sets what a change may set of the job of this number: the modem, the tag, the times, the
    /// priority, the pages sent, the tries and dials with their limits, the status, and where it
    /// stands. Where the job is over, it ends at `t`. The number to dial, the pages and the extra lines stay as they are there, so that a job
    /// without its lines will do. Where no job has the number, nothing changes.
    ///
    /// # Errors
    ///
    /// `Unavailable`.
    pub fn put_change(&mut self, job: &Job, t: Moment) -> Result<(), StoreFault>
        ensures { MakesWhere S.Store self.old self.new result (IsChange (job_of job.now))
            (with_change t (job_of job.now)) (λ k. k) }
    {
        if self.failed {
            return Err(StoreFault::Unavailable);
        }
        let done = self.store.write_change(job, t);
        self.failed = done.is_err();
        done
    }

    /// Lets each held or waiting job fail, and end at `t`, whose kill time is from 1 to `t`.
    ///
    /// # Errors
    ///
    /// `Unavailable`.
    pub fn expire_all(&mut self, t: Moment) -> Result<(), StoreFault>
        ensures { Makes S.Store self.old self.new result (with_expired t) (λ k. k) }
    {
        if self.failed {
            return Err(StoreFault::Unavailable);
        }
        let done = self.store.write_expired(t);
        self.failed = done.is_err();
        done
    }
}
