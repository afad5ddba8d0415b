//! Purging: jobs leave, each with its times and all its grants.

ghost use Rattle.std.specs.Prelude.{◌≡◌, Err, IfErr, false, is_err};
ghost use Rattle.fax_core.specs.Purge.{leaving, without_jobs};
ghost use Rattle.fax_store.specs.Calls.{Finds, MakesWhere, Recalls, Writes, WritesWhere};
ghost use Rattle.fax_store.specs.Purge.{HasNoCall, HaveNoCalls, NoneEndedAtZero, last_of, leaving_from, without_grants, without_job, without_row, without_times};

use crate::store::Store;
use crate::work::Work;
use fax_job::Moment;
use fax_schema::statements::{
    DELETE_GRANTS, DELETE_JOB, DELETE_TIMES, SELECT_ENDED_AT_0, SELECT_LEAVING,
    SELECT_LEAVING_OVER, SELECT_MANY_NOT_OVER, SELECT_MANY_OVER,
};
use fax_tables::{StoreFault, numbers_in};
use sqlite::{Alter, params};

/// The last of these numbers where they are as many as leave at a time, and else one that no job is past.
fn last_of(numbers: &[u32]) -> u32
    ensures { result ≡ last_of numbers.now }
{
    match numbers.get(999) {
        Some(last) => *last,
        None => u32::MAX,
    }
}

impl<S: Alter> Store<S> {
    /// The numbers of the jobs that are over and ended before that moment, in ascending order and at most a thousand. Of
    /// tables that mean no queue the answer says nothing.
    ///
    /// It looks up each job without an end, or where many aren't over, the times of each that is over, or where many are
    /// too, as few as it can.
    ///
    /// # Errors
    ///
    /// `Unavailable`, or `Strange` where one isn't the number of a job.
    pub fn leaving(&mut self, before: Moment) -> Result<Vec<u32>, StoreFault>
        ensures { Recalls S.Store self.old self.new result (λ m k found. found.items ≡ leaving before m) }
    {
        if !self.has_many_not_over()? {
            return self.leaving_from(0, before);
        }
        if !self.has_many_over()? {
            return self.leaving_over(before);
        }
        self.leaving_past_endless(before)
    }

    /// The same. Those without an end are passed, unless one that would be passed is over, and ended at the moment 0.
    fn leaving_past_endless(&mut self, before: Moment) -> Result<Vec<u32>, StoreFault>
        ensures { Recalls S.Store self.old self.new result (λ m k found. found.items ≡ leaving before m) }
    {
        let ended = self.leaving_from(1, before)?;
        if self.has_ended_at_0(last_of(ended.as_slice()))? {
            return self.leaving_from(0, before);
        }
        Ok(ended)
    }

    /// The first of them that ended at `from` or later.
    fn leaving_from(&mut self, from: u32, before: Moment) -> Result<Vec<u32>, StoreFault>
        ensures { Recalls S.Store self.old self.new result (λ m k found. found.items ≡ leaving_from from before m) }
    {
        let rows = self.show(SELECT_LEAVING, params![before.seconds(), from])?;
        numbers_in(self.alloc, rows.as_slice())
    }

    /// The same from 0 on, by the times of each job that is over.
    fn leaving_over(&mut self, before: Moment) -> Result<Vec<u32>, StoreFault>
        ensures { Recalls S.Store self.old self.new result (λ m k found. found.items ≡ leaving_from 0 before m) }
    {
        let rows = self.show(SELECT_LEAVING_OVER, params![before.seconds()])?;
        numbers_in(self.alloc, rows.as_slice())
    }

    /// Whether ten thousand jobs are over.
    fn has_many_over(&mut self) -> Result<bool, StoreFault>
        ensures leaves { Finds S.Store self.old self.new result }
        ensures cause { IfErr result (λ fault. fault ≡ StoreFault.Unavailable) }
    {
        let found = self.find(SELECT_MANY_OVER, &[])?;
        Ok(found.is_some())
    }

    /// Whether twenty-five thousand jobs aren't over. To look up so many costs as much as to read in an index which of
    /// 75,000 others are over, so of 100,000 jobs neither costs more.
    fn has_many_not_over(&mut self) -> Result<bool, StoreFault>
        ensures leaves { Finds S.Store self.old self.new result }
        ensures cause { IfErr result (λ fault. fault ≡ StoreFault.Unavailable) }
    {
        let found = self.find(SELECT_MANY_NOT_OVER, &[])?;
        Ok(found.is_some())
    }

    /// Whether a job up to this number is over and ended at the moment 0.
    fn has_ended_at_0(&mut self, last: u32) -> Result<bool, StoreFault>
        ensures { Recalls S.Store self.old self.new result (λ m k found. found ≡ false → NoneEndedAtZero last m) }
    {
        let found = self.find(SELECT_ENDED_AT_0, params![last])?;
        Ok(found.is_some())
    }

    /// Takes out the grants of the job of this number, which are closed.
    fn drop_grants(&mut self, job: u32) -> Result<(), StoreFault>
        ensures { WritesWhere S.Store self.old self.new result (HasNoCall job) (without_grants job) (λ k. k) }
    {
        self.run(DELETE_GRANTS, params![job])
    }

    /// Takes out its times.
    fn drop_times(&mut self, job: u32) -> Result<(), StoreFault>
        ensures { Writes S.Store self.old self.new result (without_times job) (λ k. k) }
    {
        self.run(DELETE_TIMES, params![job])
    }

    /// Takes out the job, and neither its times nor its grants.
    fn drop_one(&mut self, job: u32) -> Result<(), StoreFault>
        ensures { WritesWhere S.Store self.old self.new result (HasNoCall job) (without_row job) (λ k. k) }
    {
        self.run(DELETE_JOB, params![job])
    }

    /// Takes out the job of this number, its times and its grants, which are closed.
    fn drop_job(&mut self, job: u32) -> Result<(), StoreFault>
        ensures { WritesWhere S.Store self.old self.new result (HasNoCall job) (without_job job) (λ k. k) }
    {
        self.drop_grants(job)?;
        self.drop_times(job)?;
        self.drop_one(job)
    }

    /// Takes out the jobs of these numbers, their times and their grants, which are closed.
    pub(crate) fn drop_jobs(&mut self, numbers: &[u32]) -> Result<(), StoreFault>
        ensures { WritesWhere S.Store self.old self.new result (HaveNoCalls numbers.now) (without_jobs numbers.now) (λ k. k) }
    {
        for job in numbers {
            self.drop_job(*job)?;
        }
        Ok(())
    }
}

impl<S: Alter> Work<'_, S> {
    /// Takes out the jobs of these numbers, their times and their grants, which are closed.
    ///
    /// # Errors
    ///
    /// `Unavailable`.
    pub fn purge(&mut self, jobs: &[u32]) -> Result<(), StoreFault>
        ensures { MakesWhere S.Store self.old self.new result (HaveNoCalls jobs.now) (without_jobs jobs.now) (λ k. k) }
    {
        if self.failed {
            return Err(StoreFault::Unavailable);
        }
        let done = self.store.drop_jobs(jobs);
        self.failed = done.is_err();
        done
    }
}
