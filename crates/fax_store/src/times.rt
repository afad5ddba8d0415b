//! The times of the jobs: when each came in, and when it ended.

ghost use Rattle.std.specs.Prelude.{◌≡◌, ◌≤◌, if◌then◌else◌, ℕ, List, [], ◌∷◌, map, IfErr};
ghost use Rattle.fax_core.specs.Job.{job_of};
ghost use Rattle.fax_core.specs.Times.{has_ended};
ghost use Rattle.fax_value.specs.Limits.{last_moment};
ghost use Rattle.fax_core.specs.Queue.{times_numbered};
ghost use Rattle.fax_store.specs.Calls.{LooksUp, Runs, Writes, WritesIf, WritesWhere};
ghost use Rattle.fax_store.specs.Times.{HasTimesRow, IsUntimed, TimesStand, is_among, with_came, with_ends};
ghost use Rattle.fax_tables.specs.Row.{number};

use crate::store::Store;
use fax_core::{Times, has_ended};
use fax_job::{Job, Moment, Phase};
use fax_schema::statements::{END_TIMES, INSERT_TIMES, SELECT_TIMES};
use fax_tables::{StoreFault, times_in};
use sqlite::types::ToSql;
use sqlite::{Alter, Row, params};

/// When a job ended that is in this phase as it comes in at `t`: 0 if it isn't over.
fn end_at(phase: Phase, t: Moment) -> u32
    ensures end { result ≡ (if has_ended phase then t else 0) }
    ensures bound { result ≤ last_moment }
{
    if has_ended(phase) { t.seconds() } else { 0 }
}

impl<S: Alter> Store<S> {
    /// The times of the job of this number.
    ///
    /// # Errors
    ///
    /// `Unavailable`, or `Strange` where they aren't moments.
    pub fn times(&mut self, job: u32) -> Result<Option<Times>, StoreFault>
        ensures { LooksUp S.Store self.old self.new result (times_numbered job) (λ db. HasTimesRow db job)
            (λ db. TimesStand db job) }
    {
        match self.find(SELECT_TIMES, params![job])? {
            Some(row) => Ok(Some(times_in(&row)?)),
            None => Ok(None),
        }
    }

    /// Puts in the times of a job that came in at `t`.
    pub(crate) fn insert_times(&mut self, job: &Job, t: Moment) -> Result<(), StoreFault>
        ensures { WritesIf S.Store self.old self.new result (λ m k. IsUntimed (job_of job.now) m)
            (with_came t (job_of job.now)) (λ k. k) }
    {
        let fields = job.fields();
        self.insert(
            INSERT_TIMES,
            params![fields.job, t.seconds(), end_at(fields.phase, t)],
        )
    }

    /// Has the job of this number end at `t`.
    pub(crate) fn end_job(&mut self, job: u32, t: Moment) -> Result<(), StoreFault>
        ensures { Writes S.Store self.old self.new result (with_ends t (is_among (job ∷ []))) (λ k. k) }
    {
        self.run(END_TIMES, params![job, t.seconds()])
    }

    /// Has the job of the number in the row end at `t`.
    fn end_row(&mut self, row: &Row, t: Moment) -> Result<(), StoreFault>
        ensures leaves { Runs S.Store self.old self.new result }
        ensures written { (n : ℕ) → row.now ≡ number n ∷ []
            → Writes S.Store self.old self.new result (with_ends t (is_among (n ∷ []))) (λ k. k) }
        ensures cause { IfErr result (λ fault. fault ≡ StoreFault.Unavailable) }
    {
        let job = row.get_ref(0)?;
        self.run(END_TIMES, &[job, t.seconds().to_sql()])
    }

    /// Has the jobs of the numbers in the rows end at `t`.
    pub(crate) fn end_rows(&mut self, rows: &[Row], t: Moment) -> Result<(), StoreFault>
        ensures leaves { Runs S.Store self.old self.new result }
        ensures written { (numbers : List ℕ) → rows.now ≡ map (λ n. number n ∷ []) numbers
            → Writes S.Store self.old self.new result (with_ends t (is_among numbers)) (λ k. k) }
        ensures cause { IfErr result (λ fault. fault ≡ StoreFault.Unavailable) }
    {
        for row in rows {
            self.end_row(row, t)?;
        }
        Ok(())
    }
}
