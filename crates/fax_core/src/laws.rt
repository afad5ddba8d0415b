//! Laws of the machine, over the definitions alone.
//!
//! Each function here does nothing: its contract is the law, for all settings, queues, moments and
//! requests. The statements stand in `specs/Laws.antt`.

ghost use Rattle.fax_core.specs.Laws.{StepsStaySound, RunsStaySound, RunsHoldOnce, GivenJobsAreFree, PageReportsConfirm, StepsKeepSent, RunsKeepSent, PagesAreGrantedNoMore, BroughtPagesAreNotGranted, PagesRise, OnlyTheOverLeave, GrantsStay, StepsKeepGrantsWithJobs, RunsKeepGrantsWithJobs, NewJobsAreThere, RunsKeepJobs, GoneStaysGone, RefusalsAreMet, KeysGoWithRefusals, BusyModemsAreTold, BestIsGiven, OneIsBest, NothingIsLeftOut, StepsNumberNext, NextNumbersRise, ReadyJobsAreDue, TakenStepsSetTheClock, RequestsSetTheClock, ClocksGoForward, StepsKeepTimesPast, RunsKeepTimesPast, RecordsAreJobs, JobsAreRecords, FitsIsDecided, RequestsKeepRecords, AlterationsKeepRecords, GrantsKeepRecords, ReportsKeepRecords};
ghost use Rattle.fax_core.specs.Import.{ReadImportsAreLawful};
ghost use Rattle.fax_core.specs.Reasons.{RefusalsHaveReasons};
ghost use Rattle.fax_core.specs.Queue.{empty_queue};
ghost use Rattle.fax_core.specs.Sound.{Sound};
ghost use Rattle.fax_core.specs.Submission.{ReadOrdersAreLawful};

/// The empty queue is sound. A taken step from a sound queue leaves a sound queue, and so does every
/// run, where what is asked is lawful: each order has a page, a try and a dial, and no number of an import
/// is over its limit.
pub fn soundness()
    ensures empty { Sound empty_queue }
    ensures step { StepsStaySound }
    ensures run { RunsStaySound }
{}

/// After every run from a sound queue, two open grants of one modem, or of one job, are one grant. What
/// is given to a modem is a job that no open grant has, the modem held none, and the new grant is open
/// and theirs.
pub fn one_modem_one_job()
    ensures run { RunsHoldOnce }
    ensures given { GivenJobsAreFree }
{}

/// A page report that is taken moves the first page that is left to the end of those sent, and no step
/// takes a page from those sent, unless the job leaves. So a page that was confirmed is in no grant that its job gets later,
/// whatever was asked in between, and isn't confirmed again. A page that came in as sent with its job is in
/// no grant either.
pub fn no_page_twice()
    ensures confirmed { PageReportsConfirm }
    ensures step { StepsKeepSent }
    ensures run { RunsKeepSent }
    ensures granted { PagesAreGrantedNoMore }
    ensures brought { BroughtPagesAreNotGranted }
    ensures rise { PagesRise }
{}

/// A job that a step takes out is over, ended before the moment that the step's request names, and that
/// request is a purge. A job that isn't over loses no grant, and one that leaves keeps none: each grant's job is
/// there, after every run from a queue in which it was.
pub fn only_the_over_leave()
    ensures jobs { OnlyTheOverLeave }
    ensures grants { GrantsStay }
    ensures step { StepsKeepGrantsWithJobs }
    ensures run { RunsKeepGrantsWithJobs }
{}

/// A job that a taken submission or import made is in the queue. A job that is there is there after every
/// run, unless a purge of the run took it out. One that left doesn't come back: no new job gets its number.
pub fn jobs_stay()
    ensures made { NewJobsAreThere }
    ensures stay { RunsKeepJobs }
    ensures gone { GoneStaysGone }
{}

/// A refused request meets one of the refusals that are listed for it, and only for its reason; what is told
/// with it is what goes with that refusal. A busy modem is told the open grant that it holds, and its job's
/// number to dial.
pub fn refusals()
    ensures number { RefusalsAreMet }
    ensures reason { RefusalsHaveReasons }
    ensures keys { KeysGoWithRefusals }
    ensures held { BusyModemsAreTold }
{}

/// The job that is given is the best one, and there is one best at most. Where none is given, no job may
/// go. Each ready job is due.
pub fn the_choice()
    ensures best { BestIsGiven }
    ensures alone { OneIsBest }
    ensures nothing { NothingIsLeftOut }
    ensures due { ReadyJobsAreDue }
{}

/// A new job or grant has the next number, and no step lowers a next number, so no number is given twice.
pub fn numbers()
    ensures step { StepsNumberNext }
    ensures run { NextNumbersRise }
{}

/// A taken step sets the clock to its moment, the later of the request's and the clock's, so the clock
/// never goes back. No job came in later than the clock, or ended.
pub fn the_clock()
    ensures step { TakenStepsSetTheClock }
    ensures request { RequestsSetTheClock }
    ensures run { ClocksGoForward }
    ensures times { StepsKeepTimesPast }
    ensures runs { RunsKeepTimesPast }
{}

/// A record of code keeps the number of pages sent, a job the lists of those sent and those left: each is
/// had from the other. The test on records decides whether a job and its open grant, or none, fit.
pub fn records()
    ensures record { RecordsAreJobs }
    ensures job { JobsAreRecords }
    ensures fits { FitsIsDecided }
{}

/// A submission refuses no order that was read, with a number from 1 to 999999, as one whose job is no
/// lawful record.
pub fn read_orders()
    ensures { ReadOrdersAreLawful }
{}

/// Nor is an import refused that was read.
pub fn read_imports()
    ensures { ReadImportsAreLawful }
{}

/// What is decided of a job that a lawful record holds makes a job that one holds, so no such change is
/// refused as unlawful: of an alteration where it was read, of a report where job and grant fit.
pub fn kept_records()
    ensures requests { RequestsKeepRecords }
    ensures alterations { AlterationsKeepRecords }
    ensures grants { GrantsKeepRecords }
    ensures reports { ReportsKeepRecords }
{}
