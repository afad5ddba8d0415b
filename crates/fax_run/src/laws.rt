//! Laws of the definitions.
//!
//! Such a function changes nothing: its contract is the law. The statements stand in
//! `specs/Laws.antt`, `Sessions.antt` and `Progress.antt`.

ghost use Rattle.fax_run.specs.Laws.{AcceptedOnce, CopiesLeaveNoTrace, CountersAreCounts, HasVerdict, NoVerdictIsUnavailable, NumbersHaveOneReply, OneReading, OneRun, OneVerdict, RepeatsGetTheirReply, RunsAreSound, RunsKeepGrants, RunsSendNoImportedPage, RunsSendOnce, RunsSplit, RunsThread, UntakenLeaveNoTrace};
ghost use Rattle.fax_run.specs.Progress.{BusyModemsFindTheirs, FreeModemsAreServed, OpenGrantsCanEnd, WaitingJobsGetReady};
ghost use Rattle.fax_run.specs.Sessions.{SessionsHaveOneList};

use crate::arrival::Arrival;
use fax_ask::laws::{asks, each_asks_or_has_fault, statuses};
use fax_core::laws::refusals;

/// An arrival says one thing at most, so at a queue with these kept replies it comes to one thing at most.
/// What `fax_once::Queue::handle` answers and leaves is fixed, unless it answers 27.
pub fn one_verdict()
    ensures reading { OneReading }
    ensures verdict { OneVerdict }
{
    asks();
}

/// An arrival comes to something, at every queue and with all kept replies.
pub fn each_has_verdict(arrival: &Arrival<'_>)
    ensures { HasVerdict arrival.now }
{
    each_asks_or_has_fault(arrival.body);
}

/// At a sound queue with lawful kept replies no arrival comes to 27. So that answer says that memory or the
/// store gave out.
pub fn no_verdict_is_unavailable()
    ensures { NoVerdictIsUnavailable }
{
    statuses();
    refusals();
}

/// What is accepted has a client and a number that had no kept reply, and its reply is kept for them. So
/// no request number of a client is accepted twice.
pub fn accepted_once()
    ensures { AcceptedOnce }
{}

/// A repeat of what was accepted gets the reply to it, byte for byte, and changes nothing: whatever its
/// moment, and whatever was accepted since, as long as the client hasn't given the number up.
pub fn repeats_get_their_reply()
    ensures { RepeatsGetTheirReply }
{}

/// Two runs of the same arrivals from the same start, in which nothing is answered 27, are one: they have the same
/// replies and lead to the same end.
pub fn one_run()
    ensures { OneRun }
{
    asks();
}

/// A run in two parts is the first part, and then the second from where the first leads. And looking back over what
/// was heard leads where taking one arrival after the other leads.
pub fn split()
    ensures thread { RunsThread }
    ensures split { RunsSplit }
{}

/// What is not taken leaves no trace in a run, and neither does what comes under a number that was taken: a copy at
/// whatever moment, wherever it stands behind it. Whoever is answered 200 or 201 under that number has the reply of
/// its first acceptance.
pub fn repeats()
    ensures untaken { UntakenLeaveNoTrace }
    ensures copies { CopiesLeaveNoTrace }
    ensures reply { NumbersHaveOneReply }
{}

/// From the empty queue the five counters of every job are what it came in with and the counts of its reports: dials,
/// tries and pages, in all and since the last that came further. A submission comes in with none.
pub fn counters()
    ensures { CountersAreCounts }
{}

/// After a run from a sound queue the queue is sound, and a modem and a job hold one open grant at most. A page whose
/// report was taken is in no later grant of its job, and isn't confirmed again. Neither is a page that came in as sent.
pub fn no_page_twice()
    ensures sound { RunsAreSound }
    ensures sent { RunsSendOnce }
    ensures imported { RunsSendNoImportedPage }
{}

/// A grant keeps its number, job, modem and pages over a run from a sound queue, unless its job is gone by the end. No page
/// confirmed under it is taken back, and a closed grant stays as it is.
pub fn grants_stay()
    ensures { RunsKeepGrants }
{}

/// No modem and no job is stuck but by its worker, its times or its number's rule. A modem that is up and free is given
/// a job where one may go to it. One that holds a grant is told it. Each open grant has an outcome that is taken, and
/// closes it. A waiting job is ready once its times have come, before its kill time, in the hours of its number's rule,
/// while fewer calls to the number are open than the rule allows.
pub fn progress()
    ensures free { FreeModemsAreServed }
    ensures busy { BusyModemsFindTheirs }
    ensures open { OpenGrantsCanEnd }
    ensures waiting { WaitingJobsGetReady }
{}

/// However often the program is stopped or killed and started again, with whatever setup and controls each time, there is
/// one list of accepted requests, and all that was answered and is kept is what the machine makes of it: no number of a
/// client is in it twice, and who was answered 200 or 201 has the reply of its request there. So a request whose answer
/// was lost or was 27 stands in the list, and gets its reply when it is sent again, or it left nothing.
pub fn sessions()
    ensures { SessionsHaveOneList }
{}
