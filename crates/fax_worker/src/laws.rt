//! Laws of a queue and its workers.
//!
//! Such a function changes nothing: its contract is the law. The statements are in `specs/Laws.antt` and `Join.antt`.

ghost use Rattle.fax_worker.specs.Join.{AnswersAreReplies, SessionsAreTraces};
ghost use Rattle.fax_worker.specs.Laws.{InOrderAtTheReceiver, NumbersAreUsedOnce, OnceAtTheReceiver, ReportsWillBeAccepted, TracesAgree, TransmitsTheNext};
ghost use Rattle.fax_worker.specs.Replies.{AnswersAreRead, OnlyAnswersAreRead};
ghost use Rattle.fax_worker.specs.Saying.{SaysWhatItMeans};

/// Whenever nothing is unanswered, a worker that holds a grant and the queue agree about it: it is open, with the same
/// job, number to dial, pages and call, and as many pages are confirmed as the worker has reported. Each report that a
/// worker has begun is accepted whenever it reaches the queue.
pub fn agrees()
    ensures agree { TracesAgree }
    ensures accepted { ReportsWillBeAccepted }
{}

/// No worker begins two requests under one number.
pub fn one_number_one_request()
    ensures { NumbersAreUsedOnce }
{}

/// The network may lose, double and reorder requests and replies. Each page of each job is transmitted once at most, and
/// once more for each time that its driver died between a transmission of that page and its begun report. A page that is
/// transmitted is the first of its job that isn't confirmed.
pub fn once_at_the_receiver()
    ensures once { OnceAtTheReceiver }
    ensures next { TransmitsTheNext }
{}

/// If no driver dies so, only workers report pages, and none reports a page before its transmission, the pages of a job
/// are transmitted in order, each once, from the first that it had not sent before. If the job is done these are all.
pub fn in_order_at_the_receiver()
    ensures { InOrderAtTheReceiver }
{}

/// The queue of a trace is the server's. Each answer is, as bytes, the reply of the request's verdict. Runs of the server
/// that follow one another leave what a trace of their requests leaves.
pub fn traces_are_histories()
    ensures replies { AnswersAreReplies }
    ensures sessions { SessionsAreTraces }
{}

/// The queue reads path and body of a worker's request as the request that was meant.
pub fn says_what_it_means()
    ensures { SaysWhatItMeans }
{}

/// From the bytes that the queue sends for an answer a worker reads that answer. All that it reads are answers that a
/// queue has for the request, each under the answer's own status. `Unavailable` is none.
pub fn answers_are_read()
    ensures sent { AnswersAreRead }
    ensures only { OnlyAnswersAreRead }
{}
