//! `faxqd post`: posts any request until it is answered, over a journal.
ghost use Rattle.std.specs.Prelude.{◌≡◌, false};
ghost use Rattle.fax_ending.specs.Ending.{spoken};
ghost use Rattle.faxqd.specs.Client.{Answers};

use crate::client::{answer, lock_journal, open_journal};
use fax_client::{Posting, QueueLine, Stop, Ticks, forget, post as post_until_answered};
use fax_ending::{Ending, FaultLine, Place};
use fax_http::Watched;
use fax_net::Breaks;
use fax_text::PostPlan;
use sqlite::Start;
use std::fs;
use std::io::Write;

/// Posts the request of the plan, and prints the body of its answer; or forgets the answer of a key.
pub fn post<'a, S: Start, W: Write + Drop>(
    rt: &HostRuntime,
    plan: &PostPlan<'a>,
    start: S,
    out: &mut Watched<W>,
) -> Ending<'a>
    requires { out.old.failed ≡ false }
    ensures { Answers W.contents out.old out.new result.status (spoken result) }
{
    if let Some(key) = plan.forget {
        return answer(forget_key(rt, plan, start, key), out);
    }
    let Some((path, file)) = path_and_file(plan) else {
        return Ending::usage(FaultLine::of("faxqd: bad path", Place::Nowhere));
    };
    let Some(name) = file else {
        return answer(do_post(rt, plan, start, path, b""), out);
    };
    post_file(rt, plan, start, path, name, out)
}

/// The path that the plan names, and the file with the body, if it names one.
fn path_and_file<'a>(plan: &PostPlan<'a>) -> Option<(&'a str, Option<&'a str>)> {
    match plan.words.as_slice() {
        [path] => Some((*path, None)),
        [path, name] => Some((*path, Some(*name))),
        _ => None,
    }
}

/// Posts the content of a file to a path, and prints the body of its answer.
fn post_file<'a, S: Start, W: Write + Drop>(
    rt: &HostRuntime,
    plan: &PostPlan<'a>,
    start: S,
    path: &str,
    name: &'a str,
    out: &mut Watched<W>,
) -> Ending<'a>
    requires { out.old.failed ≡ false }
    ensures { Answers W.contents out.old out.new result.status (spoken result) }
{
    let Ok(body) = fs::read(rt, name) else {
        return Ending::fault(FaultLine::of("faxqd: cannot read ", Place::File(name)));
    };
    answer(do_post(rt, plan, start, path, body.as_slice()), out)
}

/// Posts a body to a path. The text is that of the answer.
fn do_post<S: Start>(
    rt: &HostRuntime,
    plan: &PostPlan<'_>,
    start: S,
    path: &str,
    body: &[u8],
) -> Result<Vec<u8>, Stop> {
    let mut breaks = Breaks::new(rt, plan.at.wait);
    let _lock = lock_journal(rt, plan.at.journal, &mut breaks)?;
    let mut journal = open_journal(rt, plan.at.journal, start)?;
    let mut line = QueueLine::new(rt, plan.at.to, breaks);
    let asked = Posting {
        client: plan.client,
        key: plan.key,
        path,
        body,
    };
    post_until_answered(rt.alloc(), &mut journal, &mut line, Ticks::now(rt), asked)
}

/// Forgets the answer of a key. There is nothing to print.
fn forget_key<S: Start>(
    rt: &HostRuntime,
    plan: &PostPlan<'_>,
    start: S,
    key: &str,
) -> Result<Vec<u8>, Stop> {
    let _lock = lock_journal(rt, plan.at.journal, &mut Breaks::new(rt, plan.at.wait))?;
    let mut journal = open_journal(rt, plan.at.journal, start)?;
    forget(rt.alloc(), &mut journal, plan.client, key)?;
    Ok(Vec::new(rt.alloc()))
}
