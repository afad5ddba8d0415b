//! The program as a function of its words, its input and its outputs.
ghost use Rattle.std.specs.Prelude.{◌≡◌, false, map, string_bytes};
ghost use Rattle.fax_http.specs.Device.{IsFresh};
ghost use Rattle.fax_ending.specs.Ending.{no_memory, spoken};
ghost use Rattle.faxqd.specs.Command.{CarriesOut, Runs, Tells, not_utf8};
ghost use Rattle.faxqd.specs.Saying.{Says};

use crate::check::check;
use crate::import::import;
use crate::list::list;
use crate::post::post;
use crate::replay::replay;
use crate::saying::say_at_end;
use crate::serve::serve;
use crate::settings::settings;
use crate::worker::worker;
use fax_ending::Ending;
use fax_http::{MachineClock, Watched};
use fax_net::sendfax::sendfax;
use fax_net::{Network, Peers};
use fax_text::{Plan, Status, WordsFault, read_words};
use sqlite::Start;
use std::io::{ErrorKind, Read, Write};

/// Runs the command that the words ask for. Help goes to `out`, what is wrong to `err`. Who connects comes from
/// `network`, and `start` stands for what a database's files hold.
pub fn run<
    P: Peers + Drop,
    N: Network<P> + Drop,
    S: Start,
    R: Read + Drop,
    W: Write + Drop,
    E: Write + Drop,
>(
    rt: &HostRuntime,
    words: &[String],
    network: N,
    start: S,
    reader: &mut Watched<R>,
    out: &mut Watched<W>,
    err: &mut Watched<E>,
) -> Status
    requires reading { IsFresh reader.old }
    requires writing { IsFresh out.old }
    requires telling { err.old.failed ≡ false }
    ensures { Runs R.remaining W.contents reader.old reader.new out.old out.new E.contents err.old err.new
        (map string_bytes words.now) result }
{
    match read_words(rt.alloc(), words) {
        Ok(plan) => say_at_end(carry_out(rt, plan, network, start, reader, out), err),
        Err(fault) => refuse(out, err, &fault),
    }
}

/// Does what the words ask for.
fn carry_out<'a, P: Peers + Drop, N: Network<P> + Drop, S: Start, R: Read + Drop, W: Write + Drop>(
    rt: &HostRuntime,
    plan: Plan<'a>,
    network: N,
    start: S,
    reader: &mut Watched<R>,
    out: &mut Watched<W>,
) -> Ending<'a>
    requires reading { IsFresh reader.old }
    requires writing { IsFresh out.old }
    ensures { CarriesOut R.remaining W.contents reader.old reader.new out.old out.new plan.entry
        result.status (spoken result) }
{
    match plan {
        Plan::Replay(files) => replay(rt, files, reader, out),
        Plan::Serve(plan) => serve(rt, plan, network, MachineClock::new(rt), start, out).0,
        Plan::List(plan) => list(rt, plan, start, out).0,
        Plan::Check(plan) => check(rt, plan, start, out).0,
        Plan::Sendfax(plan) => sendfax(rt, &plan, out),
        Plan::Import(plan) => import(rt, &plan, out),
        Plan::Settings(files) => settings(rt, files, out),
        Plan::Worker(plan) => worker(rt, &plan, start, out),
        Plan::Post(plan) => post(rt, &plan, start, out),
    }
}

/// Gives the help that was asked for, or says what is wrong with the words.
fn refuse<W: Write + Drop, E: Write + Drop>(
    out: &mut Watched<W>,
    err: &mut Watched<E>,
    fault: &WordsFault,
) -> Status
    requires writing { out.old.failed ≡ false }
    requires telling { err.old.failed ≡ false }
    ensures { Tells W.contents E.contents out.old out.new err.old err.new fault.now result }
{
    match fault {
        WordsFault::Help(text) => match out.put(text.as_bytes()) {
            Ok(()) => Status::Success,
            Err(_) => say_at_end(Ending::failed("faxqd: ended write-failed"), err),
        },
        WordsFault::Usage(text) => {
            let _ = err.put(text.as_bytes());
            Status::Usage
        }
        WordsFault::NoMemory => say_at_end(Ending::failed("faxqd: no memory"), err),
    }
}

/// Says on one line why there are no words: one of them is no text in UTF-8, or there is no memory for them.
pub fn refuse_words<E: Write + Drop>(err: &mut Watched<E>, kind: ErrorKind) -> Status
    requires { err.old.failed ≡ false }
    ensures usage { kind ≡ ErrorKind.InvalidData → (result ≡ Status.Usage) × Says E.contents err.old err.new not_utf8 }
    ensures fault { ¬ (kind ≡ ErrorKind.InvalidData) → (result ≡ Status.Fault) × Says E.contents err.old err.new no_memory }
{
    if kind == ErrorKind::InvalidData {
        let _ = err.put(b"error: a word is not UTF-8\n");
        return Status::Usage;
    }
    say_at_end(Ending::failed("faxqd: no memory"), err)
}
