//! One message that is sent to a queue, and its reply.
ghost use Rattle.std.specs.Prelude.{◌≡◌, Err, false, IfOk};
ghost use Rattle.fax_http.specs.Answer.{Gives, GivesNone};

use crate::patience::Patience;
use crate::timed::Timed;
use fax_http::{Answer, AnswerFault, Watched, read_answer};
use std::alloc::Global;
use std::io::{self, ErrorKind, Read, Write};
use std::net::{TcpStream, ToSocketAddrs};
use std::time::Duration;

/// How many seconds it may take to connect, and each read and write. Request and reply may take six times as many.
const WAIT_LIMIT: u64 = 10;

/// Sends a message to an address, and reads the reply. No clause speaks of what a peer gets and sends: `checks/run` sends
/// over a line that loses, repeats and reorders.
pub fn exchange(rt: &HostRuntime, address: &str, message: &[u8]) -> Result<Answer, AnswerFault> {
    let Ok(stream) = connect(rt, address) else {
        return Err(AnswerFault::NoReply);
    };
    let patience = Patience::limits(WAIT_LIMIT);
    let writer = Timed::new(rt, &stream, patience);
    let reader = Timed::new(rt, &stream, patience);
    exchange_over(rt.alloc(), message, writer, &mut Watched::new(reader))
}

/// Writes a message and reads the reply, also where the message isn't written to its end: a peer may reply before that and
/// read no more (RFC 9112, section 9.5).
fn exchange_over<W: Write + Drop, R: Read + Drop>(
    alloc: Global,
    message: &[u8],
    mut writer: W,
    reader: &mut Watched<R>,
) -> Result<Answer, AnswerFault>
    requires { reader.old.failed ≡ false }
    ensures answer { IfOk result (Gives R.remaining reader.old reader.new) }
    ensures none { result ≡ Err AnswerFault.NoReply → GivesNone R.remaining reader.old reader.new }
{
    let _ = writer.write_all(message);
    read_answer(alloc, reader)
}

/// A connection to the first of a name's addresses that takes one in time.
fn connect(rt: &HostRuntime, address: &str) -> io::Result<TcpStream> {
    for one in address.to_socket_addrs(rt)? {
        if let Ok(stream) = TcpStream::connect_timeout(rt, &one, Duration::from_secs(WAIT_LIMIT)) {
            return Ok(stream);
        }
    }
    Err(ErrorKind::NotConnected.into())
}
