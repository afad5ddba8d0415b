//! Replies that a client reads, from memory.
use fax_http::{Answer, AnswerFault, Watched, read_answer};
use std::alloc::Global;
use std::test::Fail;

/// What is read where these bytes came, and nothing behind them.
fn read(alloc: Global, bytes: &[u8]) -> Result<Answer, AnswerFault> {
    read_answer(alloc, &mut Watched::new(bytes))
}

#[test]
fn a_reply_is_read_from_memory(rt: HostRuntime) -> Result<(), Fail> {
    let bytes = b"HTTP/1.1 409 Conflict\r\nContent-Length: 5\r\n\r\nheld!and more";
    let answer = read(rt.alloc(), bytes)?;
    assert_eq!(rt; answer.status, 409);
    assert_eq!(rt; answer.body.as_slice() == b"held!".as_slice(), true);
    Ok(())
}

#[test]
fn bytes_that_begin_with_no_reply_are_none(rt: HostRuntime) -> Result<(), Fail> {
    for bytes in [
        b"".as_slice(),
        b"HTTP/1.1 200 OK\r\nContent-Length: 5\r\n\r\nheld".as_slice(),
        b"HTTP/1.1 200 OK\r\n\r\nheld!".as_slice(),
        b"HTTP/1.1 100 Continue\r\nContent-Length: 0\r\n\r\n".as_slice(),
        b"220 office ESMTP\r\n".as_slice(),
    ] {
        let fault = read(rt.alloc(), bytes).err();
        assert_eq!(rt; fault, Some(AnswerFault::NoReply));
    }
    Ok(())
}
