//! One stream at the desk.

ghost use Rattle.std.specs.Prelude.{◌≡◌, false, IsTrue};
ghost use Rattle.sqlite.specs.Held.{state};
ghost use Rattle.sqlite.specs.State.{HasCleanDisk};
ghost use Rattle.fax_desk.specs.Conversing.{Converses};
ghost use Rattle.fax_desk.specs.Replaying.{settings_in};
ghost use Rattle.fax_http.specs.Device.{IsFresh};

use crate::desk::Desk;
use fax_http::{Bounds, Clock, Served, Watched, serve};
use sqlite::Alter;
use std::alloc::Global;
use std::io::{Read, Write};

/// Reads messages, has the queue handle each at the moment that the clock gives, and writes their replies: from what the
/// tables mean they are a session, of which `fax_once::laws::sessions` tells. It ends as `fax_http::serve` does.
pub fn converse<C: Clock + Drop, S: Alter + Drop, R: Read + Drop, W: Write + Drop>(
    alloc: Global,
    reader: &mut Watched<R>,
    out: &mut Watched<W>,
    desk: &mut Desk<C, S>,
    bounds: Bounds,
) -> Served
    requires reading { IsFresh reader.old }
    requires writing { IsFresh out.old }
    requires going { desk.old.queue.is_shut ≡ false }
    ensures office { desk.new.queue.office ≡ desk.old.queue.office }
    ensures shut { IsTrue desk.new.queue.is_shut → HasCleanDisk (state S.Store desk.new.queue.store.conn)
        → (state S.Store desk.new.queue.store.conn).is_open ≡ false }
    ensures served { Converses R.remaining W.contents C.gives (settings_in desk.old.queue.office) bounds.messages reader.old
        reader.new out.old out.new desk.old.clock (state S.Store desk.old.queue.store.conn)
        (state S.Store desk.new.queue.store.conn) desk.new.queue.is_shut result }
{
    serve(alloc, reader, out, desk, bounds)
}
