//! What a listening host takes from its connections for the output.

ghost use Rattle.std.specs.Prelude.{◌≡◌, ◌<◌, [], ℕ, take, false, length, IfSome, IsTrue, None, OnErr, OnOk, Err, Ok};
ghost use Rattle.spx_messages.specs.EndpointView.{held_at};
ghost use Rattle.spx_messages.specs.Taking.{PeerEnd as TheEnd, take_end};
ghost use Rattle.ipx_host.specs.HostOutput.{left_of};
ghost use Rattle.ipx_host.specs.Passing.{GivesNoMore, PassesFirst, PassesHeld, PassesOne, PassesSome, PassesUntilFull, SameOthers, Takes, TakesNothing};
ghost use Rattle.ipx_host.specs.declared.sessions.Session.{Session};

use crate::output::{Outlet, WriteFault};
use crate::sessions::{Phase, Session};
use spx_messages::{EndFault, Endpoint, Message, MessageFault, Taken};
use std::alloc::Global;
use std::io::Write;

/// The most units that are taken from a connection before the next turn of the network.
const MAX_TAKES: u32 = 256;

/// Takes one unit from a connection. The unit may end a message. Returns whether there was one.
fn take_next(
    alloc: Global,
    endpoint: &mut Endpoint,
    output: &mut Outlet,
    session: &mut Session,
) -> bool
    ensures takes { IfSome (held_at endpoint.old session.old.id) (λ h. IsTrue result → Takes h
        endpoint.old endpoint.new output.old output.new session.old session.new) }
    ensures nothing { result ≡ false → TakesNothing
        endpoint.old endpoint.new output.old output.new session.old session.new }
    // The end of the peer can be taken even if out of memory.
    ensures ends { IfSome (held_at endpoint.old session.old.id) (λ h.
        (take_end h).0 ≡ Ok TheEnd → IsTrue result) }
    ensures unknown { held_at endpoint.old session.old.id ≡ None → result ≡ false }
    ensures no_more { result ≡ false → GivesNoMore (held_at endpoint.old session.old.id) }
    ensures id { session.new.id ≡ session.old.id }
    ensures others { SameOthers endpoint.old endpoint.new session.old.id }
{
    match endpoint.take(alloc, session.id) {
        Ok(Taken::Part) | Err(EndFault::Message(MessageFault::Overlong)) => true,
        Ok(Taken::Whole(message)) => {
            output.put(message.body);
            true
        }
        Ok(Taken::PeerEnd) => {
            session.phase = Phase::Ended;
            true
        }
        Ok(Taken::Nothing) | Err(_) => false,
    }
}

/// Takes what a connection holds, if it was heard from, and writes each message. It stops only if a
/// message can't be written without blocking, the end of the peer was taken, nothing more can be
/// taken, or `MAX_TAKES` units were taken. Returns whether it took anything.
fn take_some<W: Write>(
    alloc: Global,
    endpoint: &mut Endpoint,
    output: &mut Outlet,
    session: &mut Session,
    writer: &mut W,
) -> Result<bool, WriteFault>
    // The bytes that were left to write are written first, and then the bodies of the taken
    // messages. The writer took the first of these bytes, and the rest is left to write. This also
    // holds if the writer fails.
    ensures passes { IfSome (held_at endpoint.old session.old.id) (λ h.
        PassesHeld h (held_at endpoint.new session.old.id) (left_of output.old) (left_of output.new)
        (W.contents writer.old) (W.contents writer.new)) }
    // If the writer fails, something is left to write.
    ensures one { PassesOne endpoint.old endpoint.new (left_of output.old) (left_of output.new)
        (W.contents writer.old) (W.contents writer.new) session.old session.new }
    ensures id { session.new.id ≡ session.old.id }
    // If nothing was taken, everything that is held is unchanged.
    ensures still { result ≡ Ok false
        → (id : ℕ) → held_at endpoint.new id ≡ held_at endpoint.old id }
{
    if !session.is_heard() {
        return Ok(false);
    }
    let mut took = false;
    for _take in 0..MAX_TAKES {
        output.write(writer)?;
        let ended = session.phase == Phase::Ended;
        if ended || !output.is_empty() || !take_next(alloc, endpoint, output, session) {
            break;
        }
        took = true;
    }
    Ok(took)
}

/// Takes from the first connection while nothing is left to write, and moves it to the end of the
/// list. Returns whether it took anything.
fn take_from_first<W: Write>(
    alloc: Global,
    endpoint: &mut Endpoint,
    output: &mut Outlet,
    sessions: &mut [Session],
    writer: &mut W,
) -> Result<bool, WriteFault>
    requires some { 0 < length sessions.old }
    requires empty { left_of output.old ≡ [] }
    ensures passes { PassesFirst endpoint.old endpoint.new (left_of output.old)
        (left_of output.new) (W.contents writer.old) (W.contents writer.new)
        sessions.old sessions.new }
    ensures still { result ≡ Ok false
        → (id : ℕ) → held_at endpoint.new id ≡ held_at endpoint.old id }
{
    let took = take_some(alloc, endpoint, output, &mut sessions[0], writer);
    sessions.rotate_left(1);
    took
}

/// Takes from each connection in order, until something is left to write. The connections that had
/// their turn move to the end of the list, so the next call begins with the one after them. Returns
/// whether it took anything.
pub fn take_each<W: Write>(
    alloc: Global,
    endpoint: &mut Endpoint,
    output: &mut Outlet,
    sessions: &mut [Session],
    writer: &mut W,
) -> Result<bool, WriteFault>
    ensures all { OnOk result (PassesUntilFull endpoint.old endpoint.new (left_of output.old)
        (left_of output.new) (W.contents writer.old) (W.contents writer.new)
        sessions.old sessions.new) }
    // If the writer fails, this holds for the first connections, and the others are unchanged.
    ensures some { OnErr result (PassesSome endpoint.old endpoint.new (left_of output.old)
        (left_of output.new) (W.contents writer.old) (W.contents writer.new)
        sessions.old sessions.new) }
    ensures still { result ≡ Ok false
        → (id : ℕ) → held_at endpoint.new id ≡ held_at endpoint.old id }
{
    let mut took = false;
    for _turn in 0..sessions.len() {
        if !output.is_empty() {
            break;
        }
        took |= take_from_first(alloc, endpoint, output, sessions, writer)?;
    }
    Ok(took)
}
