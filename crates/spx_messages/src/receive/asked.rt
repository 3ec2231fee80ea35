//! The answer to a connection request.

ghost use Rattle.std.specs.Prelude.{◌≡◌, ◌↔◌, IfOk, IsTrue, OnErr};
ghost use Rattle.spx_messages.specs.WrittenPackets.{IsRequestFor};
ghost use Rattle.spx_messages.specs.Readings.{IsAsked, IsNew, IsOpenTo, Unasked};

use crate::arrived::Arrived;
use crate::listening::{Listener, buffers_of};
use crate::parts::{Part, forget};
use crate::receive::reading::ConnectionPacket;
use ipx_wire::{OutOfMemory, SpxHeader};
use spx_link::{Links, LinksFault, Received};
use std::alloc::Global;

/// The connection id that means none.
const NO_ID: u16 = 0xffff;

/// The datastream type of the end of a connection.
const END_STREAM: u8 = 0xfe;

/// Whether a packet is a connection request.
pub fn is_request(header: &SpxHeader) -> bool
    ensures { IsTrue result ↔ IsRequestFor header.now }
{
    header.system
        && header.to_id == NO_ID
        && header.stream < END_STREAM
        && 0 < header.from_id
        && header.from_id < NO_ID
}

/// The answer to a request. If it came before, its link must reply once more. Any other request is
/// accepted if its socket listens and there is space for a link.
pub fn ask(
    listening: &[Listener],
    links: &mut Links,
    parts: &mut Vec<Part>,
    alloc: Global,
    reading: &ConnectionPacket<'_>,
    now: u64,
) -> Result<Arrived, OutOfMemory>
    ensures asked { IfOk result (IsAsked listening.now links.old links.new
        parts.old.items parts.new.items reading.now now) }
    ensures memory { OnErr result (IsOpenTo listening.now links.old reading.now) }
    ensures unchanged { OnErr result (Unasked links.old links.new
        parts.old.items parts.new.items) }
{
    if let Some(id) = links.accepted(reading.from, reading.header.from_id) {
        links.owe_reply(id);
        return Ok(Arrived::Link(id, Received::Repeat));
    }
    accept(listening, links, parts, alloc, reading, now)
}

/// Makes a link for a new request.
fn accept(
    listening: &[Listener],
    links: &mut Links,
    parts: &mut Vec<Part>,
    alloc: Global,
    reading: &ConnectionPacket<'_>,
    now: u64,
) -> Result<Arrived, OutOfMemory>
    requires { IsNew links.old reading.now }
    ensures asked { IfOk result (IsAsked listening.now links.old links.new
        parts.old.items parts.new.items reading.now now) }
    ensures memory { OnErr result (IsOpenTo listening.now links.old reading.now) }
    ensures unchanged { OnErr result (Unasked links.old links.new
        parts.old.items parts.new.items) }
{
    let Some(buffers) = buffers_of(listening, reading.to) else {
        return Ok(Arrived::NoListener);
    };
    // At most 16 links are held, as the contract of `after` says. So if it is not refused, there is
    // space for another link.
    let _next_link = links.after(0);
    match links.accept(
        alloc,
        reading.to,
        reading.from,
        &reading.header,
        buffers,
        now,
    ) {
        Ok(id) => {
            forget(parts, id);
            Ok(Arrived::Accepted(id))
        }
        Err(LinksFault::TooMany) => Ok(Arrived::NoRoom),
        Err(LinksFault::OutOfMemory) => Err(OutOfMemory),
    }
}
