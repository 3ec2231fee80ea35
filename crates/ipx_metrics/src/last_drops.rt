//! The last datagrams that a router dropped.

ghost use Rattle.std.specs.Prelude.{◌≡◌};
ghost use Rattle.ipx_metrics.specs.LastDrops.{AreNoted, IsDropOf, IsHeadAddress, IsNotedIf, nothing_dropped};

use ipx_carrier::OutcomeCounters;
use ipx_wire::{Address, IPX_HEADER_SIZE, address_at};

/// A datagram that was dropped: the port that it came by, starting at 0, and the addresses in its
/// header. These are None if it was shorter than a header.
#[derive(Clone, Copy, Debug, PartialEq, Eq)]
pub struct LastDrop {
    pub port: usize,
    pub to: Option<Address>,
    pub from: Option<Address>,
}

/// The last datagram of each of six reasons that a router counts; None if there was none.
#[derive(Clone, Copy)]
pub struct LastDrops {
    pub bad: Option<LastDrop>,
    pub not_ours: Option<LastDrop>,
    pub no_route: Option<LastDrop>,
    pub hop_limit: Option<LastDrop>,
    pub bad_control: Option<LastDrop>,
    /// A response that was not learned whole, since a table was full.
    pub table_full: Option<LastDrop>,
}

/// The offset of the destination address in a datagram.
const TO: usize = 6;

/// The offset of the source address.
const FROM: usize = 18;

/// The destination of a datagram, if it is at least as long as a header.
fn receiver_of(bytes: &[u8]) -> Option<Address>
    ensures { IsHeadAddress 6 bytes.now result }
{
    if bytes.len() < IPX_HEADER_SIZE {
        return None;
    }
    Some(address_at(&bytes[TO..]))
}

/// The source of a datagram, if it is at least as long as a header.
fn sender_of(bytes: &[u8]) -> Option<Address>
    ensures { IsHeadAddress 18 bytes.now result }
{
    if bytes.len() < IPX_HEADER_SIZE {
        return None;
    }
    Some(address_at(&bytes[FROM..]))
}

/// The dropped datagram with these bytes, which came by this port.
fn drop_of(port: usize, bytes: &[u8]) -> LastDrop
    ensures { IsDropOf port bytes.now result }
{
    LastDrop {
        port,
        to: receiver_of(bytes),
        from: sender_of(bytes),
    }
}

/// Records these bytes as the last ones of a reason, if its count rose.
fn note_if(last: &mut Option<LastDrop>, before: u64, after: u64, port: usize, bytes: &[u8])
    ensures { IsNotedIf before after port bytes.now last.old last.new }
{
    if before < after {
        *last = Some(drop_of(port, bytes));
    }
}

impl LastDrops {
    /// Nothing has been dropped yet.
    pub fn new() -> LastDrops
        ensures { result ≡ nothing_dropped }
    {
        LastDrops {
            bad: None,
            not_ours: None,
            no_route: None,
            hop_limit: None,
            bad_control: None,
            table_full: None,
        }
    }

    /// Records bytes that came by a port, given the router's counts before and after them.
    pub fn note(
        &mut self,
        before: &OutcomeCounters,
        after: &OutcomeCounters,
        port: usize,
        bytes: &[u8],
    )
        ensures { AreNoted before.now after.now port bytes.now self.old self.new }
    {
        note_if(&mut self.bad, before.bad, after.bad, port, bytes);
        note_if(
            &mut self.not_ours,
            before.not_ours,
            after.not_ours,
            port,
            bytes,
        );
        note_if(
            &mut self.no_route,
            before.no_route,
            after.no_route,
            port,
            bytes,
        );
        note_if(
            &mut self.hop_limit,
            before.hop_limit,
            after.hop_limit,
            port,
            bytes,
        );
        note_if(
            &mut self.bad_control,
            before.bad_control,
            after.bad_control,
            port,
            bytes,
        );
        note_if(
            &mut self.table_full,
            before.table_full,
            after.table_full,
            port,
            bytes,
        );
    }
}
