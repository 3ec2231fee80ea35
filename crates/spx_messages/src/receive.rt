//! How an endpoint handles a datagram.

ghost use Rattle.std.specs.Prelude.{◌≡◌, IfOk, OnErr};
ghost use Rattle.spx_messages.specs.Arrives.{Arrives, IsAcceptable, Unheard};

mod asked;
mod heard;
mod reading;

use crate::arrived::Arrived;
use crate::endpoint::Endpoint;
use crate::receive::asked::{ask, is_request};
use crate::receive::heard::hear;
use crate::receive::reading::read;
use ipx_wire::OutOfMemory;
use std::alloc::Global;

impl Endpoint {
    /// Reads a datagram, and says what was done with it. After that, `heard` gives the link that
    /// read it.
    ///
    /// Memory is needed only for a connection request that would be accepted. If it is refused,
    /// nothing changes, and no link read the datagram.
    pub fn receive(&mut self, alloc: Global, bytes: &[u8], now: u64) -> Result<Arrived, OutOfMemory>
        ensures arrives { IfOk result (λ a. Arrives self.old bytes.now now a self.new) }
        ensures memory { OnErr result (IsAcceptable self.old bytes.now) }
        ensures unchanged { OnErr result (Unheard self.old self.new) }
        ensures said { self.new.said ≡ self.old.said }
    {
        self.heard = None;
        let reading = match read(self.network, self.node, bytes) {
            Ok(reading) => reading,
            Err(answer) => return Ok(answer),
        };
        if is_request(&reading.header) {
            return ask(
                &self.listening,
                &mut self.links,
                &mut self.parts,
                alloc,
                &reading,
                now,
            );
        }
        let Some((id, received)) = hear(&mut self.links, &reading, now) else {
            return Ok(Arrived::Stranger);
        };
        self.heard = Some(id);
        Ok(Arrived::Link(id, received))
    }
}
