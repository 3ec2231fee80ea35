//! A host as a core.

ghost use Rattle.std.specs.Prelude.{◌≡◌};

use crate::cores::Core;
use ipx_wire::{Node, OutOfMemory};
use spx_messages::Endpoint;
use std::alloc::Global;

/// A host that runs over a device of one port. Its endpoint reads each received datagram, and gives
/// those to send. What the endpoint answers to a datagram is discarded.
#[derive(Drop)]
pub struct HostCore {
    endpoint: Endpoint,
}

impl HostCore {
    ghost use Rattle.std.specs.Borrow.{sem};
    ghost use Rattle.ipx_carrier.specs.HostLends.{LendsEndpoint};

    /// The core of an endpoint.
    pub fn new(endpoint: Endpoint) -> HostCore
        ensures { result.endpoint ≡ endpoint }
    {
        HostCore { endpoint }
    }

    /// The endpoint, to inspect between two runs.
    pub fn as_endpoint(&self) -> &Endpoint
        ensures { result.now ≡ self.now.endpoint }
    {
        &self.endpoint
    }

    /// The endpoint, to dial, send, take and close between two runs.
    pub fn endpoint(&mut self) -> &mut Endpoint
        ensures value { result.now ≡ self.old.endpoint }
        ensures* writes_back { sem 𝓛 (LendsEndpoint self.entry result) }
    {
        &mut self.endpoint
    }
}

impl Core for HostCore {
    ghost use Rattle.ipx_carrier.specs.HostCore.{HostGives, HostHears, HearOutOfMemory};

    ghost port_count = { λ c. 1 };

    ghost hears = { λ old port bytes now new. HostHears old.endpoint bytes now new.endpoint };

    ghost gives = { λ old now given new. HostGives old.endpoint now given new.endpoint };

    ghost hear_out_of_memory = { λ old port bytes now new. HearOutOfMemory old.endpoint bytes new.endpoint };

    ghost next_out_of_memory = { λ old now new. ⊥ };

    fn ports(&self) -> usize {
        1
    }

    fn hear(
        &mut self,
        alloc: Global,
        _port: usize,
        bytes: &[u8],
        now: u64,
    ) -> Result<(), OutOfMemory> {
        self.endpoint.receive(alloc, bytes, now)?;
        Ok(())
    }

    fn next(
        &mut self,
        _alloc: Global,
        now: u64,
        room: &mut [u8],
    ) -> Result<Option<(usize, Node, usize)>, OutOfMemory> {
        let Some((node, count)) = self.endpoint.poll(now, room) else {
            return Ok(None);
        };
        Ok(Some((0, node, count)))
    }
}
