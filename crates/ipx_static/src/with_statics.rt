//! A core that receives the advertisements of static neighbours.

ghost use Rattle.std.specs.Prelude.{◌≡◌, None, All, IfOk, OnOk, OnErr};
ghost use Rattle.ipx_router.specs.Ports.{IsPortNumber};
ghost use Rattle.ipx_router.specs.Advertisements.{IsNextAdvertisement};
ghost use Rattle.ipx_static.specs.WithStatics.{HearsIfDue, HearOutOfMemoryIfDue};
ghost use Rattle.ipx_static.specs.StaticAdvertisements.{AreStaticAdvertisements};

use crate::advertisements::advertisements_of;
use crate::hearing::{hear_advertisements, is_time, next_time};
use crate::neighbour::StaticNeighbour;
use crate::restart_discovery::RestartDiscovery;
use ipx_carrier::Core;
use ipx_router::Reply;
use ipx_wire::{Node, OutOfMemory};
use std::alloc::Global;
use std::marker::Model;

/// A core over another one, which receives the advertisements of static neighbours. It receives
/// them as it is asked for a packet first, and again once a minute has passed since the last time.
/// If out of memory, it receives them again a minute later. The core below does all else.
#[derive(Drop)]
pub struct WithStatics<C: Core + Drop> {
    core: C,
    advertisements: Vec<Reply>,
    refreshed_at: Option<u64>,
}

impl<C: Core + Drop> Model for WithStatics<C> {
    ghost use Rattle.ipx_router.specs.Ports.{AreOnPorts};
    ghost use Rattle.ipx_router.specs.RouterPackets.{sendings};
    ghost use Rattle.ipx_static.specs.WithStatics.{WithStaticsView};

    ghost Value = { WithStaticsView C };

    ghost view = { λ s. record { core = s.core; advertisements = sendings s.advertisements.items; refreshed_at = s.refreshed_at } };

    ghost invariant = { λ s. AreOnPorts (C.port_count s.core) (sendings s.advertisements.items) };
}

impl<C: Core + Drop> WithStatics<C> {
    /// A core over this one, which has received no static advertisement yet. The ports of the
    /// neighbours must exist, and are numbered from 1.
    pub fn new(
        alloc: Global,
        core: C,
        neighbours: &[StaticNeighbour],
    ) -> Result<WithStatics<C>, OutOfMemory>
        requires { All (λ n. IsPortNumber (C.port_count core) n.port) neighbours.now }
        ensures core { IfOk result (λ s. s.core ≡ core) }
        ensures advertisements { IfOk result (λ s. AreStaticAdvertisements neighbours.now s.advertisements) }
        ensures unsaid { IfOk result (λ s. s.refreshed_at ≡ None) }
    {
        let advertisements = advertisements_of(alloc, neighbours)?;
        Ok(WithStatics {
            core,
            advertisements,
            refreshed_at: None,
        })
    }

    /// The core below, to inspect between two runs.
    pub fn core(&self) -> &C
        ensures { result.now ≡ self.now.core }
    {
        &self.core
    }

    /// When the core below receives the static advertisements next, in milliseconds, if it is asked
    /// for a packet then. None if that time exceeds a u64.
    ///
    /// If you wait for datagrams, wake by then, and ask for a packet.
    pub fn next_refresh(&self) -> Option<u64>
        ensures { IsNextAdvertisement self.now.refreshed_at result }
    {
        next_time(self.refreshed_at)
    }

    /// Lets the core below receive the advertisements, if they are due.
    fn refresh(&mut self, alloc: Global, now: u64) -> Result<(), OutOfMemory>
        ensures heard { OnOk result (HearsIfDue C.hears self.old now self.new) }
        ensures refused { OnErr result (HearOutOfMemoryIfDue C.hears C.hear_out_of_memory self.old now self.new) }
        ensures ports { C.port_count self.new.core ≡ C.port_count self.old.core }
    {
        if !is_time(self.refreshed_at, now) {
            return Ok(());
        }
        self.refreshed_at = Some(now);
        hear_advertisements(alloc, &mut self.core, &self.advertisements, now)
    }
}

impl<C: RestartDiscovery + Drop> RestartDiscovery for WithStatics<C> {
    ghost use Rattle.ipx_static.specs.WithStatics.{asking_under};

    ghost asking_again = { asking_under C.asking_again };

    fn restart_discovery(&mut self) {
        self.core.restart_discovery();
    }
}

impl<C: Core + Drop> Core for WithStatics<C> {
    ghost use Rattle.ipx_static.specs.WithStatics.{GivesWithStatics, HearsUnder, HearOutOfMemoryUnder, NextOutOfMemoryWithStatics};

    ghost port_count = { λ s. C.port_count s.core };

    ghost hears = { HearsUnder C.hears };

    ghost gives = { GivesWithStatics C.hears C.gives };

    ghost hear_out_of_memory = { HearOutOfMemoryUnder C.hear_out_of_memory };

    ghost next_out_of_memory = { NextOutOfMemoryWithStatics C.hears C.hear_out_of_memory C.next_out_of_memory };

    fn ports(&self) -> usize {
        self.core.ports()
    }

    fn hear(
        &mut self,
        alloc: Global,
        port: usize,
        bytes: &[u8],
        now: u64,
    ) -> Result<(), OutOfMemory> {
        self.core.hear(alloc, port, bytes, now)
    }

    fn next(
        &mut self,
        alloc: Global,
        now: u64,
        room: &mut [u8],
    ) -> Result<Option<(usize, Node, usize)>, OutOfMemory> {
        self.refresh(alloc, now)?;
        self.core.next(alloc, now, room)
    }
}
