//! A core that drops packets which fail a source check.

ghost use Rattle.std.specs.Prelude.{◌≡◌};
ghost use Rattle.ipx_source_checks.specs.SourceChecks.{nothing_dropped_yet};

use crate::drops::SourceDrops;
use crate::failed_check::{CheckedPort, failed_check};
use ipx_carrier::Core;
use ipx_static::RestartDiscovery;
use ipx_wire::{Node, OutOfMemory};
use std::alloc::Global;
use std::marker::Model;

/// A core over another one. It drops and counts packets that fail a source check: RIP and SAP for
/// the router that another router forwarded, RIP and SAP from a group or from zero at an Ethernet
/// port, and packets for another network that claim to come from that same network. The core below
/// hears everything else, as it comes.
pub struct SourceChecked<C: Core + Drop> {
    core: C,
    ports: Vec<CheckedPort>,
    drops: SourceDrops,
}

impl<C: Core + Drop> Drop for SourceChecked<C> {
    fn drop(self) {
        let SourceChecked {
            core: _,
            ports: _,
            drops: _,
        } = self;
    }
}

impl<C: Core + Drop> Model for SourceChecked<C> {
    ghost use Rattle.ipx_source_checks.specs.SourceChecked.{SourceCheckedView};

    ghost Value = { SourceCheckedView C };

    ghost view = { λ s. record {
      core = s.core;
      ports = s.ports.items;
      drops = s.drops;
    } };
}

impl<C: Core + Drop> SourceChecked<C> {
    /// A core over that of a router with these ports, in their order. Nothing has been dropped yet.
    pub fn new(core: C, ports: Vec<CheckedPort>) -> SourceChecked<C>
        ensures core { result.core ≡ core }
        ensures ports { result.ports ≡ ports.items }
        ensures fresh { result.drops ≡ nothing_dropped_yet }
    {
        SourceChecked {
            core,
            ports,
            drops: SourceDrops::none(),
        }
    }

    /// The core below, for inspection between two runs.
    pub fn core(&self) -> &C
        ensures { result.now ≡ self.now.core }
    {
        &self.core
    }

    /// The packets that were dropped.
    pub fn drops(&self) -> SourceDrops
        ensures { result ≡ self.now.drops }
    {
        self.drops
    }
}

impl<C: RestartDiscovery + Drop> RestartDiscovery for SourceChecked<C> {
    ghost use Rattle.ipx_source_checks.specs.SourceChecked.{asking_below_checks};

    ghost asking_again = { asking_below_checks C.asking_again };

    fn restart_discovery(&mut self) {
        self.core.restart_discovery();
    }
}

impl<C: Core + Drop> Core for SourceChecked<C> {
    ghost use Rattle.ipx_source_checks.specs.SourceChecked.{GivesBelowChecks, HearsChecked, HearOutOfMemoryChecked, NextOutOfMemoryBelowChecks};

    ghost port_count = { λ s. C.port_count s.core };

    ghost hears = { HearsChecked C.hears };

    ghost gives = { GivesBelowChecks C.gives };

    ghost hear_out_of_memory = { HearOutOfMemoryChecked C.hear_out_of_memory };

    ghost next_out_of_memory = { NextOutOfMemoryBelowChecks C.next_out_of_memory };

    fn ports(&self) -> usize {
        self.core.ports()
    }

    fn hear(
        &mut self,
        alloc: Global,
        port: usize,
        bytes: &[u8],
        now: u64,
    ) -> Result<(), OutOfMemory> {
        match failed_check(&self.ports, port, bytes) {
            Some(failed) => {
                self.drops.add(failed);
                Ok(())
            }
            None => self.core.hear(alloc, port, bytes, now),
        }
    }

    fn next(
        &mut self,
        alloc: Global,
        now: u64,
        room: &mut [u8],
    ) -> Result<Option<(usize, Node, usize)>, OutOfMemory> {
        self.core.next(alloc, now, room)
    }
}
