//! The hosts and routers of a script, each over its own sockets.

ghost use Rattle.std.specs.Prelude.{◌≡◌, ◌%◌};
ghost use Rattle.spx_messages.specs.Message.{message_view};
ghost use Rattle.ipx_sim_udp.specs.UdpCalls.{ClosesAt, DialsFromHost, FillsAt, KeepsOtherParts, SendsAt, SendsByte, new_udp_end, next_at, link_state_of};

use crate::binding::{Bindings, bound_hosts, bound_routers};
use crate::runner::{Runner, STEP};
use crate::stop::UdpScriptFault;
use ipx_carrier::{HostCore, RouterCore};
use ipx_net::Member;
use ipx_sim::Layout;
use ipx_wire::{Address, Socket};
use spx_link::State;
use spx_messages::{Message, Taken};
use std::alloc::Global;
use std::net::Net;

/// An end of a connection: its host, its id there, and how many messages went in and out.
#[derive(Clone, Copy)]
pub struct End {
    pub host: usize,
    pub id: u16,
    pub given: usize,
    pub out: usize,
}

impl End {
    /// An end with no message in or out yet.
    fn new(host: usize, id: u16) -> End
        ensures { result ≡ new_udp_end host id }
    {
        End {
            host,
            id,
            given: 0,
            out: 0,
        }
    }
}

/// All that a script runs. Ends are numbered from 0, in the order in which they were made.
#[derive(Drop)]
pub struct UdpNet {
    hosts: Vec<Runner<HostCore>>,
    routers: Vec<Runner<RouterCore>>,
    order: Vec<Member>,
    ends: Vec<End>,
    moment: u64,
    unmapped: u128,
}

/// The byte of a number, modulo 256.
fn byte_of(number: u32) -> u8
    ensures { result ≡ number % 256 }
{
    (number % 256) as u8
}

/// The id that the next link of a host gets: ids rise from 1, and no link is released.
fn next_id(ends: &[End], host: usize) -> u16 {
    let count = ends.iter().filter(|end| end.host == host).count();
    u16::try_from(count).unwrap_or(u16::MAX).saturating_add(1)
}

/// Takes from an end until nothing is held, and returns how many messages there were.
fn take_all(alloc: Global, core: &mut HostCore, id: u16) -> Result<usize, UdpScriptFault> {
    let mut count: usize = 0;
    for _ in 0..u64::MAX {
        match core.endpoint().take(alloc, id)? {
            Taken::Nothing => break,
            Taken::Whole(_) => count = count.saturating_add(1),
            _ => {}
        }
    }
    Ok(count)
}

impl UdpNet {
    /// Binds a socket for each node of the layout, at this UDP port.
    pub fn bind<R: Net>(
        rt: &R,
        alloc: Global,
        layout: &Layout,
        port: u16,
    ) -> Result<UdpNet, UdpScriptFault> {
        let map = layout.map();
        let ground = Bindings { map, port };
        Ok(UdpNet {
            hosts: bound_hosts(rt, alloc, ground, layout.hosts())?,
            routers: bound_routers(rt, alloc, ground, layout.routers())?,
            order: Vec::from_slice(alloc, &map.members)?,
            ends: Vec::new(alloc),
            moment: 0,
            unmapped: 0,
        })
    }

    /// The ends, in order.
    pub fn ends(&self) -> &[End]
        ensures { result.now ≡ self.now.ends.items }
    {
        &self.ends
    }

    /// The state of the link of an end, if it has one.
    pub fn state(&self, end: End) -> Option<State>
        ensures { result ≡ link_state_of self.now end }
    {
        let Some(runner) = self.hosts.get(end.host) else {
            return None;
        };
        runner.core.as_endpoint().state(end.id).ok()
    }

    /// The next number of an end; 0 if it has no link.
    pub fn next(&self, end: End) -> u16
        ensures { result ≡ next_at self.now end }
    {
        let Some(runner) = self.hosts.get(end.host) else {
            return 0;
        };
        match runner.core.as_endpoint().numbers(end.id) {
            Ok(numbers) => numbers.next,
            Err(_) => 0,
        }
    }

    /// How many packets had a node without an IP address.
    pub fn unmapped(&self) -> u128
        ensures { result ≡ self.now.unmapped }
    {
        self.unmapped
    }

    /// A host dials an address.
    pub fn dial(
        &mut self,
        alloc: Global,
        host: usize,
        socket: Socket,
        to: Address,
        buffers: u16,
    ) -> Result<(), UdpScriptFault>
        ensures dials { DialsFromHost host socket to buffers self.old self.new result }
        ensures rest { KeepsOtherParts self.old self.new }
    {
        let Some(runner) = self.hosts.get_mut(host) else {
            return Err(UdpScriptFault::Bad);
        };
        let moment = self.moment;
        let endpoint = runner.core.endpoint();
        let id = match endpoint.dial(alloc, socket, to, buffers, moment) {
            Ok(id) => id,
            Err(fault) => return Err(UdpScriptFault::Refused(fault)),
        };
        match self.ends.push(End::new(host, id)) {
            Ok(()) => Ok(()),
            Err(_) => Err(UdpScriptFault::Memory),
        }
    }

    /// Queues a message at an end.
    pub fn send(
        &mut self,
        alloc: Global,
        who: usize,
        message: &Message,
    ) -> Result<(), UdpScriptFault>
        ensures sends { SendsAt who (message_view message.now) self.old self.new result }
        ensures rest { KeepsOtherParts self.old self.new }
    {
        let Some(end) = self.ends.get_mut(who) else {
            return Err(UdpScriptFault::NoSuchEnd);
        };
        let Some(runner) = self.hosts.get_mut(end.host) else {
            return Err(UdpScriptFault::NoSuchEnd);
        };
        match runner.core.endpoint().send(alloc, end.id, message) {
            Ok(()) => {
                end.given = end.given.saturating_add(1);
                Ok(())
            }
            Err(fault) => Err(UdpScriptFault::Refused(fault)),
        }
    }

    /// Queues a message of one byte at an end.
    fn send_byte(&mut self, alloc: Global, who: usize, byte: u8) -> Result<(), UdpScriptFault>
        ensures sends { SendsByte who byte self.old self.new result }
        ensures rest { KeepsOtherParts self.old self.new }
    {
        let Ok(body) = vec![in alloc; byte] else {
            return Err(UdpScriptFault::Memory);
        };
        self.send(alloc, who, &Message { stream: 0, body })
    }

    /// Queues `count` messages of one byte at an end. The k-th from 0 is k modulo 256.
    pub fn fill(&mut self, alloc: Global, who: usize, count: u32) -> Result<(), UdpScriptFault>
        ensures fills { FillsAt who count self.old self.new result }
        ensures rest { KeepsOtherParts self.old self.new }
    {
        for k in 0..count {
            match self.send_byte(alloc, who, byte_of(k)) {
                Ok(()) => {}
                Err(stop) => return Err(stop),
            }
        }
        Ok(())
    }

    /// Asks an end to end its connection.
    pub fn close(&mut self, alloc: Global, who: usize) -> Result<(), UdpScriptFault>
        ensures closes { ClosesAt who self.old self.new result }
        ensures rest { KeepsOtherParts self.old self.new }
    {
        let Some(end) = self.ends.get(who) else {
            return Err(UdpScriptFault::NoSuchEnd);
        };
        let Some(runner) = self.hosts.get_mut(end.host) else {
            return Err(UdpScriptFault::NoSuchEnd);
        };
        match runner.core.endpoint().close(alloc, end.id) {
            Ok(()) => Ok(()),
            Err(fault) => Err(UdpScriptFault::Refused(fault)),
        }
    }

    /// A host takes a turn. An end that it accepts in that turn gets its number.
    fn turn_host(&mut self, alloc: Global, host: usize) -> Result<(), UdpScriptFault> {
        let Some(runner) = self.hosts.get_mut(host) else {
            return Ok(());
        };
        self.unmapped = self.unmapped.saturating_add(runner.turn(alloc)?);
        let id = next_id(&self.ends, host);
        if runner.core.as_endpoint().state(id).is_ok() {
            self.ends.push(End::new(host, id))?;
        }
        Ok(())
    }

    fn turn_router(&mut self, alloc: Global, router: usize) -> Result<(), UdpScriptFault> {
        let Some(runner) = self.routers.get_mut(router) else {
            return Ok(());
        };
        self.unmapped = self.unmapped.saturating_add(runner.turn(alloc)?);
        Ok(())
    }

    /// Each member takes a turn, in the order of the layout.
    fn turn_all(&mut self, alloc: Global) -> Result<(), UdpScriptFault> {
        for number in 0..self.order.len() {
            match self.order.get(number).copied() {
                Some(Member::Host(host)) => self.turn_host(alloc, host)?,
                Some(Member::Router(router)) => self.turn_router(alloc, router)?,
                None => {}
            }
        }
        self.moment = self.moment.saturating_add(STEP);
        Ok(())
    }

    /// Takes from each end until nothing is held there.
    fn take_from_each(&mut self, alloc: Global) -> Result<(), UdpScriptFault> {
        for end in self.ends.iter_mut() {
            if let Some(runner) = self.hosts.get_mut(end.host) {
                let count = take_all(alloc, &mut runner.core, end.id)?;
                end.out = end.out.saturating_add(count);
            }
        }
        Ok(())
    }

    /// This many times, a turn of each member, and then a take of each end.
    pub fn pump(&mut self, alloc: Global, turns: u32) -> Result<(), UdpScriptFault> {
        for _ in 0..turns {
            self.turn_all(alloc)?;
            self.take_from_each(alloc)?;
        }
        Ok(())
    }
}
