//! Replies in the making: entries are added one by one, and each packet is closed when it is full.

ghost use Rattle.std.specs.Prelude.{◌≡◌, ◌≤◌, ◌<◌, ◌++◌, ◌∷◌, [], IfOk, List, OnErr, OnOk, drop, false, length, take_while};
ghost use Rattle.std.specs.List.{prefix_len};
ghost use Rattle.ipx_control.specs.declared.rip.packet.RipEntry.{RipEntry};
ghost use Rattle.ipx_control.specs.declared.sap.packet.ServiceEntry.{ServiceEntry};
ghost use Rattle.ipx_router.specs.RouterPackets.{AreRoutePackets, AreServicePackets, sendings};
ghost use Rattle.ipx_router.specs.Adding.{ArePacked};
ghost use Rattle.ipx_router.specs.Placing.{is_below};

use crate::outcome::Reply;
use crate::packets::{
    MAX_ROUTES_PER_PACKET, MAX_SERVICES_PER_PACKET, Recipient, add_route_packets,
    add_service_packets, routes_packet, services_packet,
};
use ipx_control::{RipEntry, ServiceEntry};
use ipx_wire::{Network, OutOfMemory};
use std::alloc::Global;

/// The closed packets of routes, and the routes of the open packet. Nothing is allocated before the
/// first route is added.
#[derive(Drop)]
pub struct RoutePackets {
    to: Recipient,
    sent: Vec<Reply>,
    hand: Vec<RipEntry>,
}

impl RoutePackets {
    pub fn new(alloc: Global, to: Recipient) -> Self
        ensures to { result.to ≡ to }
        ensures none { ArePacked (AreRoutePackets to) [] result.sent.items result.hand.items }
    {
        RoutePackets {
            to,
            sent: Vec::new(alloc),
            hand: Vec::new(alloc),
        }
    }

    /// Closes the open packet, which is full.
    #[inline(never)] // keeps the loop over routes small
    fn close(&mut self, alloc: Global) -> Result<(), OutOfMemory>
        requires { length self.old.hand.items ≡ 50 }
        ensures to { self.new.to ≡ self.old.to }
        ensures closed { OnOk result ((routes : List RipEntry)
            → ArePacked (AreRoutePackets self.old.to) routes
            self.old.sent.items self.old.hand.items
            → ArePacked (AreRoutePackets self.old.to) routes
            self.new.sent.items self.new.hand.items) }
    {
        let packet = routes_packet(alloc, self.to, &self.hand)?;
        self.sent.push(packet)?;
        self.hand.clear();
        Ok(())
    }

    /// Adds one route.
    #[inline]
    pub fn put(&mut self, alloc: Global, route: RipEntry) -> Result<(), OutOfMemory>
        ensures to { self.new.to ≡ self.old.to }
        ensures put { OnOk result ((routes : List RipEntry)
            → ArePacked (AreRoutePackets self.old.to) routes
            self.old.sent.items self.old.hand.items
            → ArePacked (AreRoutePackets self.old.to) (routes ++ route ∷ [])
            self.new.sent.items self.new.hand.items) }
    {
        if self.hand.len() == MAX_ROUTES_PER_PACKET {
            self.close(alloc)?;
        }
        self.hand.push(route)?;
        Ok(())
    }

    /// Adds a list of routes.
    pub fn put_all(&mut self, alloc: Global, list: &[RipEntry]) -> Result<(), OutOfMemory>
        ensures to { self.new.to ≡ self.old.to }
        ensures put { OnOk result ((routes : List RipEntry)
            → ArePacked (AreRoutePackets self.old.to) routes
            self.old.sent.items self.old.hand.items
            → ArePacked (AreRoutePackets self.old.to) (routes ++ list.now)
            self.new.sent.items self.new.hand.items) }
        ensures refused { OnErr result (0 < length list.now) }
    {
        for route in list {
            self.put(alloc, *route)?;
        }
        Ok(())
    }

    /// Adds the routes of a list before the first one whose network is not lower than this, and
    /// gives the rest of the list.
    pub fn put_below<'a>(
        &mut self,
        alloc: Global,
        list: &'a [RipEntry],
        network: Network,
    ) -> Result<&'a [RipEntry], OutOfMemory>
        ensures to { self.new.to ≡ self.old.to }
        ensures put { OnOk result ((routes : List RipEntry)
            → ArePacked (AreRoutePackets self.old.to) routes
            self.old.sent.items self.old.hand.items
            → ArePacked (AreRoutePackets self.old.to)
            (routes ++ take_while (is_below network) list.now)
            self.new.sent.items self.new.hand.items) }
        ensures rest { IfOk result (λ rest.
            rest.now ≡ drop (prefix_len (is_below network) list.now) list.now) }
    {
        let (below, rest) = list.split_at(count_below(list, network));
        self.put_all(alloc, below)?;
        Ok(rest)
    }

    /// The packets of all routes that were added. It allocates only if one was.
    pub fn finish(self, alloc: Global) -> Result<Vec<Reply>, OutOfMemory>
        ensures packets { IfOk result (λ v. (routes : List RipEntry)
            → ArePacked (AreRoutePackets self.to) routes self.sent.items self.hand.items
            → AreRoutePackets self.to routes (sendings v.items)) }
        ensures refused { OnErr result ((routes : List RipEntry)
            → ArePacked (AreRoutePackets self.to) routes self.sent.items self.hand.items
            → 0 < length routes) }
    {
        let mut sent = self.sent;
        if self.hand.is_empty() {
            return Ok(sent);
        }
        add_route_packets(alloc, &mut sent, self.to, &self.hand)?;
        Ok(sent)
    }
}

/// The number of routes in a list before the first one whose network is not lower than this.
fn count_below(list: &[RipEntry], network: Network) -> usize
    ensures count { result ≡ prefix_len (is_below network) list.now }
    ensures within { result ≤ length list.now }
{
    list.iter()
        .take_while(|route| route.network < network)
        .count()
}

/// The closed packets of services, and the services of the open packet. Nothing is allocated before
/// the first service is added.
#[derive(Drop)]
pub struct ServicePackets {
    to: Recipient,
    sent: Vec<Reply>,
    hand: Vec<ServiceEntry>,
}

impl ServicePackets {
    pub fn new(alloc: Global, to: Recipient) -> Self
        ensures to { result.to ≡ to }
        ensures none { ArePacked (AreServicePackets to false) []
            result.sent.items result.hand.items }
    {
        ServicePackets {
            to,
            sent: Vec::new(alloc),
            hand: Vec::new(alloc),
        }
    }

    /// Closes the open packet, which is full.
    #[inline(never)] // keeps the loop over services small
    fn close(&mut self, alloc: Global) -> Result<(), OutOfMemory>
        requires { length self.old.hand.items ≡ 7 }
        ensures to { self.new.to ≡ self.old.to }
        ensures closed { OnOk result ((services : List ServiceEntry)
            → ArePacked (AreServicePackets self.old.to false) services
            self.old.sent.items self.old.hand.items
            → ArePacked (AreServicePackets self.old.to false) services
            self.new.sent.items self.new.hand.items) }
    {
        let packet = services_packet(alloc, self.to, false, &self.hand)?;
        self.sent.push(packet)?;
        self.hand.clear();
        Ok(())
    }

    /// Adds one service.
    #[inline]
    pub fn put(&mut self, alloc: Global, service: ServiceEntry) -> Result<(), OutOfMemory>
        ensures to { self.new.to ≡ self.old.to }
        ensures put { OnOk result ((services : List ServiceEntry)
            → ArePacked (AreServicePackets self.old.to false) services
            self.old.sent.items self.old.hand.items
            → ArePacked (AreServicePackets self.old.to false) (services ++ service ∷ [])
            self.new.sent.items self.new.hand.items) }
    {
        if self.hand.len() == MAX_SERVICES_PER_PACKET {
            self.close(alloc)?;
        }
        self.hand.push(service)?;
        Ok(())
    }

    /// The packets of all services that were added. It allocates only if one was.
    pub fn finish(self, alloc: Global) -> Result<Vec<Reply>, OutOfMemory>
        ensures packets { IfOk result (λ v. (services : List ServiceEntry)
            → ArePacked (AreServicePackets self.to false) services
            self.sent.items self.hand.items
            → AreServicePackets self.to false services (sendings v.items)) }
        ensures refused { OnErr result ((services : List ServiceEntry)
            → ArePacked (AreServicePackets self.to false) services
            self.sent.items self.hand.items
            → 0 < length services) }
    {
        let mut sent = self.sent;
        if self.hand.is_empty() {
            return Ok(sent);
        }
        add_service_packets(alloc, &mut sent, self.to, false, &self.hand)?;
        Ok(sent)
    }
}
