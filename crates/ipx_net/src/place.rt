//! Senders and receivers of packets.

/// A place on a network: a host, or a port of a router. Hosts and routers are numbered from 0,
/// ports from 1.
#[derive(Clone, Copy, Debug, PartialEq, Eq)]
pub enum Place {
    Host(usize),
    Port(usize, u8),
}
