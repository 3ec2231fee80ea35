//! The kinds of tunnels of an Ethernet port.

/// The kind of a tunnel.
#[derive(Clone, Copy)]
pub enum TunnelKind {
    /// VXLAN.
    Vxlan,
    /// L2TPv3 over UDP.
    L2tpv3,
}
