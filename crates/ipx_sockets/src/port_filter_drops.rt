//! What access lists drop, by port.

ghost use Rattle.std.specs.Prelude.{◌≡◌};
ghost use Rattle.ipx_sockets.specs.PortFilterDrops.{RefusedAddUp, UnknownSendersAddUp, drops_changed_at, nothing_at_port, one_refused, one_unknown_sender};

use ipx_carrier::saturating_increment;

/// What the access list of a port dropped. Each count saturates at the greatest u64.
#[derive(Clone, Copy, Debug, PartialEq, Eq)]
pub struct PortFilterDrops {
    /// The datagrams that came from unknown senders.
    pub unknown_senders: u64,
    /// The datagrams to addresses that the port does not send to.
    pub refused: u64,
}

impl PortFilterDrops {
    /// Nothing has been dropped yet.
    pub fn nothing() -> PortFilterDrops
        ensures { result ≡ nothing_at_port }
    {
        PortFilterDrops {
            unknown_senders: 0,
            refused: 0,
        }
    }

    fn raise_unknown_senders(&mut self)
        ensures { self.new ≡ one_unknown_sender self.old }
    {
        saturating_increment(&mut self.unknown_senders);
    }

    fn raise_refused(&mut self)
        ensures { self.new ≡ one_refused self.old }
    {
        saturating_increment(&mut self.refused);
    }
}

/// Counts an unknown sender at a port, if it is one of these ports.
pub fn count_unknown_sender(ports: &mut [PortFilterDrops], port: usize)
    ensures { ports.new ≡ drops_changed_at ports.old port one_unknown_sender }
{
    if port < ports.len() {
        ports[port].raise_unknown_senders();
    }
}

/// Counts a datagram to an address that the port does not send to, if it is one of these ports.
pub fn count_refused(ports: &mut [PortFilterDrops], port: usize)
    ensures { ports.new ≡ drops_changed_at ports.old port one_refused }
{
    if port < ports.len() {
        ports[port].raise_refused();
    }
}

/// A law: the counts of the ports add up to those of their device, for unknown senders and for
/// datagrams not sent. It does nothing.
pub fn filter_drops_add_up()
    ensures unknown_senders { UnknownSendersAddUp }
    ensures refused { RefusedAddUp }
{}
