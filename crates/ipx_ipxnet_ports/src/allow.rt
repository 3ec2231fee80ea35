//! From which IP addresses datagrams are accepted.

ghost use Rattle.std.specs.Prelude.{◌≡◌};
ghost use Rattle.ip_prefixes.specs.Prefixes.{is_in_some};
ghost use Rattle.ipx_ipxnet_ports.specs.ServerAddresses.{is_ip_heard, listed_prefixes};

use ip_prefixes::Prefix;

/// The IP addresses from which datagrams are accepted.
#[derive(Drop)]
pub enum Allow {
    /// Any address.
    Any,
    /// Only those in these prefixes.
    List(Vec<Prefix>),
}

/// Whether an IP address is in one of these prefixes.
fn is_in_some(prefixes: &[Prefix], ip: [u8; 4]) -> bool
    ensures { result ≡ is_in_some prefixes.now ip }
{
    prefixes.iter().any(|prefix| prefix.has(ip))
}

impl Allow {
    /// Whether datagrams from an IP address are accepted.
    pub fn allows(&self, ip: [u8; 4]) -> bool
        ensures { result ≡ is_ip_heard (listed_prefixes self.now) ip }
    {
        match self {
            Allow::Any => true,
            Allow::List(prefixes) => is_in_some(prefixes, ip),
        }
    }
}
