//! The keys of the configuration files.

ghost use Rattle.std.specs.Prelude.{◌≡◌, find, option_copied};
ghost use Rattle.ipx_config.specs.Keys.{is_key, is_text_of, key_text, keys_of_kind, keys_of_other_kinds, keys_of_other_tunnels};

use crate::site::Kind;
use crate::tunnel_kind::TunnelKind;

/// A key of the file of a router or a host.
#[derive(Clone, Copy)]
pub enum Key {
    MetricsFile,
    TablesFile,
    SecretFile,
    Port,
    Network,
    Address,
    UdpPort,
    Cost,
    Peers,
    Routers,
    Accept,
    Router,
    Socket,
    Buffers,
    Allow,
    Kind,
    Encapsulation,
    Remotes,
    Node,
    Switch,
    Clients,
    Join,
    Directed,
    Tunnel,
    Vni,
    Session,
    PeerSession,
    Cookie,
    PeerCookie,
    Sublayer,
    Route,
    Service,
    NextHop,
    Hops,
    Ticks,
    ServiceType,
    Name,
    IpxAddress,
}

impl Key {
    /// The key as a file writes it.
    pub fn text(&self) -> &'static str
        ensures { result.now ≡ key_text self.now }
    {
        match self {
            Key::MetricsFile => "metrics_file",
            Key::TablesFile => "tables_file",
            Key::SecretFile => "secret_file",
            Key::Port => "port",
            Key::Network => "network",
            Key::Address => "address",
            Key::UdpPort => "udp_port",
            Key::Cost => "cost",
            Key::Peers => "peers",
            Key::Routers => "routers",
            Key::Accept => "accept",
            Key::Router => "router",
            Key::Socket => "socket",
            Key::Buffers => "buffers",
            Key::Allow => "allow",
            Key::Kind => "kind",
            Key::Encapsulation => "encapsulation",
            Key::Remotes => "remotes",
            Key::Node => "node",
            Key::Switch => "switch",
            Key::Clients => "clients",
            Key::Join => "join",
            Key::Directed => "directed",
            Key::Tunnel => "tunnel",
            Key::Vni => "vni",
            Key::Session => "session",
            Key::PeerSession => "peer_session",
            Key::Cookie => "cookie",
            Key::PeerCookie => "peer_cookie",
            Key::Sublayer => "sublayer",
            Key::Route => "route",
            Key::Service => "service",
            Key::NextHop => "next_hop",
            Key::Hops => "hops",
            Key::Ticks => "ticks",
            Key::ServiceType => "type",
            Key::Name => "name",
            Key::IpxAddress => "ipx_address",
        }
    }

    /// A description of its valid values, with an example, for the line of a fault.
    pub(crate) fn right(&self) -> &'static str {
        match self {
            Key::MetricsFile => "a file name, such as \"/run/ipx/hq/hq.prom\"",
            Key::TablesFile => {
                "a file name, different from metrics_file with or without .new, such as \
                 \"/run/ipx/hq/hq.tables\""
            }
            Key::SecretFile => {
                "a file name, different from metrics_file and tables_file with or without .new, such \
                 as \"/var/lib/ipx/hq/secret\""
            }
            Key::Port => "1 to 16 tables [[port]]",
            Key::Network => "eight hex digits, neither all 0 nor all f, such as \"00000011\"",
            Key::Address => "an IPv4 address of this machine, such as \"192.0.2.10\"",
            Key::UdpPort => "a number from 1 to 65535, such as 213",
            Key::Cost => "a number of ticks from 1 to 65535, such as 6",
            Key::Peers => "a list of IP addresses, such as [\"198.51.100.7\", \"203.0.113.9\"]",
            Key::Routers => "a list of IP addresses that are also in peers",
            Key::Accept => "\"peers\" or \"any\"",
            Key::Router => "the IPv4 address of a router, such as \"10.1.0.1\"",
            Key::Socket => "four hex digits, not all 0, such as \"4002\"",
            Key::Buffers => "a number from 1 to 8192, such as 64",
            Key::Allow => {
                "a list of at most 256 networks, each with or without a node after it, such as \
                 [\"00000022 00000a02001e\", \"00000033\"]"
            }
            Key::Kind => "\"rfc1234\", \"ethernet\" or \"ipxnet\"",
            Key::Encapsulation => "\"802.3\", \"802.2\", \"snap\" or \"ethernet-ii\"",
            Key::Remotes => {
                "a list of 1 to 256 address:port, each listed once, such as [\"127.0.0.1:24001\"]"
            }
            Key::Node => "the MAC address of one station, such as \"02:00:00:00:00:22\"",
            Key::Switch | Key::Sublayer => "true or false",
            Key::Clients => "a number from 1 to 150, such as 64",
            Key::Join =>
                "a list of 1 to 256 address:port, each listed once, such as [\"198.51.100.7:2130\"]",
            Key::Directed => "\"none\", \"few\" or \"all\"",
            Key::Tunnel => "\"vxlan\" or \"l2tpv3\"",
            Key::Vni => "a number from 1 to 16777215, such as 42",
            Key::Session | Key::PeerSession => "a number from 1 to 4294967295, such as 1",
            Key::Cookie | Key::PeerCookie => {
                "8 or 16 hex digits, such as \"0123456789abcdef\", or \"\" for no cookie"
            }
            Key::Route => "at most 256 tables [[route]]",
            Key::Service => "at most 256 tables [[service]]",
            Key::NextHop => {
                "another node of the port's network: one of its peers, such as \
                 \"198.51.100.7\", or on an Ethernet port a MAC address, such as \"02:00:00:00:00:33\""
            }
            Key::Hops => "a number from 1 to 14, such as 1",
            Key::Ticks => "a number of ticks from 1 to 65535, such as 6",
            Key::ServiceType => "four hex digits, neither all 0 nor all f, such as \"0640\"",
            Key::Name => "1 to 47 printable ASCII characters without spaces, such as \"BACKUP\"",
            Key::IpxAddress =>
                "a network, a node and a socket, such as \"00000011 00000a010014 4002\"",
        }
    }
}

/// Whether a text is one of these keys.
pub fn is_key(keys: &[Key], text: &str) -> bool
    ensures { result ≡ is_key keys.now text.now }
{
    keys.iter().any(|key| key.text() == text)
}

/// The keys of an RFC 1234 port, in the order in which their faults are reported.
const PORT_KEYS: [Key; 9] = [
    Key::Kind,
    Key::Network,
    Key::Address,
    Key::UdpPort,
    Key::Cost,
    Key::Peers,
    Key::Routers,
    Key::Accept,
    Key::Directed,
];

/// The keys of an Ethernet port, in the order in which their faults are reported.
const ETHERNET_KEYS: [Key; 17] = [
    Key::Kind,
    Key::Network,
    Key::Encapsulation,
    Key::Address,
    Key::Tunnel,
    Key::Vni,
    Key::Session,
    Key::PeerSession,
    Key::Cookie,
    Key::PeerCookie,
    Key::Sublayer,
    Key::UdpPort,
    Key::Cost,
    Key::Remotes,
    Key::Node,
    Key::Switch,
    Key::Directed,
];

/// The keys of an ipxnet port, in the order in which their faults are reported.
const IPXNET_KEYS: [Key; 11] = [
    Key::Kind,
    Key::Network,
    Key::Address,
    Key::UdpPort,
    Key::Cost,
    Key::Node,
    Key::Clients,
    Key::Accept,
    Key::Peers,
    Key::Join,
    Key::Directed,
];

/// The keys of other kinds of ports that an RFC 1234 port does not have. The lists for Ethernet and
/// ipxnet ports follow.
const NOT_RFC1234_KEYS: [Key; 13] = [
    Key::Encapsulation,
    Key::Tunnel,
    Key::Vni,
    Key::Session,
    Key::PeerSession,
    Key::Cookie,
    Key::PeerCookie,
    Key::Sublayer,
    Key::Remotes,
    Key::Node,
    Key::Switch,
    Key::Clients,
    Key::Join,
];

const NOT_ETHERNET_KEYS: [Key; 5] = [
    Key::Peers,
    Key::Routers,
    Key::Accept,
    Key::Clients,
    Key::Join,
];

const NOT_IPXNET_KEYS: [Key; 11] = [
    Key::Routers,
    Key::Encapsulation,
    Key::Tunnel,
    Key::Vni,
    Key::Session,
    Key::PeerSession,
    Key::Cookie,
    Key::PeerCookie,
    Key::Sublayer,
    Key::Remotes,
    Key::Switch,
];

/// The keys of an L2TPv3 tunnel, of a VXLAN tunnel, and of both.
const L2TPV3_KEYS: [Key; 5] = [
    Key::Session,
    Key::PeerSession,
    Key::Cookie,
    Key::PeerCookie,
    Key::Sublayer,
];

const VXLAN_KEYS: [Key; 1] = [Key::Vni];

const TUNNEL_KEYS: [Key; 6] = [
    Key::Vni,
    Key::Session,
    Key::PeerSession,
    Key::Cookie,
    Key::PeerCookie,
    Key::Sublayer,
];

/// The keys of a port of this kind.
pub fn keys_of_kind(kind: Kind) -> &'static [Key]
    ensures { result.now ≡ keys_of_kind kind }
{
    match kind {
        Kind::Rfc1234 => &PORT_KEYS,
        Kind::Ethernet => &ETHERNET_KEYS,
        Kind::Ipxnet => &IPXNET_KEYS,
    }
}

/// The keys of other kinds of ports that this kind does not have.
pub fn keys_of_other_kinds(kind: Kind) -> &'static [Key]
    ensures { result.now ≡ keys_of_other_kinds kind }
{
    match kind {
        Kind::Rfc1234 => &NOT_RFC1234_KEYS,
        Kind::Ethernet => &NOT_ETHERNET_KEYS,
        Kind::Ipxnet => &NOT_IPXNET_KEYS,
    }
}

/// The keys of the tunnels that a port does not have, if it has a tunnel of this kind, or none.
pub fn keys_of_other_tunnels(kind: Option<TunnelKind>) -> &'static [Key]
    ensures { result.now ≡ keys_of_other_tunnels kind }
{
    match kind {
        None => &TUNNEL_KEYS,
        Some(TunnelKind::Vxlan) => &L2TPV3_KEYS,
        Some(TunnelKind::L2tpv3) => &VXLAN_KEYS,
    }
}

/// The one of these keys that a text names.
pub fn key_in<'a>(keys: &'a [Key], text: &str) -> Option<&'a Key>
    ensures { option_copied result ≡ find (is_text_of text.now) keys.now }
{
    keys.iter().find(|key| key.text() == text)
}
