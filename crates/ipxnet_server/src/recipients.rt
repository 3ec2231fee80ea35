//! The clients and joined routers that bytes go to.

ghost use Rattle.std.specs.Prelude.{◌≡◌};
ghost use Rattle.ipxnet_server.specs.ServerFloods.{is_flood};
ghost use Rattle.ipxnet_server.specs.ServerHears.{is_joined_taker, is_taker};

use std::net::SocketAddrV4;

/// The clients of a server, and the routers that it is joined to, that bytes are sent to.
#[derive(Clone, Copy, Debug, PartialEq, Eq)]
pub enum Recipients {
    /// None.
    Nobody,
    /// The client at this address.
    One(SocketAddrV4),
    /// Each joined router, and each client except the sender at this address.
    Others(SocketAddrV4),
    /// Each client, and no joined router.
    All,
    /// Each client except one at this address, and no joined router. The bytes came from the joined
    /// router there.
    Here(SocketAddrV4),
    /// Each joined router, and no client.
    Joined,
    /// The joined router at this address.
    JoinedAt(SocketAddrV4),
}

impl Recipients {
    /// Whether a client at an address is one of them. Whether a client is there is not asked, but
    /// `IpxnetServer::reaches` asks it too.
    pub fn has(self, place: SocketAddrV4) -> bool
        ensures { result ≡ is_taker self place }
    {
        match self {
            Recipients::Nobody => false,
            Recipients::One(one) => one == place,
            Recipients::Others(from) => from != place,
            Recipients::All => true,
            Recipients::Here(from) => from != place,
            Recipients::Joined | Recipients::JoinedAt(_) => false,
        }
    }

    /// Whether a joined router at an address is one of them. Whether a router is joined there is
    /// not asked, but `IpxnetServer::joins` asks it too.
    pub fn has_router(self, place: SocketAddrV4) -> bool
        ensures { result ≡ is_joined_taker self place }
    {
        match self {
            Recipients::Others(_) | Recipients::Joined => true,
            Recipients::JoinedAt(one) => one == place,
            Recipients::Nobody | Recipients::One(_) | Recipients::All | Recipients::Here(_) =>
                false,
        }
    }

    /// Whether bytes for these are a flood: for all clients, or for all joined routers.
    pub(crate) fn is_flood(self) -> bool
        ensures { result ≡ is_flood self }
    {
        match self {
            Recipients::Others(_) | Recipients::All | Recipients::Here(_) | Recipients::Joined =>
                true,
            Recipients::Nobody | Recipients::One(_) | Recipients::JoinedAt(_) => false,
        }
    }
}
