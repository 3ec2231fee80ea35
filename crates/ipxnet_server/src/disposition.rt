//! What became of a datagram.

ghost use Rattle.std.specs.Prelude.{◌≡◌, [], IfSome, is_some};
ghost use Rattle.ipx_wire.specs.Ipx.{IsIpx, packet_of};
ghost use Rattle.ipxnet_server.specs.ServerFloods.{is_client_flood};
ghost use Rattle.ipxnet_server.specs.ServerHears.{IsAnswer, answer_of, goes_to_core, is_of_client, takers_of};

use crate::drops::ServerDrop;
use crate::recipients::Recipients;
use ipx_wire::{IPX_HEADER_SIZE, IpxHeader, Node, Packet, encode_into};
use std::net::SocketAddrV4;

/// What becomes of a datagram.
#[derive(Clone, Copy, Debug, PartialEq, Eq)]
pub enum Disposition {
    /// It is a registration, which makes its sender no client. This is the answer.
    Registered(IpxHeader),
    /// It is a ping from a client at an address. This is the answer. It is also sent to the other
    /// clients, which answer it themselves.
    Pinged(SocketAddrV4, IpxHeader),
    /// It is sent to the client at an address.
    ToClient(SocketAddrV4),
    /// It is sent to each joined router, and to each client except the sender at this address.
    ToOthers(SocketAddrV4),
    /// The same, and the core of the port gets it too.
    ToOthersAndCore(SocketAddrV4),
    /// Only the core of the port gets it.
    ToCore,
    /// It answers a ping of the router. Its sender was heard, and nobody gets it.
    PingAnswered,
    /// A client sent it to a node that no client has. It is sent to these joined routers.
    ToJoined(Recipients),
    /// It came from a joined router, and is sent to these clients. If it shows that a node is at
    /// that router, this is the node.
    FromJoined(Option<Node>, Recipients),
    /// It is dropped, for this cause.
    Dropped(ServerDrop),
}

/// The bytes of a header without a body.
pub fn bytes_of(header: IpxHeader) -> [u8; IPX_HEADER_SIZE]
    ensures { IsIpx (packet_of header []) result [] }
{
    let mut bytes = [0; IPX_HEADER_SIZE];
    let packet = Packet { header, body: &[] };
    encode_into(&packet, &mut bytes);
    bytes
}

impl Disposition {
    /// The clients and joined routers that the bytes are sent to, as they arrived.
    pub fn takers(self) -> Recipients
        ensures { result ≡ takers_of self }
    {
        match self {
            Disposition::ToClient(place) => Recipients::One(place),
            Disposition::Pinged(from, _)
            | Disposition::ToOthers(from)
            | Disposition::ToOthersAndCore(from) => { Recipients::Others(from) }
            Disposition::ToJoined(takers) | Disposition::FromJoined(_, takers) => takers,
            Disposition::Registered(_)
            | Disposition::ToCore
            | Disposition::PingAnswered
            | Disposition::Dropped(_) => Recipients::Nobody,
        }
    }

    /// Whether the core of the port gets the bytes, as they arrived.
    pub fn is_for_core(self) -> bool
        ensures { result ≡ goes_to_core self }
    {
        matches!(self, Disposition::ToOthersAndCore(_) | Disposition::ToCore)
    }

    /// The answer to send back to the source address, if there is one.
    pub fn answer(self) -> Option<[u8; IPX_HEADER_SIZE]>
        ensures answer { IfSome result (λ bytes. IsAnswer self bytes) }
        ensures answered { is_some result ≡ is_some (answer_of self) }
    {
        match self {
            Disposition::Registered(header) | Disposition::Pinged(_, header) => Some(bytes_of(
                header,
            )),
            Disposition::ToClient(_)
            | Disposition::ToOthers(_)
            | Disposition::ToOthersAndCore(_)
            | Disposition::ToCore
            | Disposition::PingAnswered
            | Disposition::ToJoined(_)
            | Disposition::FromJoined(_, _)
            | Disposition::Dropped(_) => None,
        }
    }

    /// Whether a client sent it.
    fn is_of_client(self) -> bool
        ensures { result ≡ is_of_client self }
    {
        match self {
            Disposition::Pinged(_, _)
            | Disposition::ToClient(_)
            | Disposition::ToOthers(_)
            | Disposition::ToOthersAndCore(_)
            | Disposition::ToCore
            | Disposition::PingAnswered
            | Disposition::ToJoined(_) => true,
            Disposition::Registered(_) | Disposition::FromJoined(_, _) | Disposition::Dropped(_) =>
                false,
        }
    }

    /// Whether it is a flood of a client.
    pub(crate) fn is_client_flood(self) -> bool
        ensures { result ≡ is_client_flood self }
    {
        self.is_of_client() && self.takers().is_flood()
    }
}
