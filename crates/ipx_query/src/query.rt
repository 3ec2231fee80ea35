//! The packets that ask routers.

ghost use Rattle.std.specs.Prelude.{◌≡◌, ◌≤◌, length, take};
ghost use Rattle.ipx_wire.specs.Ipx.{IsBytes};
ghost use Rattle.ipx_query.specs.AskQueries.{IsQuery, IsQuestion, query_header, question_socket, rounds_by};

use crate::question::TableQuery;
use ipx_control::{Sap, encode_sap_into};
use ipx_wire::{Address, IpxHeader, Node, Packet, Socket, encode_into, packet_type};

/// The most bytes of a question: a RIP request for one entry.
const QUESTION_SIZE: usize = 10;

/// A RIP request for all networks: operation 1, and network FFFFFFFF with FFFF hops and FFFF ticks.
const ALL_NETWORKS: [u8; QUESTION_SIZE] = [0, 1, 255, 255, 255, 255, 255, 255, 255, 255];

/// The time between two rounds, in milliseconds.
const ROUND: u64 = 1000;

/// How many rounds follow the first.
const LATER_ROUNDS: u64 = 2;

/// After this many milliseconds no router is asked any more, and the query is over.
pub const LONGEST: u64 = 4000;

/// How many rounds have begun this many milliseconds after the first. After four seconds there are
/// none.
pub fn rounds_after(passed: u64) -> u8
    ensures { result ≡ rounds_by passed }
{
    if passed >= LONGEST {
        return 0;
    }
    (passed / ROUND).min(LATER_ROUNDS) as u8 + 1
}

/// Writes the body of a question to the front of the buffer, and returns its length.
fn question_into(question: TableQuery, out: &mut [u8]) -> usize
    requires { 10 ≤ length out.old }
    ensures within { result ≤ 10 }
    ensures asks { IsQuestion question (take result out.new) }
{
    match question {
        TableQuery::Networks => {
            out[..QUESTION_SIZE].copy_from_slice(&ALL_NETWORKS);
            QUESTION_SIZE
        }
        TableQuery::Services(kind) => {
            let query = Sap::Query {
                nearest: false,
                kind,
            };
            encode_sap_into(&query, out)
        }
    }
}

/// The socket that a question is sent to, and that it is answered from.
pub fn socket_of(question: TableQuery) -> Socket
    ensures { result.0 ≡ question_socket question }
{
    match question {
        TableQuery::Networks => Socket::RIP,
        TableQuery::Services(_) => Socket::SAP,
    }
}

fn header_of(own: Address, question: TableQuery, node: Node) -> IpxHeader
    ensures { result ≡ query_header own question node }
{
    let kind = match question {
        TableQuery::Networks => packet_type::RIP,
        TableQuery::Services(_) => packet_type::PACKET_EXCHANGE,
    };
    IpxHeader {
        hops: 0,
        kind,
        to: Address {
            network: own.network,
            node,
            socket: socket_of(question),
        },
        from: own,
    }
}

/// Bytes are numbers under 256.
fn are_bytes(bytes: &[u8])
    ensures { IsBytes bytes.now }
{
    let _ = bytes;
}

/// Writes the query to a node to the front of the buffer, and returns its length. The buffer must
/// have room for 40 bytes.
pub fn query_into(own: Address, question: TableQuery, node: Node, out: &mut [u8]) -> usize
    requires { 40 ≤ length out.old }
    ensures within { result ≤ 40 }
    ensures query { IsQuery own question node (take result out.new) }
{
    let mut body = [0; QUESTION_SIZE];
    let length = question_into(question, &mut body);
    let packet = Packet {
        header: header_of(own, question, node),
        body: &body[..length],
    };
    let count = encode_into(&packet, out);
    are_bytes(&out[..count]);
    count
}
