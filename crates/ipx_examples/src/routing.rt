//! A router that learns a network from a neighbour, and forwards a packet to it.

ghost use Rattle.std.specs.Prelude.{◌≡◌, ◌≤◌, IfOk, length};

use anyhow::Result;
use ipx_router::{NewFault, Outcome, Port, Reply, Router};
use ipx_wire::{Network, Node};
use std::alloc::Global;

/// A RIP response: network 44 is 1 hop and 3 ticks away. Node 00007f000009 of network 22 sends it.
const RESPONSE: &str =
    "ffff0028000100000022ffffffffffff04530000002200007f000009045300020000004400010003";

/// A packet from a node of network 11 to one of network 44, without a body.
const PACKET: &str = "ffff001e00000000004400007f00000540000000001100007f0000035000";

/// A port, by the number of its network and its node's last byte. Its cost is one tick.
fn port(network: u32, last: u8) -> Port
    ensures { result.network.0 ≡ network }
{
    Port {
        network: Network(network),
        node: Node([0, 0, 0x7f, 0, 0, last]),
        cost: 1,
    }
}

/// A router with port 1 on network 11 and port 2 on network 22.
fn router_of_two(alloc: Global) -> Result<Router, NewFault>
    ensures { IfOk result (λ r. length r.ports ≡ 2) }
{
    let Ok(ports) = vec![in alloc; port(0x11, 1), port(0x22, 2)] else {
        return Err(NewFault::OutOfMemory);
    };
    Router::new(alloc, ports)
}

/// Prints a packet that the router sends: the port, the next node, and the bytes in hex.
fn print_packet(rt: &impl Print, alloc: Global, reply: &Reply) -> Result<()> {
    let port = reply.port;
    let next = hex::encode(alloc, reply.next.0)?;
    let bytes = hex::encode(alloc, reply.bytes.as_slice())?;
    println!(rt; "router: forward {port} {next} {bytes}")?;
    Ok(())
}

fn print_outcome(rt: &impl Print, alloc: Global, outcome: &Outcome) -> Result<()> {
    match outcome {
        Outcome::Forward(reply) => print_packet(rt, alloc, reply),
        Outcome::Replies(replies) => {
            let count = replies.len();
            Ok(println!(rt; "router: {count} replies")?)
        }
        Outcome::Heard(count) => Ok(println!(rt; "router: heard {count}")?),
        Outcome::Dropped(reason) => Ok(println!(rt; "router: dropped, {reason}")?),
    }
}

/// Passes a datagram in hex to the router, and prints what it does with it. The caller must pass a port
/// that exists.
fn hand_in(rt: &impl Print, alloc: Global, router: &mut Router, port: u8, text: &str) -> Result<()>
    requires first { 1 ≤ port }
    requires last { port ≤ length router.old.ports }
    ensures { router.new.ports ≡ router.old.ports }
{
    let bytes = hex::decode(alloc, text)?;
    let outcome = router.receive(alloc, port, &bytes, 0)?;
    print_outcome(rt, alloc, &outcome)
}

/// Port 2 receives a response. Then a packet that comes in on port 1 is forwarded by port 2, to the
/// neighbour that sent the response, with one hop more.
pub fn learn_and_forward(rt: &impl Print, alloc: Global) -> Result<()> {
    let mut router = router_of_two(alloc)?;
    hand_in(rt, alloc, &mut router, 2, RESPONSE)?;
    hand_in(rt, alloc, &mut router, 1, PACKET)
}
