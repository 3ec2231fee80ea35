//! Two hosts that pass a message: one asks for a connection, the other listens.

use anyhow::Result;
use ipx_wire::{Address, Network, Node, SPX_MAX_PACKET_SIZE, Socket};
use spx_messages::{Arrived, Endpoint, Message, Taken};
use std::alloc::{AllocError, Global};

/// How many units each side can hold.
const BUFFERS: u16 = 8;

/// The network of both.
const NETWORK: Network = Network(0x11);

/// A node, by its last byte.
const fn node(last: u8) -> Node {
    Node([0, 0, 0x7f, 0, 0, last])
}

/// The endpoint of a node, by its last byte. The router of the network is node 1.
fn host(alloc: Global, last: u8) -> Endpoint {
    Endpoint::new(alloc, NETWORK, node(last), node(1))
}

/// Writes the next packet of an endpoint, lets the other one read it, and prints the answer. `None`
/// if there is no packet to send.
fn pass(
    rt: &impl Print,
    alloc: Global,
    from: &mut Endpoint,
    to: &mut Endpoint,
) -> Result<Option<Arrived>> {
    let mut room = [0; SPX_MAX_PACKET_SIZE];
    let Some((_next, count)) = from.poll(0, &mut room) else {
        return Ok(None);
    };
    let arrived = to.receive(alloc, &room[..count], 0)?;
    println!(rt; "host: {count} bytes, {arrived:?}")?;
    Ok(Some(arrived))
}

/// A message of three bytes.
fn message(alloc: Global) -> Result<Message, AllocError> {
    let body = vec![in alloc; b'a'; 3]?;
    Ok(Message { stream: 0, body })
}

/// Takes what arrived over a connection, and prints the message that it completes.
fn take(rt: &impl Print, alloc: Global, host: &mut Endpoint, id: u16) -> Result<()> {
    if let Taken::Whole(message) = host.take(alloc, id)? {
        let bytes = message.body.len();
        println!(rt; "host: takes a message of {bytes} bytes")?;
    }
    Ok(())
}

/// One side asks the other for a connection. The result is the connection's id at each.
fn connect(
    rt: &impl Print,
    alloc: Global,
    caller: &mut Endpoint,
    called: &mut Endpoint,
) -> Result<Option<(u16, u16)>> {
    let to = Address {
        network: NETWORK,
        node: node(4),
        socket: Socket(0x4000),
    };
    called.listen(alloc, to.socket, BUFFERS)?;
    let id = caller.dial(alloc, Socket(0x5000), to, BUFFERS, 0)?;
    let Some(Arrived::Accepted(accepted)) = pass(rt, alloc, caller, called)? else {
        return Ok(None);
    };
    pass(rt, alloc, called, caller)?;
    Ok(Some((id, accepted)))
}

/// Connects two hosts, and passes a message from the one that asks.
fn talk(
    rt: &impl Print,
    alloc: Global,
    caller: &mut Endpoint,
    called: &mut Endpoint,
) -> Result<()> {
    let Some((id, accepted)) = connect(rt, alloc, caller, called)? else {
        return Ok(());
    };
    caller.send(alloc, id, &message(alloc)?)?;
    pass(rt, alloc, caller, called)?;
    take(rt, alloc, called, accepted)
}

/// One host asks for a connection and the other accepts it. Then a message is sent, and taken.
pub fn pass_a_message(rt: &impl Print, alloc: Global) -> Result<()> {
    let mut caller = host(alloc, 3);
    let mut called = host(alloc, 4);
    talk(rt, alloc, &mut caller, &mut called)
}
