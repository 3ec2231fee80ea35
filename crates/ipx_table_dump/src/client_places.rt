//! The addresses of a router's ipxnet clients, as text.

ghost use Rattle.std.specs.Prelude.{◌≡◌, ◌++◌, IfOk, OnOk, string_bytes};
ghost use Rattle.std.specs.List.{flat_map};
ghost use Rattle.ipx_table_dump.specs.ClientsText.{client_line, clients_text};

use crate::words::{put_head, put_network};
use ipx_wire::Network;
use std::alloc::{AllocError, Global};
use std::net::SocketAddrV4;

/// How many clients a text lists at most.
pub const MAX_CLIENT_PLACES: usize = 1024;

/// The address of an ipxnet client, and the network of its port.
#[derive(Clone, Copy, Debug, PartialEq, Eq)]
pub struct ClientPlace {
    pub network: Network,
    pub place: SocketAddrV4,
}

fn put_client(text: &mut String, client: &ClientPlace) -> Result<(), AllocError>
    ensures { OnOk result
        (string_bytes text.new ≡ string_bytes text.old ++ client_line client.now) }
{
    text.push_str("client ")?;
    put_network(text, client.network)?;
    let place = client.place;
    write!(text, " {place}\n")
}

fn put_clients(text: &mut String, clients: &[ClientPlace]) -> Result<(), AllocError>
    ensures { OnOk result
        (string_bytes text.new ≡ string_bytes text.old ++ flat_map client_line clients.now) }
{
    for client in clients {
        put_client(text, client)?;
    }
    Ok(())
}

/// The text of these clients: a line for each, and one with their number. It has at most 65,000
/// bytes if there are at most `MAX_CLIENT_PLACES`.
pub fn clients_to_text(alloc: Global, clients: &[ClientPlace]) -> Result<String, AllocError>
    ensures { IfOk result (λ t. string_bytes t ≡ clients_text clients.now) }
{
    let mut text = String::new(alloc);
    put_clients(&mut text, clients)?;
    put_head(&mut text, "end", clients.len())?;
    Ok(text)
}
