//! The values of the keys of a static route or service.

ghost use Rattle.std.specs.Prelude.{◌≡◌, ◌≤◌, IfOk, length};
ghost use Rattle.std.specs.List.{list_all};
ghost use Rattle.toml.specs.View.{view};
ghost use Rattle.ipx_table_dump.specs.TableRead.{parts_view, words_in};
ghost use Rattle.ipx_config.specs.Fields.{Reads};
ghost use Rattle.ipx_config.specs.StaticFields.{IsServiceName, is_mark, is_name_of_service, is_place_of_service, padded_name, place_in_words, written_place};
ghost use Rattle.ipx_config.specs.Values.{IsCount};

use crate::ethernet_values::is_station;
use ipx_wire::{Address, Network, Node, OutOfMemory, Socket};
use std::alloc::{AllocError, Global};
use toml::Value;

/// The most ports of a router.
const MAX_PORTS: u8 = 16;

/// The longest name of a service.
const MAX_NAME: usize = 47;

/// The port number that a value gives, starting at 1.
pub fn port_number_of(value: &Value) -> Option<u8>
    ensures { Reads (IsCount 16) (view value.now) result }
{
    let number = u8::try_from(value.as_integer()?).ok()?;
    if number == 0 || number > MAX_PORTS {
        return None;
    }
    Some(number)
}

/// Whether a byte is printable, and no space.
fn is_mark(byte: u8) -> bool
    ensures { result ≡ is_mark byte }
{
    byte >= 0x21 && byte <= 0x7e
}

fn are_marks(text: &[u8]) -> bool
    ensures { result ≡ list_all is_mark text.now }
{
    text.iter().all(|byte| is_mark(*byte))
}

/// Whether a text is a name of a service.
fn is_name(text: &[u8]) -> bool
    ensures { result ≡ is_name_of_service text.now }
{
    are_marks(text) && !text.is_empty() && text.len() <= MAX_NAME
}

/// The 48 bytes of a name.
fn padded(text: &[u8]) -> [u8; 48]
    requires { length text.now ≤ 48 }
    ensures { result ≡ padded_name text.now }
{
    let mut name = [0; 48];
    name[..text.len()].copy_from_slice(text);
    name
}

/// The name of a service that a value gives.
pub fn service_name_of(value: &Value) -> Option<[u8; 48]>
    ensures { Reads IsServiceName (view value.now) result }
{
    let text = value.as_str()?.as_bytes();
    if is_name(text) {
        Some(padded(text))
    } else {
        None
    }
}

/// Whether a service can have this address: its network is named, its node is one station, and its
/// socket is not 0.
pub fn is_place_of_service(at: Address) -> bool
    ensures { result ≡ is_place_of_service at }
{
    at.network != Network::LOCAL
        && at.network != Network::ALL
        && is_station(at.node)
        && at.socket.0 != 0
}

/// The words of a text, separated by single spaces.
fn words_of<'a>(alloc: Global, text: &'a [u8]) -> Result<Vec<&'a [u8]>, AllocError>
    ensures { IfOk result (λ v. parts_view v.items ≡ words_in text.now) }
{
    text.split(|byte| *byte == b' ').collect(alloc)
}

/// The address that three words give.
fn place_in_words(words: &[&[u8]]) -> Option<Address>
    ensures { result ≡ place_in_words (parts_view words.now) }
{
    let [network, node, socket] = words else {
        return None;
    };
    Some(Address {
        network: Network::from_hex(network)?,
        node: Node::from_hex(node)?,
        socket: Socket::from_hex(socket)?,
    })
}

/// The address that a text gives.
fn place_in_text(alloc: Global, text: &[u8]) -> Result<Option<Address>, OutOfMemory>
    ensures { IfOk result (λ found. found ≡ place_in_words (words_in text.now)) }
{
    let words = words_of(alloc, text)?;
    Ok(place_in_words(&words))
}

/// The address that a value gives: a network, a node and a socket.
pub fn written_place(alloc: Global, value: &Value) -> Result<Option<Address>, OutOfMemory>
    ensures { IfOk result (λ found. found ≡ written_place (view value.now)) }
{
    match value.as_str() {
        Some(text) => place_in_text(alloc, text.as_bytes()),
        None => Ok(None),
    }
}
