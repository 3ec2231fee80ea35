//! Reading back the text of a router's ipxnet clients.

ghost use Rattle.std.specs.Prelude.{◌≡◌, ◌≤◌, All, IfOk, IfSome, List, MatchOption, Some, length, map, option_map};
ghost use Rattle.std.specs.List.{filter_map};
ghost use Rattle.std.specs.Str.{bytes_eq};
ghost use Rattle.std.specs.Net.Socket.{IsSocketAddrV4};
ghost use Rattle.std.specs.Net.Text.{socket_v4_text};
ghost use Rattle.ipx_table_dump.specs.ClientsText.{IsClientPlace, IsClientsText, client_in_words, client_spelled, client_words_in, clients_spelled};
ghost use Rattle.ipx_table_dump.specs.TableRead.{parts_view, words_in};
ghost use Rattle.ipx_table_dump.specs.declared.client_places.ClientPlace.{ClientPlace};
ghost use Rattle.std.specs.declared.net.socket_addr.SocketAddrV4.{SocketAddrV4};

use crate::client_places::{ClientPlace, MAX_CLIENT_PLACES, clients_to_text};
use crate::reading::{is_word, lines_of, words_of};
use ipx_wire::Network;
use std::alloc::{AllocError, Global};
use std::net::SocketAddrV4;

/// A client, in the words of its line.
#[derive(Clone, Copy)]
pub struct ClientWords<'a> {
    pub network: &'a [u8],
    pub place: &'a [u8],
}

/// The client that the words of a line give.
fn client_words_in<'a>(words: &[&'a [u8]]) -> Option<ClientWords<'a>>
    ensures { option_map client_spelled result ≡ client_words_in (parts_view words.now) }
{
    let [title, network, place] = words else {
        return None;
    };
    if !is_word(title, b"client") {
        return None;
    }
    Some(ClientWords {
        network: *network,
        place: *place,
    })
}

/// The clients that lines give, in words.
fn clients_in_lines<'a>(
    alloc: Global,
    lines: &[&'a [u8]],
) -> Result<Vec<ClientWords<'a>>, AllocError>
    ensures { IfOk result (λ v. map client_spelled v.items
        ≡ filter_map (λ line. client_words_in (words_in line)) (parts_view lines.now)) }
{
    let mut clients = Vec::new(alloc);
    for line in lines {
        let words = words_of(alloc, line)?;
        match client_words_in(&words) {
            Some(client) => clients.push(client)?,
            None => {}
        }
    }
    Ok(clients)
}

/// The address that a word is.
fn place_in(word: &[u8]) -> Option<SocketAddrV4>
    ensures { (a : SocketAddrV4) → IsSocketAddrV4 a → word.now ≡ socket_v4_text a
        → result ≡ Some a }
{
    match SocketAddrV4::parse_ascii(word) {
        Ok(place) => Some(place),
        Err(_) => None,
    }
}

/// The client that words give.
fn client_in(words: &ClientWords<'_>) -> Option<ClientPlace>
    ensures { (c : ClientPlace) → IsClientPlace c → client_spelled words.now ≡ client_in_words c
        → result ≡ Some c }
{
    let network = Network::from_hex(words.network)?;
    let place = place_in(words.place)?;
    Some(ClientPlace { network, place })
}

/// The clients that words give. Others are skipped.
fn clients_in(alloc: Global, all: &[ClientWords<'_>]) -> Result<Vec<ClientPlace>, AllocError>
    ensures { IfOk result (λ v. (cs : List ClientPlace) → All IsClientPlace cs
        → map client_spelled all.now ≡ map client_in_words cs → v.items ≡ cs) }
{
    let mut clients = Vec::new(alloc);
    for words in all {
        match client_in(words) {
            Some(client) => clients.push(client)?,
            None => {}
        }
    }
    Ok(clients)
}

/// The clients that a text may list.
fn clients_spelled_in(alloc: Global, text: &[u8]) -> Result<Vec<ClientPlace>, AllocError>
    ensures { IfOk result (λ v. (cs : List ClientPlace) → All IsClientPlace cs
        → clients_spelled text.now ≡ map client_in_words cs → v.items ≡ cs) }
{
    let lines = lines_of(alloc, text)?;
    let words = clients_in_lines(alloc, &lines)?;
    clients_in(alloc, &words)
}

/// The clients that a text lists, in its order. None if the text is not exactly what
/// `clients_to_text` makes of some, at most 1,024: if it was cut, or was never such a text.
pub fn clients_of_text(alloc: Global, text: &[u8]) -> Result<Option<Vec<ClientPlace>>, AllocError>
    ensures only { IfOk result (λ found. IfSome found (λ v. IsClientsText v.items text.now)) }
    ensures back { IfOk result (λ found. (cs : List ClientPlace) → All IsClientPlace cs
        → IsClientsText cs text.now → MatchOption found ⊥ (λ v. v.items ≡ cs)) }
{
    let clients = clients_spelled_in(alloc, text)?;
    let again = clients_to_text(alloc, &clients)?;
    if clients.len() > MAX_CLIENT_PLACES || again.as_bytes() != text {
        return Ok(None);
    }
    Ok(Some(clients))
}
