//! Reading back the text of a table file.

ghost use Rattle.std.specs.Prelude.{◌≡◌, IfOk, map, option_map};
ghost use Rattle.std.specs.List.{filter_map};
ghost use Rattle.std.specs.Str.{bytes_eq};
ghost use Rattle.ipx_table_dump.specs.TableRead.{lines_in, best_network_in, network_spelled, networks_read, parts_view, best_service_in, service_spelled, services_read, words_in};

use std::alloc::{AllocError, Global};

/// The best offer of a network, in the words of its line: hex digits, or decimal digits.
#[derive(Clone, Copy)]
pub struct NetworkWords<'a> {
    pub network: &'a [u8],
    /// The port where it was heard, and the neighbour.
    pub port: &'a [u8],
    pub next: &'a [u8],
    pub hops: &'a [u8],
    pub ticks: &'a [u8],
}

/// The best offer of a service, in the same form. Its name is as `ipx show` prints it.
#[derive(Clone, Copy)]
pub struct ServiceWords<'a> {
    pub kind: &'a [u8],
    pub name: &'a [u8],
    /// Its address.
    pub network: &'a [u8],
    pub node: &'a [u8],
    pub socket: &'a [u8],
    /// The port where it was heard, and the neighbour.
    pub port: &'a [u8],
    pub next: &'a [u8],
    pub hops: &'a [u8],
}

/// Whether a word is this one.
pub(crate) fn is_word(word: &[u8], known: &[u8]) -> bool
    ensures { result ≡ bytes_eq word.now known.now }
{
    word == known
}

/// The lines of a text.
pub(crate) fn lines_of<'a>(alloc: Global, text: &'a [u8]) -> Result<Vec<&'a [u8]>, AllocError>
    ensures { IfOk result (λ v. parts_view v.items ≡ lines_in text.now) }
{
    text.split(|byte| *byte == b'\n').collect(alloc)
}

/// The words of a line.
pub(crate) fn words_of<'a>(alloc: Global, line: &'a [u8]) -> Result<Vec<&'a [u8]>, AllocError>
    ensures { IfOk result (λ v. parts_view v.items ≡ words_in line.now) }
{
    line.split(|byte| *byte == b' ').collect(alloc)
}

/// The best offer of a network that the words of a line give.
fn best_network_in<'a>(words: &[&'a [u8]]) -> Option<NetworkWords<'a>>
    ensures { option_map network_spelled result ≡ best_network_in (parts_view words.now) }
{
    let [
        network,
        by,
        port,
        to,
        next,
        far,
        hops,
        cost,
        ticks,
        ago,
        _seconds,
    ] = words
    else {
        return None;
    };
    if !is_word(by, b"port") || !is_word(to, b"next") || !is_word(far, b"hops") {
        return None;
    }
    if !is_word(cost, b"ticks") || !is_word(ago, b"heard") {
        return None;
    }
    Some(NetworkWords {
        network: *network,
        port: *port,
        next: *next,
        hops: *hops,
        ticks: *ticks,
    })
}

/// The networks that lines give.
fn networks_in_lines<'a>(
    alloc: Global,
    lines: &[&'a [u8]],
) -> Result<Vec<NetworkWords<'a>>, AllocError>
    ensures { IfOk result (λ v. map network_spelled v.items
        ≡ filter_map (λ line. best_network_in (words_in line)) (parts_view lines.now)) }
{
    let mut networks = Vec::new(alloc);
    for line in lines {
        let words = words_of(alloc, line)?;
        match best_network_in(&words) {
            Some(network) => networks.push(network)?,
            None => {}
        }
    }
    Ok(networks)
}

/// The networks that a text gives, each with its best offer, in the order of the text. Lines of
/// another form are skipped.
pub fn networks_of_text<'a>(
    alloc: Global,
    text: &'a [u8],
) -> Result<Vec<NetworkWords<'a>>, AllocError>
    ensures { IfOk result (λ v. map network_spelled v.items ≡ networks_read text.now) }
{
    let lines = lines_of(alloc, text)?;
    networks_in_lines(alloc, &lines)
}

/// The best offer of a service that the words of a line give.
fn best_service_in<'a>(words: &[&'a [u8]]) -> Option<ServiceWords<'a>>
    ensures { option_map service_spelled result ≡ best_service_in (parts_view words.now) }
{
    let [
        kind,
        name,
        at,
        network,
        node,
        socket,
        by,
        port,
        to,
        next,
        far,
        hops,
        ago,
        _seconds,
    ] = words
    else {
        return None;
    };
    if !is_word(at, b"at") || !is_word(by, b"port") || !is_word(to, b"next") {
        return None;
    }
    if !is_word(far, b"hops") || !is_word(ago, b"heard") {
        return None;
    }
    Some(ServiceWords {
        kind: *kind,
        name: *name,
        network: *network,
        node: *node,
        socket: *socket,
        port: *port,
        next: *next,
        hops: *hops,
    })
}

/// The services that lines give.
fn services_in_lines<'a>(
    alloc: Global,
    lines: &[&'a [u8]],
) -> Result<Vec<ServiceWords<'a>>, AllocError>
    ensures { IfOk result (λ v. map service_spelled v.items
        ≡ filter_map (λ line. best_service_in (words_in line)) (parts_view lines.now)) }
{
    let mut services = Vec::new(alloc);
    for line in lines {
        let words = words_of(alloc, line)?;
        match best_service_in(&words) {
            Some(service) => services.push(service)?,
            None => {}
        }
    }
    Ok(services)
}

/// The services that a text gives, each with its best offer, in the order of the text. Lines of
/// another form are skipped.
pub fn services_of_text<'a>(
    alloc: Global,
    text: &'a [u8],
) -> Result<Vec<ServiceWords<'a>>, AllocError>
    ensures { IfOk result (λ v. map service_spelled v.items ≡ services_read text.now) }
{
    let lines = lines_of(alloc, text)?;
    services_in_lines(alloc, &lines)
}
