//! The networks of a router's own ports, read back from the text of a table file.

ghost use Rattle.std.specs.Prelude.{◌≡◌, IfOk, map, option_map};
ghost use Rattle.std.specs.List.{filter_map};
ghost use Rattle.ipx_table_dump.specs.TableRead.{parts_view, words_in};
ghost use Rattle.ipx_table_dump.specs.TableParts.{port_network_in, own_networks_read, own_spelled};

use crate::reading::{is_word, lines_of, words_of};
use std::alloc::{AllocError, Global};

/// The network of a port, in the words of its line: hex digits, or decimal digits.
#[derive(Clone, Copy)]
pub struct OwnWords<'a> {
    pub network: &'a [u8],
    pub port: &'a [u8],
    pub cost: &'a [u8],
}

/// The network of a port that the words of a line give.
fn port_network_in<'a>(words: &[&'a [u8]]) -> Option<OwnWords<'a>>
    ensures { option_map own_spelled result ≡ port_network_in (parts_view words.now) }
{
    let [network, whose, by, port, far, cost] = words else {
        return None;
    };
    if !is_word(whose, b"own") || !is_word(by, b"port") || !is_word(far, b"cost") {
        return None;
    }
    Some(OwnWords {
        network: *network,
        port: *port,
        cost: *cost,
    })
}

/// The networks of ports that lines give.
fn own_networks_in_lines<'a>(
    alloc: Global,
    lines: &[&'a [u8]],
) -> Result<Vec<OwnWords<'a>>, AllocError>
    ensures { IfOk result (λ v. map own_spelled v.items
        ≡ filter_map (λ line. port_network_in (words_in line)) (parts_view lines.now)) }
{
    let mut networks = Vec::new(alloc);
    for line in lines {
        let words = words_of(alloc, line)?;
        match port_network_in(&words) {
            Some(network) => networks.push(network)?,
            None => {}
        }
    }
    Ok(networks)
}

/// The networks of ports that a text gives, in the order of the text. Lines of another form are
/// skipped.
pub fn own_networks_of_text<'a>(
    alloc: Global,
    text: &'a [u8],
) -> Result<Vec<OwnWords<'a>>, AllocError>
    ensures { IfOk result (λ v. map own_spelled v.items ≡ own_networks_read text.now) }
{
    let lines = lines_of(alloc, text)?;
    own_networks_in_lines(alloc, &lines)
}
