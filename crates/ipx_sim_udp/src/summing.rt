//! The lines at the end of a script over sockets.

ghost use Rattle.std.specs.Prelude.{◌≡◌, OnOk, map, string_bytes};
ghost use Rattle.std.specs.Io.KnownBytes.{Appends};
ghost use Rattle.ipx_sim_udp.specs.Ending.{udp_end_line, end_lines, info_of};

use crate::layout_binding::{End, UdpNet};
use ipx_net::EndInfo;
use ipx_sim::{write_counts, write_present};
use std::io::{Result as Written, Write};

/// What is printed of an end.
fn info_of(site: &UdpNet, end: End) -> EndInfo
    ensures { result ≡ info_of site.now end }
{
    EndInfo {
        host: end.host,
        state: site.state(end),
        given: end.given,
        out: end.out,
        next: site.next(end),
        peer: None,
    }
}

fn write_end<W: Write>(writer: &mut W, names: &[String], who: usize, info: EndInfo) -> Written<()>
    ensures { OnOk result (Appends (W.contents writer.old) (W.contents writer.new)
        (udp_end_line (map string_bytes names.now) who info)) }
{
    write_present(writer, names, who, info)?;
    write_counts(writer, info)?;
    writer.write_all(b"\n")
}

/// Writes a line for each end: its host, its state, how many messages went in and out, and its next
/// number. The names are those of the hosts, in order.
pub fn write_ends<W: Write>(writer: &mut W, site: &UdpNet, names: &[String]) -> Written<()>
    ensures { OnOk result (Appends (W.contents writer.old) (W.contents writer.new)
        (end_lines site.now (map string_bytes names.now) 0 site.now.ends.items)) }
{
    let ends = site.ends();
    for who in 0..ends.len() {
        write_end(writer, names, who, info_of(site, ends[who]))?;
    }
    Ok(())
}
