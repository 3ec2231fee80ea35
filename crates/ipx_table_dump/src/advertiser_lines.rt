//! The lines of neighbours.

ghost use Rattle.std.specs.Prelude.{◌≡◌, ◌++◌, OnOk, string_bytes};
ghost use Rattle.std.specs.List.{flat_map};
ghost use Rattle.ipx_table_dump.specs.TableText.{advertiser_line, advertiser_lines};

use crate::advertisers::Advertiser;
use crate::words::{put_head, put_heard, put_hex, seconds_since};
use ipx_tables::Source;
use std::alloc::AllocError;
use std::collections::BTreeMap;

fn put_advertiser(
    text: &mut String,
    now: u64,
    source: Source,
    teller: Advertiser,
) -> Result<(), AllocError>
    ensures { OnOk result
        (string_bytes text.new ≡ string_bytes text.old ++ advertiser_line now (source, teller)) }
{
    let port = source.port;
    write!(text, "port {port} ")?;
    put_hex(text, &source.neighbour.0)?;
    let networks = teller.networks;
    let services = teller.services;
    write!(text, " networks {networks} services {services}")?;
    put_heard(text, true, seconds_since(now, teller.heard))
}

/// The lines of neighbours, by port and node.
fn put_neighbours(
    text: &mut String,
    now: u64,
    advertisers: &BTreeMap<Source, Advertiser>,
) -> Result<(), AllocError>
    ensures { OnOk result (string_bytes text.new
        ≡ string_bytes text.old ++ flat_map (advertiser_line now) advertisers.now.entries) }
{
    for (source, teller) in advertisers {
        put_advertiser(text, now, *source, *teller)?;
    }
    Ok(())
}

/// Appends the section of neighbours to a text.
pub fn put_advertisers(
    text: &mut String,
    now: u64,
    advertisers: &BTreeMap<Source, Advertiser>,
) -> Result<(), AllocError>
    ensures { OnOk result (string_bytes text.new
        ≡ string_bytes text.old ++ advertiser_lines now advertisers.now.entries) }
{
    put_head(text, "neighbours", advertisers.len())?;
    put_neighbours(text, now, advertisers)
}
