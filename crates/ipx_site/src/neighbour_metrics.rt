//! Prometheus metrics of what each neighbour of a router advertises.

ghost use Rattle.std.specs.Prelude.{◌≡◌, ◌++◌, List, OnOk, string_bytes};
ghost use Rattle.ipx_table_dump.specs.FirstAdvertisers.{AreFirstAdvertisers};
ghost use Rattle.ipx_table_dump.specs.declared.advertisers.Advertiser.{Advertiser};
ghost use Rattle.ipx_tables.specs.declared.source.Source.{Source};
ghost use Rattle.ipx_site.specs.MetricsText.{families_text, family_lines, sample_line};
ghost use Rattle.ipx_site.specs.NeighbourFamilies.{figure_of, neighbour_families, neighbour_sample, neighbour_samples};

use crate::family::{Family, put_family};
use ipx_router::Router;
use ipx_table_dump::{Advertiser, first_advertisers};
use ipx_tables::Source;
use std::alloc::{AllocError, Global};

const NETWORKS: Family = Family {
    name: "ipx_neighbour_networks",
    help: "Networks learned from a neighbour that are still valid",
    kind: "gauge",
};

const SERVICES: Family = Family {
    name: "ipx_neighbour_services",
    help: "Services learned from a neighbour that are still valid",
    kind: "gauge",
};

const HEARD: Family = Family {
    name: "ipx_neighbour_last_heard_seconds",
    help: "Seconds since the neighbour last advertised a network or service",
    kind: "gauge",
};

/// What is written of a neighbour.
#[derive(Clone, Copy, PartialEq, Eq)]
pub enum NeighbourMetric {
    Networks,
    Services,
    /// How long ago it was heard last, at this time in milliseconds.
    Heard(u64),
}

fn metric_of_neighbour(teller: &Advertiser, metric: NeighbourMetric) -> u64
    ensures { result ≡ figure_of metric teller.now }
{
    match metric {
        NeighbourMetric::Networks => teller.networks as u64,
        NeighbourMetric::Services => teller.services as u64,
        NeighbourMetric::Heard(now) => now.saturating_sub(teller.heard) / 1000,
    }
}

/// Writes a metric of a neighbour, by its port and its node.
fn put_figure(
    text: &mut String,
    alloc: Global,
    family: &Family,
    source: &Source,
    figure: u64,
) -> Result<(), AllocError>
    ensures { OnOk result (string_bytes text.new ≡ string_bytes text.old
        ++ sample_line family.now.name.now (neighbour_sample source.now figure)) }
{
    let name = family.name;
    let port = source.port;
    let node = hex::encode(alloc, source.neighbour.0)?;
    write!(text, "{name}{{port=\"{port}\",node=\"{node}\"}} {figure}\n")
}

/// Writes a metric of each of these neighbours.
fn put_neighbour_metric(
    text: &mut String,
    alloc: Global,
    family: &Family,
    advertisers: &[(Source, Advertiser)],
    metric: NeighbourMetric,
) -> Result<(), AllocError>
    ensures { OnOk result (string_bytes text.new ≡ string_bytes text.old
        ++ family_lines (record {
          name = family.now.name.now;
          help = family.now.help.now;
          kind = family.now.kind.now;
          samples = neighbour_samples metric advertisers.now;
        })) }
{
    put_family(text, family)?;
    for (source, teller) in advertisers {
        let figure = metric_of_neighbour(teller, metric);
        put_figure(text, alloc, family, source, figure)?;
    }
    Ok(())
}

/// Writes how much each of these neighbours advertises.
fn put_neighbours(
    text: &mut String,
    alloc: Global,
    advertisers: &[(Source, Advertiser)],
    now: u64,
) -> Result<(), AllocError>
    ensures { OnOk result (string_bytes text.new
        ≡ string_bytes text.old ++ families_text (neighbour_families now advertisers.now)) }
{
    put_neighbour_metric(
        text,
        alloc,
        &NETWORKS,
        advertisers,
        NeighbourMetric::Networks,
    )?;
    put_neighbour_metric(
        text,
        alloc,
        &SERVICES,
        advertisers,
        NeighbourMetric::Services,
    )?;
    put_neighbour_metric(
        text,
        alloc,
        &HEARD,
        advertisers,
        NeighbourMetric::Heard(now),
    )
}

/// Writes how much each neighbour advertises that counts at `now`, for the first 256 neighbours by
/// port and node.
pub fn put_neighbour_metrics(
    text: &mut String,
    alloc: Global,
    router: &Router,
    now: u64,
) -> Result<(), AllocError>
    ensures { OnOk result ((listed : List (Source × Advertiser))
        × AreFirstAdvertisers router.now.routes router.now.services now listed
        × (string_bytes text.new
        ≡ string_bytes text.old ++ families_text (neighbour_families now listed))) }
{
    let advertisers = first_advertisers(alloc, router.routes(), router.services(), now)?;
    put_neighbours(text, alloc, &advertisers, now)
}
