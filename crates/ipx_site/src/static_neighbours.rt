//! The neighbours that advertise the static entries.

ghost use Rattle.std.specs.Prelude.{◌≡◌, ℕ, [], All, IfOk, OnOk};
ghost use Rattle.std.specs.List.{AllZip, filter_map, list_any};
ghost use Rattle.ipx_router.specs.Ports.{IsPortNumber};
ghost use Rattle.ipx_config.specs.StaticLists.{is_one_source, named_sources, route_by, service_by, with_source};
ghost use Rattle.ipx_site.specs.StaticNeighbours.{AreStaticNeighbours, IsStaticNeighbour};

use ipx_config::{StaticEntry, is_one_source};
use ipx_control::{RipEntry, ServiceEntry};
use ipx_static::StaticNeighbour;
use ipx_tables::Source;
use std::alloc::{AllocError, Global};

/// Whether a source is one of these.
fn is_known(known: &[Source], by: Source) -> bool
    ensures { result ≡ list_any (λ s. is_one_source s by) known.now }
{
    known.iter().any(|other| is_one_source(*other, by))
}

/// Adds a source, unless it is already there.
fn add_source(sources: &mut Vec<Source>, by: Source) -> Result<(), AllocError>
    ensures { OnOk result (sources.new.items ≡ with_source sources.old.items by) }
{
    if is_known(sources, by) {
        return Ok(());
    }
    sources.push(by)?;
    Ok(())
}

/// The sources of entries, each once.
fn sources_of(alloc: Global, entries: &[StaticEntry]) -> Result<Vec<Source>, AllocError>
    ensures { IfOk result (λ v. v.items ≡ named_sources [] entries.now) }
{
    let mut sources = Vec::new(alloc);
    for entry in entries {
        add_source(&mut sources, entry.by)?;
    }
    Ok(sources)
}

/// The routes that a neighbour is to advertise.
fn routes_by(
    alloc: Global,
    entries: &[StaticEntry],
    by: Source,
) -> Result<Vec<RipEntry>, AllocError>
    ensures { IfOk result (λ v. v.items ≡ filter_map (route_by by) entries.now) }
{
    entries
        .iter()
        .filter_map(|entry| entry.route_by(by))
        .collect(alloc)
}

/// The services that a neighbour is to advertise.
fn services_by(
    alloc: Global,
    entries: &[StaticEntry],
    by: Source,
) -> Result<Vec<ServiceEntry>, AllocError>
    ensures { IfOk result (λ v. v.items ≡ filter_map (service_by by) entries.now) }
{
    entries
        .iter()
        .filter_map(|entry| entry.service_by(by))
        .collect(alloc)
}

/// A neighbour, and the static entries that count as its advertisements.
fn neighbour_by(
    alloc: Global,
    entries: &[StaticEntry],
    by: Source,
) -> Result<StaticNeighbour, AllocError>
    ensures { IfOk result (IsStaticNeighbour entries.now by) }
{
    let routes = routes_by(alloc, entries, by)?;
    let services = services_by(alloc, entries, by)?;
    Ok(StaticNeighbour {
        port: by.port,
        node: by.neighbour,
        routes,
        services,
    })
}

/// The neighbour of each source.
fn neighbours_by(
    alloc: Global,
    entries: &[StaticEntry],
    sources: &[Source],
) -> Result<Vec<StaticNeighbour>, AllocError>
    ensures { IfOk result (λ v. AllZip (IsStaticNeighbour entries.now) sources.now v.items) }
{
    let mut neighbours = Vec::new(alloc);
    for by in sources {
        let neighbour = neighbour_by(alloc, entries, *by)?;
        neighbours.push(neighbour)?;
    }
    Ok(neighbours)
}

/// The neighbours of the static entries, each once, with the entries that count as its
/// advertisements.
pub fn static_neighbours_of(
    alloc: Global,
    entries: &[StaticEntry],
) -> Result<Vec<StaticNeighbour>, AllocError>
    ensures neighbours { IfOk result (λ v. AreStaticNeighbours entries.now v.items) }
    // If the ports of the entries exist, so do those of the neighbours.
    ensures there { (count : ℕ) → All (λ e. IsPortNumber count e.by.port) entries.now
        → IfOk result (λ v. All (λ n. IsPortNumber count n.port) v.items) }
{
    let sources = sources_of(alloc, entries)?;
    let neighbours = neighbours_by(alloc, entries, &sources)?;
    Ok(neighbours)
}
