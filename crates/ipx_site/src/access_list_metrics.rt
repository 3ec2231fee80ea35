//! Prometheus metrics of the datagrams that access lists dropped at a router's ports.

ghost use Rattle.std.specs.Prelude.{◌≡◌, ◌++◌, IfOk, OnErr, OnOk, is_some, option_map, string_bytes};
ghost use Rattle.std.specs.List.{flat_map};
ghost use Rattle.ipx_site.specs.MetricsText.{families_text, family_lines, sample_line};
ghost use Rattle.ipx_site.specs.AccessListMetrics.{access_list_count, access_list_families, access_list_samples, at_port_if, drops_at_port_index, is_any_guarded, refused_family, unknown_senders_family};

use crate::family::{Family, put_family, put_of_port};
use crate::router_ports::PortIndex;
use ipx_sockets::PortFilterDrops;
use std::alloc::{AllocError, Global};

const UNKNOWN_SENDERS: Family = Family {
    name: "ipx_port_unknown_senders_total",
    help: "Datagrams from unknown senders, by port",
    kind: "counter",
};

const REFUSED: Family = Family {
    name: "ipx_port_egress_filtered_total",
    help: "Datagrams not sent because the destination is not a peer, by port",
    kind: "counter",
};

/// What the access list of a port counts.
#[derive(Clone, Copy)]
pub enum FilterDropKind {
    UnknownSenders,
    Refused,
}

/// What the access list of a port dropped, or None if the port has no access list.
fn filtered_at(port_index: PortIndex, kept: &[PortFilterDrops]) -> Option<PortFilterDrops>
    ensures { result ≡ drops_at_port_index kept.now port_index }
{
    match port_index {
        PortIndex::Datagrams(place) => kept.get(place).copied(),
        PortIndex::Ethernet(_) | PortIndex::IpxnetServer(_) => None,
    }
}

fn is_guarded(port_index: PortIndex, kept: &[PortFilterDrops]) -> bool
    ensures { result ≡ is_some (drops_at_port_index kept.now port_index) }
{
    filtered_at(port_index, kept).is_some()
}

/// Whether any port has an access list.
fn is_any_guarded(port_indices: &[PortIndex], kept: &[PortFilterDrops]) -> bool
    ensures { result ≡ is_any_guarded port_indices.now kept.now }
{
    port_indices
        .iter()
        .any(|port_index| is_guarded(*port_index, kept))
}

fn count_of(kept: PortFilterDrops, count: FilterDropKind) -> u64
    ensures { result ≡ access_list_count count kept }
{
    match count {
        FilterDropKind::UnknownSenders => kept.unknown_senders,
        FilterDropKind::Refused => kept.refused,
    }
}

/// One count of a port, or None if the port has no access list.
fn count_at(port_index: PortIndex, kept: &[PortFilterDrops], count: FilterDropKind) -> Option<u64>
    ensures { result ≡ option_map (access_list_count count) (drops_at_port_index kept.now port_index) }
{
    match filtered_at(port_index, kept) {
        Some(here) => Some(count_of(here, count)),
        None => None,
    }
}

/// Writes the metric of the port with this number, if there is a count.
fn put_count(
    text: &mut String,
    family: &Family,
    number: usize,
    count: Option<u64>,
) -> Result<(), AllocError>
    ensures { OnOk result (string_bytes text.new
        ≡ string_bytes text.old ++ flat_map (sample_line family.now.name.now) (at_port_if number count)) }
{
    match count {
        Some(count) => put_of_port(text, family, number, count),
        None => Ok(()),
    }
}

/// Writes the metric of each port that has an access list, with its number among all ports.
fn put_counts(
    text: &mut String,
    family: &Family,
    count: FilterDropKind,
    port_indices: &[PortIndex],
    kept: &[PortFilterDrops],
) -> Result<(), AllocError>
    ensures { OnOk result (string_bytes text.new
        ≡ string_bytes text.old ++ flat_map (sample_line family.now.name.now)
        (access_list_samples count port_indices.now kept.now)) }
{
    for (place, port_index) in port_indices.iter().enumerate() {
        let here = count_at(*port_index, kept, count);
        put_count(text, family, place + 1, here)?;
    }
    Ok(())
}

fn put_unknown_senders(
    text: &mut String,
    port_indices: &[PortIndex],
    kept: &[PortFilterDrops],
) -> Result<(), AllocError>
    ensures { OnOk result (string_bytes text.new
        ≡ string_bytes text.old ++ family_lines (unknown_senders_family port_indices.now kept.now)) }
{
    put_family(text, &UNKNOWN_SENDERS)?;
    put_counts(
        text,
        &UNKNOWN_SENDERS,
        FilterDropKind::UnknownSenders,
        port_indices,
        kept,
    )
}

fn put_refused(
    text: &mut String,
    port_indices: &[PortIndex],
    kept: &[PortFilterDrops],
) -> Result<(), AllocError>
    ensures { OnOk result (string_bytes text.new
        ≡ string_bytes text.old ++ family_lines (refused_family port_indices.now kept.now)) }
{
    put_family(text, &REFUSED)?;
    put_counts(text, &REFUSED, FilterDropKind::Refused, port_indices, kept)
}

/// The metrics of a router's access lists, as text. It is empty if no port has an access list.
fn access_lists_to_text(
    alloc: Global,
    port_indices: &[PortIndex],
    kept: &[PortFilterDrops],
) -> Result<String, AllocError>
    ensures { IfOk result (λ t. string_bytes t ≡ families_text (access_list_families port_indices.now kept.now)) }
{
    let mut text = String::new(alloc);
    if !is_any_guarded(port_indices, kept) {
        return Ok(text);
    }
    put_unknown_senders(&mut text, port_indices, kept)?;
    put_refused(&mut text, port_indices, kept)?;
    Ok(text)
}

/// Appends the metrics of a router's access lists; nothing if no port has one. `kept` is in the
/// order of the RFC 1234 ports. If out of memory, the text is unchanged.
pub fn put_access_list_metrics(
    text: &mut String,
    alloc: Global,
    port_indices: &[PortIndex],
    kept: &[PortFilterDrops],
) -> Result<(), AllocError>
    ensures put { OnOk result (string_bytes text.new
        ≡ string_bytes text.old ++ families_text (access_list_families port_indices.now kept.now)) }
    ensures refused { OnErr result (string_bytes text.new ≡ string_bytes text.old) }
{
    let metrics = access_lists_to_text(alloc, port_indices, kept)?;
    text.push_str(&metrics)
}
