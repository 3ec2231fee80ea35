//! Prometheus metrics of each port of a router.

ghost use Rattle.std.specs.Prelude.{◌≡◌, ◌++◌, ◌∷◌, [], ℕ, OnOk, codes, string_bytes};
ghost use Rattle.std.specs.Fmt.{decimal};
ghost use Rattle.std.specs.List.{flat_map};
ghost use Rattle.ipx_site.specs.MetricsText.{at_port_by, families_text, family_lines, family_text, sample_line};
ghost use Rattle.ipx_site.specs.PortFamilies.{count_of, port_dropped_family, port_families, port_sample, port_samples};
ghost use Rattle.ipx_site.specs.TotalFamilies.{dropped_outcomes};

use crate::family::{Family, put_each_of_port, put_family};
use ipx_carrier::OutcomeCounters;
use ipx_metrics::PortCounts;
use ipx_router::Port;
use std::alloc::{AllocError, Global};

const HEARD: Family = Family {
    name: "ipx_port_receive_packets_total",
    help: "Datagrams that the router itself processed, by port of arrival",
    kind: "counter",
};

const HEARD_BYTES: Family = Family {
    name: "ipx_port_receive_bytes_total",
    help: "Bytes of ipx_port_receive_packets_total, from the IPX header on",
    kind: "counter",
};

const SENT: Family = Family {
    name: "ipx_port_transmit_packets_total",
    help: "Packets that the router itself gave to a port, each counted once",
    kind: "counter",
};

const SENT_BYTES: Family = Family {
    name: "ipx_port_transmit_bytes_total",
    help: "Bytes of ipx_port_transmit_packets_total, from the IPX header on",
    kind: "counter",
};

const DROPPED: Family = Family {
    name: "ipx_port_dropped_total",
    help: "Datagrams dropped, by port of arrival and reason",
    kind: "counter",
};

/// What is counted of the traffic at a port.
#[derive(Clone, Copy)]
pub enum Traffic {
    Heard,
    HeardBytes,
    Sent,
    SentBytes,
}

fn count_of(counts: &PortCounts, passed: Traffic) -> u64
    ensures { result ≡ count_of passed counts.now }
{
    match passed {
        Traffic::Heard => counts.heard(),
        Traffic::HeardBytes => counts.heard_bytes,
        Traffic::Sent => counts.sent,
        Traffic::SentBytes => counts.sent_bytes,
    }
}

/// Writes a metric of the port with this number, with its network.
fn put_count(
    text: &mut String,
    alloc: Global,
    family: &Family,
    number: usize,
    port: &Port,
    count: u64,
) -> Result<(), AllocError>
    ensures { OnOk result (string_bytes text.new ≡ string_bytes text.old
        ++ sample_line family.now.name.now (port_sample number port.now count)) }
{
    let name = family.name;
    let network = hex::encode(alloc, port.network.0.to_be_bytes())?;
    write!(
        text,
        "{name}{{port=\"{number}\",network=\"{network}\"}} {count}\n"
    )
}

/// Writes a metric of each port, with its number and its network.
fn put_traffic(
    text: &mut String,
    alloc: Global,
    family: &Family,
    ports: &[Port],
    counters: &[PortCounts],
    passed: Traffic,
) -> Result<(), AllocError>
    ensures { OnOk result (string_bytes text.new ≡ string_bytes text.old
        ++ family_lines (record {
          name = family.now.name.now;
          help = family.now.help.now;
          kind = family.now.kind.now;
          samples = port_samples passed ports.now counters.now;
        })) }
{
    put_family(text, family)?;
    for (place, counts) in counters.iter().enumerate() {
        if let Some(port) = ports.get(place) {
            let count = count_of(counts, passed);
            put_count(text, alloc, family, place + 1, port, count)?;
        }
    }
    Ok(())
}

/// Writes how many datagrams that came by a port were dropped, by reason.
fn put_drops(text: &mut String, number: usize, outcomes: &OutcomeCounters) -> Result<(), AllocError>
    ensures { OnOk result (string_bytes text.new ≡ string_bytes text.old
        ++ flat_map (sample_line (codes "ipx_port_dropped_total"))
        (at_port_by number (codes "reason") (dropped_outcomes outcomes.now))) }
{
    let metrics = [
        ("bad", outcomes.bad),
        ("propagated", outcomes.propagated),
        ("not_ours", outcomes.not_ours),
        ("no_route", outcomes.no_route),
        ("hop_limit", outcomes.hop_limit),
        ("bad_control", outcomes.bad_control),
        ("table_full", outcomes.table_full),
    ];
    put_each_of_port(text, &DROPPED, number, "reason", &metrics)
}

/// Writes how many datagrams were dropped, by the port that they came by.
fn put_dropped(text: &mut String, counters: &[PortCounts]) -> Result<(), AllocError>
    ensures { OnOk result
        (string_bytes text.new ≡ string_bytes text.old ++ family_lines (port_dropped_family counters.now)) }
{
    put_family(text, &DROPPED)?;
    for (place, counts) in counters.iter().enumerate() {
        put_drops(text, place + 1, &counts.outcomes)?;
    }
    Ok(())
}

/// Writes what a router counts at each of its ports after its other metrics. The counters are in the
/// order of the ports.
pub fn put_port_metrics(
    text: &mut String,
    alloc: Global,
    ports: &[Port],
    counters: &[PortCounts],
) -> Result<(), AllocError>
    ensures { OnOk result (string_bytes text.new
        ≡ string_bytes text.old ++ families_text (port_families ports.now counters.now)) }
{
    put_traffic(text, alloc, &HEARD, ports, counters, Traffic::Heard)?;
    put_traffic(
        text,
        alloc,
        &HEARD_BYTES,
        ports,
        counters,
        Traffic::HeardBytes,
    )?;
    put_traffic(text, alloc, &SENT, ports, counters, Traffic::Sent)?;
    put_traffic(
        text,
        alloc,
        &SENT_BYTES,
        ports,
        counters,
        Traffic::SentBytes,
    )?;
    put_dropped(text, counters)
}
