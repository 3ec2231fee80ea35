//! The lines of networks.

ghost use Rattle.std.specs.Prelude.{◌≡◌, IfOk, string_bytes};
ghost use Rattle.std.specs.List.{flat_map};
ghost use Rattle.ipx_query_cmd.specs.OperatorLines.{network_json, network_row, networks_table, networks_text};

use crate::answer_times::AnswerTime;
use crate::columns::{network_to_digits, node_to_digits, number_at_right};
use crate::last_line::{answers_to_line, count_to_text};
use ipx_tables::{RouteMetric, Source};
use ipx_wire::Network;
use std::alloc::{AllocError, Global};

/// A network, the router that advertises it, and its distance.
type AdvertisedNetwork = (Network, Source, RouteMetric);

fn network_to_row(alloc: Global, told: &AdvertisedNetwork) -> Result<String, AllocError>
    ensures { IfOk result (λ t. string_bytes t ≡ network_row told.now) }
{
    let (network, source, metric) = *told;
    let network = network_to_digits(alloc, network)?;
    let hops = number_at_right(alloc, 4, metric.hops)?;
    let ticks = number_at_right(alloc, 5, metric.ticks)?;
    let by = node_to_digits(alloc, source.neighbour)?;
    format!(in alloc; "{network}  {hops}  {ticks}  {by}\n")
}

fn network_to_json(alloc: Global, told: &AdvertisedNetwork) -> Result<String, AllocError>
    ensures { IfOk result (λ t. string_bytes t ≡ network_json told.now) }
{
    let (network, source, metric) = *told;
    let network = network_to_digits(alloc, network)?;
    let hops = metric.hops;
    let ticks = metric.ticks;
    let by = node_to_digits(alloc, source.neighbour)?;
    format!(in alloc;
        "{{\"network\":\"{network}\",\"hops\":{hops},\"ticks\":{ticks},\"by\":\"{by}\"}}\n"
    )
}

fn networks_to_rows(alloc: Global, listed: &[AdvertisedNetwork]) -> Result<String, AllocError>
    ensures { IfOk result (λ t. string_bytes t ≡ flat_map network_row listed.now) }
{
    let mut rows = String::new(alloc);
    for told in listed {
        let row = network_to_row(alloc, told)?;
        rows.push_str(&row)?;
    }
    Ok(rows)
}

fn networks_to_json(alloc: Global, listed: &[AdvertisedNetwork]) -> Result<String, AllocError>
    ensures { IfOk result (λ t. string_bytes t ≡ flat_map network_json listed.now) }
{
    let mut lines = String::new(alloc);
    for told in listed {
        let line = network_to_json(alloc, told)?;
        lines.push_str(&line)?;
    }
    Ok(lines)
}

fn networks_to_table(
    alloc: Global,
    listed: &[AdvertisedNetwork],
    answers: &[AnswerTime],
) -> Result<String, AllocError>
    ensures { IfOk result (λ t. string_bytes t ≡ networks_table listed.now answers.now) }
{
    let rows = networks_to_rows(alloc, listed)?;
    let count = count_to_text(alloc, listed.len(), "1 network", " networks")?;
    let last = answers_to_line(alloc, &count, answers)?;
    format!(in alloc; "network   hops  ticks  by\n{rows}{last}")
}

/// All that is printed of networks: a table, or a line of JSON for each.
pub fn networks_to_text(
    alloc: Global,
    json: bool,
    listed: &[AdvertisedNetwork],
    answers: &[AnswerTime],
) -> Result<String, AllocError>
    ensures { IfOk result (λ t. string_bytes t ≡ networks_text json listed.now answers.now) }
{
    if json {
        networks_to_json(alloc, listed)
    } else {
        networks_to_table(alloc, listed, answers)
    }
}
