//! The lines of services.

ghost use Rattle.std.specs.Prelude.{◌≡◌, IfOk, string_bytes};
ghost use Rattle.std.specs.List.{flat_map};
ghost use Rattle.ipx_query_cmd.specs.OperatorLines.{kind_of_told, name_of_told, place_columns, place_json, service_head, service_json, service_row, services_table, services_text, type_digits, type_json, type_name, type_text, widest};

use crate::answer_times::AnswerTime;
use crate::columns::{
    at_left, network_to_digits, node_to_digits, number_at_right, socket_to_digits, type_to_digits,
};
use crate::last_line::{answers_to_line, count_to_text};
use crate::names::{name_to_json, name_to_text};
use ipx_tables::{ServiceKey, ServiceMetric, Source};
use ipx_wire::Address;
use std::alloc::{AllocError, Global};

/// A service, the router that advertises it, and its distance and address.
type AdvertisedService = (ServiceKey, Source, ServiceMetric);

/// The least width of the columns of types and names: that of their headings.
pub const HEAD: usize = 4;

/// What a well-known type of service is, by its digits; nothing if it is not one of these. Novell published them.
pub fn type_name(digits: &str) -> &'static str
    ensures { result.now ≡ type_name digits.now }
{
    match digits {
        "0003" => "print queue",
        "0004" => "file server",
        "0005" => "job server",
        "0006" => "gateway",
        "0007" => "print server",
        "0009" => "archive server",
        "0024" => "remote bridge",
        "0047" => "advertising print server",
        "0107" => "remote console",
        "026b" => "time synchronization",
        "0278" => "directory tree",
        _ => "",
    }
}

/// A type as a table has it: its digits, and then its name if it has one.
pub fn type_to_text(alloc: Global, digits: &str) -> Result<String, AllocError>
    ensures { IfOk result (λ t. string_bytes t ≡ type_text digits.now) }
{
    let name = type_name(digits);
    if name.is_empty() {
        return String::from_str(alloc, digits);
    }
    format!(in alloc; "{digits} {name}")
}

/// A type as JSON has it: its digits, and its name.
pub fn type_to_json(alloc: Global, digits: &str) -> Result<String, AllocError>
    ensures { IfOk result (λ t. string_bytes t ≡ type_json digits.now) }
{
    let name = type_name(digits);
    format!(in alloc; "\"type\":\"{digits}\",\"type_name\":\"{name}\"")
}

/// The type of a service, as JSON has it.
fn kind_to_json(alloc: Global, told: &AdvertisedService) -> Result<String, AllocError>
    ensures { IfOk result (λ t. string_bytes t ≡ type_json (type_digits told.now.0.kind)) }
{
    let digits = type_to_digits(alloc, told.0.kind)?;
    type_to_json(alloc, &digits)
}

/// The type of a service, as a table has it.
fn kind_to_text(alloc: Global, told: &AdvertisedService) -> Result<String, AllocError>
    ensures { IfOk result (λ t. string_bytes t ≡ kind_of_told told.now) }
{
    let digits = type_to_digits(alloc, told.0.kind)?;
    type_to_text(alloc, &digits)
}

/// The width of the type column.
fn type_width(alloc: Global, listed: &[AdvertisedService]) -> Result<usize, AllocError>
    ensures { IfOk result (λ w. w ≡ widest kind_of_told listed.now) }
{
    let mut width = HEAD;
    for told in listed {
        let kind = kind_to_text(alloc, told)?;
        width = width.max(kind.as_bytes().len());
    }
    Ok(width)
}

/// The width of the name column.
fn name_width(alloc: Global, listed: &[AdvertisedService]) -> Result<usize, AllocError>
    ensures { IfOk result (λ w. w ≡ widest name_of_told listed.now) }
{
    let mut width = HEAD;
    for told in listed {
        let name = name_to_text(alloc, &told.0.name)?;
        width = width.max(name.as_bytes().len());
    }
    Ok(width)
}

/// The address of a service, in the columns of a table.
fn place_to_columns(alloc: Global, at: Address) -> Result<String, AllocError>
    ensures { IfOk result (λ t. string_bytes t ≡ place_columns at) }
{
    let network = network_to_digits(alloc, at.network)?;
    let node = node_to_digits(alloc, at.node)?;
    let socket = socket_to_digits(alloc, at.socket)?;
    format!(in alloc; "{network}  {node}  {socket}")
}

fn service_to_row(
    alloc: Global,
    kinds: usize,
    names: usize,
    told: &AdvertisedService,
) -> Result<String, AllocError>
    ensures { IfOk result (λ t. string_bytes t ≡ service_row kinds names told.now) }
{
    let (key, source, metric) = *told;
    let kind = kind_to_text(alloc, told)?;
    let kind = at_left(alloc, kinds, &kind)?;
    let name = name_to_text(alloc, &key.name)?;
    let name = at_left(alloc, names, &name)?;
    let place = place_to_columns(alloc, metric.at)?;
    let hops = number_at_right(alloc, 4, metric.hops)?;
    let by = node_to_digits(alloc, source.neighbour)?;
    format!(in alloc; "{kind}  {name}  {place}    {hops}  {by}\n")
}

fn place_to_json(alloc: Global, at: Address) -> Result<String, AllocError>
    ensures { IfOk result (λ t. string_bytes t ≡ place_json at) }
{
    let network = network_to_digits(alloc, at.network)?;
    let node = node_to_digits(alloc, at.node)?;
    let socket = socket_to_digits(alloc, at.socket)?;
    format!(in alloc; "\"network\":\"{network}\",\"node\":\"{node}\",\"socket\":\"{socket}\"")
}

fn service_to_json(alloc: Global, told: &AdvertisedService) -> Result<String, AllocError>
    ensures { IfOk result (λ t. string_bytes t ≡ service_json told.now) }
{
    let (key, source, metric) = *told;
    let kind = kind_to_json(alloc, told)?;
    let name = name_to_json(alloc, &key.name)?;
    let place = place_to_json(alloc, metric.at)?;
    let hops = metric.hops;
    let by = node_to_digits(alloc, source.neighbour)?;
    format!(in alloc; "{{{kind},\"name\":\"{name}\",{place},\"hops\":{hops},\"by\":\"{by}\"}}\n")
}

fn services_to_rows(
    alloc: Global,
    kinds: usize,
    names: usize,
    listed: &[AdvertisedService],
) -> Result<String, AllocError>
    ensures { IfOk result (λ t. string_bytes t ≡ flat_map (service_row kinds names) listed.now) }
{
    let mut rows = String::new(alloc);
    for told in listed {
        let row = service_to_row(alloc, kinds, names, told)?;
        rows.push_str(&row)?;
    }
    Ok(rows)
}

fn services_to_json(alloc: Global, listed: &[AdvertisedService]) -> Result<String, AllocError>
    ensures { IfOk result (λ t. string_bytes t ≡ flat_map service_json listed.now) }
{
    let mut lines = String::new(alloc);
    for told in listed {
        let line = service_to_json(alloc, told)?;
        lines.push_str(&line)?;
    }
    Ok(lines)
}

/// The heading of a table whose columns of types and names have these widths.
pub fn head_to_line(alloc: Global, kinds: usize, names: usize) -> Result<String, AllocError>
    ensures { IfOk result (λ t. string_bytes t ≡ service_head kinds names) }
{
    let kind = at_left(alloc, kinds, "type")?;
    let name = at_left(alloc, names, "name")?;
    format!(in alloc; "{kind}  {name}  network   node          socket  hops  by\n")
}

fn services_to_table(
    alloc: Global,
    listed: &[AdvertisedService],
    answers: &[AnswerTime],
) -> Result<String, AllocError>
    ensures { IfOk result (λ t. string_bytes t ≡ services_table listed.now answers.now) }
{
    let kinds = type_width(alloc, listed)?;
    let names = name_width(alloc, listed)?;
    let head = head_to_line(alloc, kinds, names)?;
    let rows = services_to_rows(alloc, kinds, names, listed)?;
    let count = count_to_text(alloc, listed.len(), "1 service", " services")?;
    let last = answers_to_line(alloc, &count, answers)?;
    format!(in alloc; "{head}{rows}{last}")
}

/// All that is printed of services: a table, or a line of JSON for each.
pub fn services_to_text(
    alloc: Global,
    json: bool,
    listed: &[AdvertisedService],
    answers: &[AnswerTime],
) -> Result<String, AllocError>
    ensures { IfOk result (λ t. string_bytes t ≡ services_text json listed.now answers.now) }
{
    if json {
        services_to_json(alloc, listed)
    } else {
        services_to_table(alloc, listed, answers)
    }
}
