//! The lines of services in a table file.

ghost use Rattle.std.specs.Prelude.{◌≡◌, ◌==◌, ◌||◌, IfOk, filter, map, string_bytes};
ghost use Rattle.std.specs.List.{flat_map};
ghost use Rattle.std.specs.Str.{bytes_eq};
ghost use Rattle.ipx_table_dump.specs.TableRead.{service_spelled, services_read};
ghost use Rattle.ipx_query_cmd.specs.OperatorLines.{type_digits, type_json, widest};
ghost use Rattle.ipx_query_cmd.specs.KnownLines.{kind_of_known, known_json_byte, known_place_columns, known_place_json, known_service_json, known_service_row, known_services_table, known_services_text, name_of_known, services_of_type};

use crate::columns::{at_left, at_right, type_to_digits};
use crate::fault::KnownFault;
use crate::known_lines::{word_in, written_to_line};
use crate::last_line::count_to_text;
use crate::names::json_byte_to_text;
use crate::service_lines::{HEAD, head_to_line, type_to_json, type_to_text};
use ipx_table_dump::{ServiceWords, services_of_text};
use std::alloc::{AllocError, Global};

/// The type that means all.
const ALL_TYPES: u16 = 0xffff;

/// Whether a service is of this type, whose digits are given.
fn is_of_type(kind: u16, digits: &[u8], service: &ServiceWords<'_>) -> bool
    ensures { result ≡ ((kind == 0xffff) || bytes_eq (service_spelled service.now).kind digits.now) }
{
    kind == ALL_TYPES || service.kind == digits
}

/// The services of a type, or all of them.
fn services_of_type<'a>(
    alloc: Global,
    kind: u16,
    services: &[ServiceWords<'a>],
) -> Result<Vec<ServiceWords<'a>>, AllocError>
    ensures { IfOk result (λ v. map service_spelled v.items
        ≡ services_of_type kind (map service_spelled services.now)) }
{
    let digits = type_to_digits(alloc, kind)?;
    let mut found = Vec::new(alloc);
    for service in services {
        if is_of_type(kind, digits.as_bytes(), service) {
            found.push(*service)?;
        }
    }
    Ok(found)
}

/// The type of a service, as a table has it.
fn kind_to_text(alloc: Global, service: &ServiceWords<'_>) -> Result<String, KnownFault>
    ensures { IfOk result (λ t. string_bytes t ≡ kind_of_known (service_spelled service.now)) }
{
    let kind = type_to_text(alloc, word_in(service.kind)?)?;
    Ok(kind)
}

/// The type of a service, as JSON has it.
fn kind_to_json(alloc: Global, service: &ServiceWords<'_>) -> Result<String, KnownFault>
    ensures { IfOk result (λ t. string_bytes t ≡ type_json (service_spelled service.now).kind) }
{
    let kind = type_to_json(alloc, word_in(service.kind)?)?;
    Ok(kind)
}

/// The width of the type column.
fn type_width(alloc: Global, services: &[ServiceWords<'_>]) -> Result<usize, KnownFault>
    ensures { IfOk result (λ w. w ≡ widest kind_of_known (map service_spelled services.now)) }
{
    let mut width = HEAD;
    for service in services {
        let kind = kind_to_text(alloc, service)?;
        width = width.max(kind.as_bytes().len());
    }
    Ok(width)
}

/// The width of the name column.
fn name_width(services: &[ServiceWords<'_>]) -> usize
    ensures { result ≡ widest name_of_known (map service_spelled services.now) }
{
    let mut width = HEAD;
    for service in services {
        width = width.max(service.name.len());
    }
    width
}

/// The address of a service, in the columns of a table.
fn place_to_columns(alloc: Global, service: &ServiceWords<'_>) -> Result<String, KnownFault>
    ensures { IfOk result (λ t. string_bytes t ≡ known_place_columns (service_spelled service.now)) }
{
    let network = word_in(service.network)?;
    let node = word_in(service.node)?;
    let socket = word_in(service.socket)?;
    let columns = format!(in alloc; "{network}  {node}  {socket}")?;
    Ok(columns)
}

fn known_to_row(
    alloc: Global,
    kinds: usize,
    names: usize,
    service: &ServiceWords<'_>,
) -> Result<String, KnownFault>
    ensures { IfOk result (λ t. string_bytes t
        ≡ known_service_row kinds names (service_spelled service.now)) }
{
    let kind = kind_to_text(alloc, service)?;
    let kind = at_left(alloc, kinds, &kind)?;
    let name = at_left(alloc, names, word_in(service.name)?)?;
    let place = place_to_columns(alloc, service)?;
    let hops = at_right(alloc, 4, word_in(service.hops)?)?;
    let by = word_in(service.next)?;
    let row = format!(in alloc; "{kind}  {name}  {place}    {hops}  {by}\n")?;
    Ok(row)
}

/// A byte of a name within JSON quotes.
fn name_byte_to_json(alloc: Global, byte: u8) -> Result<String, AllocError>
    ensures { IfOk result (λ t. string_bytes t ≡ known_json_byte byte) }
{
    if byte == b'\\' {
        return String::from_str(alloc, "\\\\");
    }
    json_byte_to_text(alloc, byte)
}

fn name_to_json(alloc: Global, name: &[u8]) -> Result<String, AllocError>
    ensures { IfOk result (λ t. string_bytes t ≡ flat_map known_json_byte name.now) }
{
    let mut text = String::new(alloc);
    for byte in name {
        let part = name_byte_to_json(alloc, *byte)?;
        text.push_str(&part)?;
    }
    Ok(text)
}

fn place_to_json(alloc: Global, service: &ServiceWords<'_>) -> Result<String, KnownFault>
    ensures { IfOk result (λ t. string_bytes t ≡ known_place_json (service_spelled service.now)) }
{
    let network = word_in(service.network)?;
    let node = word_in(service.node)?;
    let socket = word_in(service.socket)?;
    let place = format!(in alloc;
        "\"network\":\"{network}\",\"node\":\"{node}\",\"socket\":\"{socket}\""
    )?;
    Ok(place)
}

fn known_to_json(alloc: Global, service: &ServiceWords<'_>) -> Result<String, KnownFault>
    ensures { IfOk result (λ t. string_bytes t ≡ known_service_json (service_spelled service.now)) }
{
    let kind = kind_to_json(alloc, service)?;
    let name = name_to_json(alloc, service.name)?;
    let place = place_to_json(alloc, service)?;
    let hops = word_in(service.hops)?;
    let by = word_in(service.next)?;
    let line = format!(in alloc;
        "{{{kind},\"name\":\"{name}\",{place},\"hops\":{hops},\"by\":\"{by}\"}}\n"
    )?;
    Ok(line)
}

fn knowns_to_rows(
    alloc: Global,
    kinds: usize,
    names: usize,
    services: &[ServiceWords<'_>],
) -> Result<String, KnownFault>
    ensures { IfOk result (λ t. string_bytes t
        ≡ flat_map (known_service_row kinds names) (map service_spelled services.now)) }
{
    let mut rows = String::new(alloc);
    for service in services {
        let row = known_to_row(alloc, kinds, names, service)?;
        rows.push_str(&row)?;
    }
    Ok(rows)
}

fn knowns_to_json(alloc: Global, services: &[ServiceWords<'_>]) -> Result<String, KnownFault>
    ensures { IfOk result (λ t. string_bytes t
        ≡ flat_map known_service_json (map service_spelled services.now)) }
{
    let mut lines = String::new(alloc);
    for service in services {
        let line = known_to_json(alloc, service)?;
        lines.push_str(&line)?;
    }
    Ok(lines)
}

fn knowns_to_table(
    alloc: Global,
    place: &str,
    services: &[ServiceWords<'_>],
) -> Result<String, KnownFault>
    ensures { IfOk result (λ t. string_bytes t
        ≡ known_services_table place.now (map service_spelled services.now)) }
{
    let kinds = type_width(alloc, services)?;
    let names = name_width(services);
    let head = head_to_line(alloc, kinds, names)?;
    let rows = knowns_to_rows(alloc, kinds, names, services)?;
    let count = count_to_text(alloc, services.len(), "1 service", " services")?;
    let last = written_to_line(alloc, &count, place)?;
    let table = format!(in alloc; "{head}{rows}{last}")?;
    Ok(table)
}

/// All that is printed of the services of a type in the text of a table file: a table, or a line of
/// JSON for each.
pub fn known_services_to_text(
    alloc: Global,
    json: bool,
    place: &str,
    kind: u16,
    text: &[u8],
) -> Result<String, KnownFault>
    ensures { IfOk result (λ t. string_bytes t
        ≡ known_services_text json place.now kind text.now) }
{
    let known = services_of_text(alloc, text)?;
    let services = services_of_type(alloc, kind, &known)?;
    if json {
        return knowns_to_json(alloc, &services);
    }
    knowns_to_table(alloc, place, &services)
}
