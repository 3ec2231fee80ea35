//! The lines that `show` prints.

ghost use Rattle.std.specs.Prelude.{◌≡◌, ◌==◌, IfOk, string_bytes};
ghost use Rattle.std.specs.List.{before_first, flat_map};
ghost use Rattle.ipx_wire.specs.Ipx.{packet_view};
ghost use Rattle.ipx_control.specs.Rip.{rip_view};
ghost use Rattle.ipx_control.specs.Sap.{sap_view};
ghost use Rattle.ipx_inspect.specs.Decoded.{contents_view, decoded_view};
ghost use Rattle.ipx_inspect.specs.ShowLine.{address_text, bit_text, contents_lines, control_text, counts_text, header_lines, ids_text, name_byte, name_text, reach, reading_lines, reading_status, rip_entry_line, rip_lines, sap_lines, service_line, spx_line, word_text};

use crate::decoded::{Contents, Decoded};
use crate::line::{control_fault_to_text, fault_to_text, spx_fault_to_text};
use crate::place::place_of;
use ipx_control::{Rip, RipEntry, Sap, ServiceEntry};
use ipx_wire::{Address, Packet, SpxHeader};
use std::alloc::{AllocError, Global};

fn address_to_text(alloc: Global, address: Address) -> Result<String, AllocError>
    ensures { IfOk result (λ t. string_bytes t ≡ address_text address) }
{
    let network = hex::encode(alloc, address.network.0.to_be_bytes())?;
    let node = hex::encode(alloc, address.node.0)?;
    let socket = hex::encode(alloc, address.socket.0.to_be_bytes())?;
    format!(in alloc; "{network} {node} {socket}")
}

fn packet_to_lines(alloc: Global, packet: &Packet<'_>) -> Result<String, AllocError>
    ensures { IfOk result (λ t. string_bytes t ≡ header_lines (packet_view packet.now)) }
{
    let hops = packet.header.hops;
    let kind = packet.header.kind;
    let body = packet.body.len();
    let to = address_to_text(alloc, packet.header.to)?;
    let from = address_to_text(alloc, packet.header.from)?;
    format!(in alloc; "ipx hops {hops} kind {kind} body {body}\nto {to}\nfrom {from}\n")
}

fn bit_of(bit: bool) -> &'static str
    ensures { result.now ≡ bit_text bit }
{
    if bit { "1" } else { "0" }
}

fn control_to_text(alloc: Global, header: SpxHeader) -> Result<String, AllocError>
    ensures { IfOk result (λ t. string_bytes t ≡ control_text header) }
{
    let system = bit_of(header.system);
    let wants = bit_of(header.wants_ack);
    let last = bit_of(header.last);
    format!(in alloc; "system {system} wants {wants} last {last}")
}

fn word_to_text(alloc: Global, number: u16) -> Result<String, AllocError>
    ensures { IfOk result (λ t. string_bytes t ≡ word_text number) }
{
    let digits = hex::encode(alloc, number.to_be_bytes())?;
    format!(in alloc; "{digits}")
}

fn ids_to_text(alloc: Global, header: SpxHeader) -> Result<String, AllocError>
    ensures { IfOk result (λ t. string_bytes t ≡ ids_text header) }
{
    let from = word_to_text(alloc, header.from_id)?;
    let to = word_to_text(alloc, header.to_id)?;
    format!(in alloc; "from {from} to {to}")
}

fn counts_to_text(alloc: Global, header: SpxHeader) -> Result<String, AllocError>
    ensures { IfOk result (λ t. string_bytes t ≡ counts_text header) }
{
    let seq = word_to_text(alloc, header.seq)?;
    let ack = word_to_text(alloc, header.ack)?;
    let limit = word_to_text(alloc, header.limit)?;
    format!(in alloc; "seq {seq} ack {ack} limit {limit}")
}

fn spx_to_line(alloc: Global, header: SpxHeader, payload: &[u8]) -> Result<String, AllocError>
    ensures { IfOk result (λ t. string_bytes t ≡ spx_line header payload.now) }
{
    let control = control_to_text(alloc, header)?;
    let stream = hex::encode(alloc, [header.stream])?;
    let ids = ids_to_text(alloc, header)?;
    let counts = counts_to_text(alloc, header)?;
    let body = payload.len();
    format!(in alloc; "spx {control} stream {stream} {ids} {counts} body {body}\n")
}

fn rip_entry_to_line(alloc: Global, entry: RipEntry) -> Result<String, AllocError>
    ensures { IfOk result (λ t. string_bytes t ≡ rip_entry_line entry) }
{
    let network = hex::encode(alloc, entry.network.0.to_be_bytes())?;
    let hops = entry.hops;
    let ticks = entry.ticks;
    format!(in alloc; "net {network} hops {hops} ticks {ticks}\n")
}

fn rip_entries_to_lines(alloc: Global, entries: &[RipEntry]) -> Result<String, AllocError>
    ensures { IfOk result (λ t. string_bytes t ≡ flat_map rip_entry_line entries.now) }
{
    let mut lines = String::new(alloc);
    for entry in entries {
        let line = rip_entry_to_line(alloc, *entry)?;
        lines.push_str(&line)?;
    }
    Ok(lines)
}

fn rip_to_lines(alloc: Global, rip: &Rip) -> Result<String, AllocError>
    ensures { IfOk result (λ t. string_bytes t ≡ rip_lines (rip_view rip.now)) }
{
    match rip {
        Rip::Request(entries) => {
            let count = entries.len();
            let lines = rip_entries_to_lines(alloc, entries)?;
            return format!(in alloc; "rip request {count}\n{lines}");
        }
        Rip::Response(entries) => {
            let count = entries.len();
            let lines = rip_entries_to_lines(alloc, entries)?;
            return format!(in alloc; "rip response {count}\n{lines}");
        }
    }
}

fn name_byte_to_text(alloc: Global, byte: u8) -> Result<String, AllocError>
    ensures { IfOk result (λ t. string_bytes t ≡ name_byte byte) }
{
    if byte >= 0x21 && byte <= 0x7e && byte != b'\\' {
        let sign = char::from(byte);
        return format!(in alloc; "{sign}");
    }
    let digits = hex::encode(alloc, [byte])?;
    format!(in alloc; "\\x{digits}")
}

fn name_bytes_to_text(alloc: Global, bytes: &[u8]) -> Result<String, AllocError>
    ensures { IfOk result (λ t. string_bytes t ≡ flat_map name_byte bytes.now) }
{
    let mut text = String::new(alloc);
    for byte in bytes {
        let part = name_byte_to_text(alloc, *byte)?;
        text.push_str(&part)?;
    }
    Ok(text)
}

/// The bytes before the first zero byte.
fn before_zero(name: &[u8]) -> &[u8]
    ensures { result.now ≡ before_first (λ b. b == 0) name.now }
{
    match place_of(name, 0) {
        Some(end) => &name[..end],
        None => name,
    }
}

/// The name of a service, printed in ASCII only.
fn name_to_text(alloc: Global, name: &[u8]) -> Result<String, AllocError>
    ensures { IfOk result (λ t. string_bytes t ≡ name_text name.now) }
{
    let bytes = before_zero(name);
    if bytes.is_empty() {
        return String::from_str(alloc, "-");
    }
    name_bytes_to_text(alloc, bytes)
}

fn service_to_line(alloc: Global, entry: &ServiceEntry) -> Result<String, AllocError>
    ensures { IfOk result (λ t. string_bytes t ≡ service_line entry.now) }
{
    let kind = hex::encode(alloc, entry.kind.to_be_bytes())?;
    let name = name_to_text(alloc, &entry.name)?;
    let at = address_to_text(alloc, entry.at)?;
    let hops = entry.hops;
    format!(in alloc; "service {kind} {name} {at} hops {hops}\n")
}

fn services_to_lines(alloc: Global, services: &[ServiceEntry]) -> Result<String, AllocError>
    ensures { IfOk result (λ t. string_bytes t ≡ flat_map service_line services.now) }
{
    let mut lines = String::new(alloc);
    for entry in services {
        let line = service_to_line(alloc, entry)?;
        lines.push_str(&line)?;
    }
    Ok(lines)
}

fn reach_of(nearest: bool) -> &'static str
    ensures { result.now ≡ reach nearest }
{
    if nearest { "nearest" } else { "general" }
}

fn sap_to_lines(alloc: Global, sap: &Sap) -> Result<String, AllocError>
    ensures { IfOk result (λ t. string_bytes t ≡ sap_lines (sap_view sap.now)) }
{
    match sap {
        Sap::Query { nearest, kind } => {
            let reach = reach_of(*nearest);
            let kind = hex::encode(alloc, kind.to_be_bytes())?;
            return format!(in alloc; "sap {reach} query {kind}\n");
        }
        Sap::Response { nearest, services } => {
            let reach = reach_of(*nearest);
            let count = services.len();
            let lines = services_to_lines(alloc, services)?;
            return format!(in alloc; "sap {reach} response {count}\n{lines}");
        }
    }
}

fn contents_to_lines(alloc: Global, contents: &Contents<'_>) -> Result<String, AllocError>
    ensures { IfOk result (λ t. string_bytes t ≡ contents_lines (contents_view contents.now)) }
{
    match contents {
        Contents::Plain => return Ok(String::new(alloc)),
        Contents::OfSpx(header, payload) => return spx_to_line(alloc, *header, payload),
        Contents::OfRip(rip) => return rip_to_lines(alloc, rip),
        Contents::OfSap(sap) => return sap_to_lines(alloc, sap),
    }
}

/// The header, and the contents of the body; or the fault, on one line.
pub fn reading_to_lines(alloc: Global, reading: &Decoded<'_>) -> Result<String, AllocError>
    ensures { IfOk result (λ t. string_bytes t ≡ reading_lines (decoded_view reading.now)) }
{
    match reading {
        Decoded::NoPacket(fault) => {
            let text = fault_to_text(alloc, *fault)?;
            return format!(in alloc; "refused {text}\n");
        }
        Decoded::NoSpx(fault) => {
            let text = spx_fault_to_text(alloc, *fault)?;
            return format!(in alloc; "refused {text}\n");
        }
        Decoded::NoControl(fault) => {
            let text = control_fault_to_text(alloc, *fault)?;
            return format!(in alloc; "refused {text}\n");
        }
        Decoded::Holds(packet, contents) => {
            let header = packet_to_lines(alloc, packet)?;
            let body = contents_to_lines(alloc, contents)?;
            return format!(in alloc; "{header}{body}");
        }
    }
}

/// 0 for a packet, 1 for one that is refused.
pub fn reading_to_status(reading: &Decoded<'_>) -> u8
    ensures { result ≡ reading_status (decoded_view reading.now) }
{
    match reading {
        Decoded::NoPacket(_) | Decoded::NoSpx(_) | Decoded::NoControl(_) => 1,
        Decoded::Holds(_, _) => 0,
    }
}
