//! Parsing the file of a router.

ghost use Rattle.std.specs.Prelude.{◌≡◌, ◌⊎◌, [], All, Option, Some, None, IfErr, IfOk, OnOk, MatchResult, ◌<◌, ◌^◌, length, option_map};
ghost use Rattle.toml.specs.Data.{Data, Items};
ghost use Rattle.toml.specs.View.{items_view, table_view, view};
ghost use Rattle.ipx_router.specs.NewRouter.{IsOwnNetwork};
ghost use Rattle.ipx_config.specs.Fields.{Holds, IsFault, Reads};
ghost use Rattle.ipx_config.specs.StaticLists.{HearsAtPorts};
ghost use Rattle.ipx_config.specs.SitePorts.{router_ports};
ghost use Rattle.ipx_config.specs.Site.{ArePorts, IsFirstFault, IsPortItem, IsPortItemFault, IsPortList, IsSite, IsSiteFault, IsSiteText, IsSiteTextFault, IsApart, IsRepeated, are_addresses_shared, are_places_shared, is_few, shared_place, twin_place};

use crate::equality::is_same_ip;
use crate::fault::ConfigError;
use crate::fields::{
    file_name_in, other_file_name_in, refuse_unknown, required, third_file_name_in,
};
use crate::key::Key;
use crate::port::port_of;
use crate::site::{PortConfig, RouterConfig};
use crate::static_lists::statics_in;
use crate::toml_text::table_of;
use std::alloc::Global;
use std::net::SocketAddrV4;
use toml::{Table, Value};

/// The keys of the file, in the order in which their faults are reported.
const KEYS: [Key; 6] = [
    Key::MetricsFile,
    Key::TablesFile,
    Key::SecretFile,
    Key::Port,
    Key::Route,
    Key::Service,
];

/// The port that a value describes.
fn item_of(alloc: Global, value: &Value, number: usize) -> Result<PortConfig, ConfigError>
    ensures port { IfOk result (IsPortItem (view value.now)) }
    ensures fault { IfErr result (λ f.
        (f ≡ ConfigError.OutOfMemory) ⊎ IsPortItemFault number (view value.now) f) }
{
    match value.as_table() {
        Some(table) => port_of(alloc, table, number),
        None => Err(ConfigError::Wrong(number, Key::Port)),
    }
}

/// The index of the first of these ports that is on the same network.
fn place_of_twin(earlier: &[PortConfig], port: &PortConfig) -> Option<usize>
    ensures { result ≡ twin_place earlier.now port.now }
{
    let network = port.network();
    earlier.iter().position(|other| other.network() == network)
}

/// Whether a socket bound to one of these addresses gets what is sent to the other. 0.0.0.0 is every
/// address.
fn are_addresses_shared(a: [u8; 4], b: [u8; 4]) -> bool
    ensures { result ≡ are_addresses_shared a b }
{
    is_same_ip(a, b) || is_same_ip(a, [0; 4]) || is_same_ip(b, [0; 4])
}

/// Whether no two sockets can be bound to these places.
fn are_places_shared(a: SocketAddrV4, b: SocketAddrV4) -> bool
    ensures { result ≡ are_places_shared a b }
{
    a.port() == b.port() && are_addresses_shared(a.ip().octets(), b.ip().octets())
}

/// The index of the first of these ports that shares the place of a port.
fn place_of_shared(earlier: &[PortConfig], port: &PortConfig) -> Option<usize>
    ensures { result ≡ shared_place earlier.now port.now }
{
    let place = port.place();
    earlier
        .iter()
        .position(|other| are_places_shared(other.place(), place))
}

/// Refuses a port on the network of an earlier one, or at its place.
fn refuse_repeated(
    earlier: &[PortConfig],
    port: &PortConfig,
    number: usize,
) -> Result<(), ConfigError>
    requires { length earlier.now < 2 ^ 63 }
    ensures alone { OnOk result (IsApart earlier.now port.now) }
    ensures repeated { IfErr result (IsRepeated earlier.now number port.now) }
{
    if let Some(place) = place_of_twin(earlier, port) {
        return Err(ConfigError::Twin(number, port.network(), place + 1));
    }
    match place_of_shared(earlier, port) {
        Some(place) => Err(ConfigError::SamePlace(number, place + 1)),
        None => Ok(()),
    }
}

/// The ports that values describe, in order.
fn ports_of(alloc: Global, values: &[Value]) -> Result<Vec<PortConfig>, ConfigError>
    ensures ports { IfOk result (λ v. ArePorts [] (items_view values.now) v.items) }
    ensures fault { IfErr result (λ f.
        (f ≡ ConfigError.OutOfMemory) ⊎ IsFirstFault [] 1 (items_view values.now) f) }
{
    let mut ports = Vec::new(alloc);
    for value in values {
        let number = ports.len() + 1;
        let port = item_of(alloc, value, number)?;
        refuse_repeated(&ports, &port, number)?;
        ports.push(port)?;
    }
    Ok(ports)
}

/// Whether there are one to sixteen values.
#[tactic(auto, using(crate::proofs::Faults::count_is))]
fn are_few(values: &[Value]) -> bool
    ensures { result ≡ is_few (items_view values.now) }
{
    !values.is_empty() && values.len() <= 16
}

/// The items of an array of one to sixteen.
fn listed(value: &Value) -> Option<&[Value]>
    ensures { Reads IsPortList (view value.now) (option_map (λ vs. items_view vs.now) result) }
{
    let values = value.as_array()?.as_slice();
    if !are_few(values) {
        return None;
    }
    Some(values)
}

/// The values that describe ports.
fn port_values(table: &Table) -> Result<&[Value], ConfigError>
    ensures { MatchResult result
        (λ vs. Holds IsPortList Key.Port (table_view table.now) (items_view vs.now))
        (IsFault IsPortList Key.Port (table_view table.now) 0) }
{
    match listed(required(table, 0, Key::Port)?) {
        Some(values) => Ok(values),
        None => Err(ConfigError::Wrong(0, Key::Port)),
    }
}

fn site_of(alloc: Global, table: &Table) -> Result<RouterConfig, ConfigError>
    ensures site { IfOk result (IsSite (table_view table.now)) }
    ensures own { IfOk result (λ s. All IsOwnNetwork (router_ports s.ports.items)) }
    ensures there { IfOk result HearsAtPorts }
    ensures fault { IfErr result (λ f.
        (f ≡ ConfigError.OutOfMemory) ⊎ IsSiteFault (table_view table.now) f) }
{
    refuse_unknown(alloc, table, 0, &KEYS)?;
    let metrics_file = file_name_in(alloc, table, Key::MetricsFile)?;
    let tables_file = other_file_name_in(alloc, table, Key::TablesFile, &metrics_file)?;
    let secret_file = third_file_name_in(
        alloc,
        table,
        Key::SecretFile,
        &metrics_file,
        &tables_file,
    )?;
    let values = port_values(table)?;
    let ports = ports_of(alloc, values)?;
    let statics = statics_in(alloc, table, &ports)?;
    Ok(RouterConfig {
        metrics_file,
        tables_file,
        secret_file,
        ports,
        statics,
    })
}

/// Parses the text of a router's file, or returns its first fault. Ports are checked in the order
/// of the file, followed by routes and services. Each port's `kind` is checked first. Next are
/// names that are no keys of that kind, and then its keys in the order of the documents.
pub fn read_site(alloc: Global, text: &str) -> Result<RouterConfig, ConfigError>
    ensures site { IfOk result (IsSiteText text.now) }
    // What `Router::new` requires of its ports.
    ensures own { IfOk result (λ s. All IsOwnNetwork (router_ports s.ports.items)) }
    // What `WithStatics::new` requires.
    ensures there { IfOk result HearsAtPorts }
    ensures fault { IfErr result (λ f.
        (f ≡ ConfigError.OutOfMemory) ⊎ IsSiteTextFault text.now f) }
{
    let table = table_of(alloc, text)?;
    site_of(alloc, &table)
}
