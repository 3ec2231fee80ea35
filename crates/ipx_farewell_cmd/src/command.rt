//! The command `farewell`: takes back what a router that has stopped advertised.

ghost use Rattle.std.specs.Prelude.{◌≡◌, ◌≤◌, ◌⊎◌};

use crate::age::{age_of, are_recent};
use crate::entries::{offers_of_text, routes_of_text};
use crate::fault::FarewellFault;
use crate::ports::told_ports;
use crate::saying::say_all;
use ipx_config::{RouterConfig, load_site, load_tables};
use ipx_sockets::{Poller, UdpSockets};
use std::alloc::Global;
use std::net::Net;
use std::rt::{Clock, Files};

/// Reports why nothing is taken back by the tables at a path, and returns the exit status.
fn tell<R: Eprint>(rt: &R, path: &str, what: &str) -> u8
    ensures { result ≡ 1 }
{
    let _ = eprintln!(rt; "{path}: {what}");
    1
}

/// Reports that tables are too old, or that nobody knows how old, and returns the exit status.
fn tell_old<R: Eprint>(rt: &R, place: &str, age: Option<u64>) -> u8
    ensures { result ≡ 1 }
{
    match age {
        Some(seconds) => {
            let _ = eprintln!(rt;
                "{place}: tables_file is {seconds} seconds old, more than 30: nothing is sent"
            );
            1
        }
        None => tell(
            rt,
            place,
            "the age of tables_file is not known: nothing is sent",
        ),
    }
}

/// The text of recent tables at a path. If there is none, it reports why, and returns the exit
/// status.
fn recent_tables<R: Files + Clock + Eprint>(
    rt: &R,
    alloc: Global,
    place: &str,
) -> Result<Vec<u8>, u8> {
    let Ok(tables) = load_tables(rt, alloc, place) else {
        return Err(1);
    };
    let age = age_of(rt, place);
    if age.is_some_and(are_recent) {
        Ok(tables)
    } else {
        Err(tell_old(rt, place, age))
    }
}

/// Sends what a router with this configuration takes back, by its tables.
fn say<R: Net>(
    rt: &R,
    alloc: Global,
    site: &RouterConfig,
    tables: &[u8],
) -> Result<(), FarewellFault> {
    let routes = routes_of_text(alloc, tables)?;
    let services = offers_of_text(alloc, tables)?;
    // A poller that watches nothing only waits.
    let nothing = UdpSockets::bind(rt, alloc, &[])?;
    let mut pauses = Poller::new(rt, alloc, &nothing)?;
    let mut told = told_ports(rt, alloc, &site.ports, &routes, &services)?;
    say_all(&mut told, &mut pauses)
}

/// Takes back what the router of a file that was loaded advertised.
fn farewell_of_site<R: Net + Files + Clock + Eprint>(
    rt: &R,
    alloc: Global,
    path: &str,
    site: &RouterConfig,
) -> u8
    ensures { result ≤ 1 }
{
    let Some(place) = &site.tables_file else {
        return tell(
            rt,
            path,
            "tables_file is missing: farewell reads what the router writes there",
        );
    };
    let Ok(tables) = recent_tables(rt, alloc, place.as_str()) else {
        return 1;
    };
    match say(rt, alloc, site, &tables) {
        Ok(()) => 0,
        Err(fault) => {
            let _ = eprintln!(rt; "{path}: {fault}");
            1
        }
    }
}

/// The command `farewell`: reads the file of a router that has stopped, and the tables that it wrote
/// last. It binds the places of the router's ports, and takes back there what the router advertised:
/// three times, in under a second for a usual site. Ports for ipxnet are left out.
///
/// Returns the exit status. 1: there are no complete tables of the last 30 seconds, a place is in
/// use, as it is while the router runs, or memory runs out. Nothing is sent then. Also 1: the system
/// does not wait; some packets may have been sent. 2: a fault of the router's file. A line on
/// standard error says what is wrong.
pub fn do_farewell<R: Net + Files + Clock + Eprint>(rt: &R, alloc: Global, path: &str) -> u8
    ensures few { result ≤ 2 }
{
    match load_site(rt, alloc, path) {
        Ok(site) => farewell_of_site(rt, alloc, path, &site),
        Err(status) => status,
    }
}
