//! The stations of an Ethernet segment, with the remote at which each was last heard.

ghost use Rattle.std.specs.Prelude.{◌≡◌, ◌≤◌, ◌<◌, ◌+◌, ◌-◌, [], List, IfOk, drop, length, filter, find, not, option_copied};
ghost use Rattle.std.specs.Vec.{vec_capacity, vec_len};
ghost use Rattle.ipx_ethernet.specs.SwitchEnds.{end_of_station, is_at, max_stations, move_of, stations_with};

use crate::notices::StationMove;
use ipx_wire::Node;
use std::alloc::{AllocError, Global};
use std::marker::Model;

/// How many stations are known at most.
pub const MAX_STATIONS: usize = 1024;

/// For how many milliseconds a station is known after its last frame.
pub const AGEING_TIME_MS: u64 = 300_000;

/// A station that is heard at two remotes within so many milliseconds has moved too fast.
const MOVING_TIME_MS: u64 = 1000;

/// A station that was heard.
#[derive(Clone, Copy, Debug, PartialEq, Eq)]
pub struct Station {
    /// Its address.
    pub node: Node,
    /// The remote that its last frame came from.
    pub end: usize,
    /// The time of that, in ms.
    pub moment: u64,
}

/// The stations that were heard, in the order in which they were last heard.
#[derive(Drop)]
pub struct MacTable {
    known: Vec<Station>,
}

impl Model for MacTable {
    ghost use Rattle.std.specs.Prelude.{List, ◌≡◌, ◌≤◌, length};
    ghost use Rattle.std.specs.Vec.{vec_capacity};
    ghost use Rattle.ipx_ethernet.specs.SwitchEnds.{max_stations};
    ghost use Rattle.ipx_ethernet.specs.declared.mac_table.Station.{Station};

    ghost Value = { List Station };

    ghost view = { λ s. s.known.items };

    ghost invariant = { λ s. (length s.known.items ≤ max_stations)
        × (vec_capacity s.known ≡ max_stations) };
}

/// Removes the station of an address.
fn forget(known: &mut Vec<Station>, node: Node)
    ensures items { known.new.items ≡ filter (λ k. not (is_at node k)) known.old.items }
    ensures fewer { vec_len known.new ≤ vec_len known.old }
    ensures capacity { vec_capacity known.new ≡ vec_capacity known.old }
{
    known.retain(|known| known.node != node);
}

/// Removes the station that was heard longest ago, if there is no room for another.
fn make_space(known: &mut Vec<Station>)
    requires { vec_len known.old ≤ max_stations }
    ensures items { known.new.items
        ≡ drop (length known.old.items + 1 - max_stations) known.old.items }
    ensures room { vec_len known.new < max_stations }
    ensures capacity { vec_capacity known.new ≡ vec_capacity known.old }
{
    if known.len() == MAX_STATIONS {
        known.remove(0);
    }
}

/// The station of an address.
fn station_of(known: &[Station], node: Node) -> Option<&Station>
    ensures { option_copied result ≡ find (is_at node) known.now }
{
    known.iter().find(|known| known.node == node)
}

impl MacTable {
    /// No stations yet. This takes the memory for all of them.
    pub fn new(alloc: Global) -> Result<MacTable, AllocError>
        ensures { IfOk result (λ s. s ≡ []) }
    {
        let known = Vec::with_capacity(alloc, MAX_STATIONS)?;
        Ok(MacTable { known })
    }

    /// The stations, in the order in which they were last heard.
    pub fn all(&self) -> &[Station]
        ensures { result.now ≡ self.now }
    {
        &self.known
    }

    /// A station was heard. If there are too many, the one heard longest ago is removed.
    pub fn put(&mut self, station: Station)
        ensures { self.new ≡ stations_with station self.old }
    {
        forget(&mut self.known, station.node);
        make_space(&mut self.known);
        let last = self.known.len();
        self.known.insert(last, station).unwrap();
    }

    /// The remote at which a station is known.
    pub fn end_of(&self, node: Node, now: u64) -> Option<usize>
        ensures { result ≡ end_of_station node now self.now }
    {
        let station = station_of(&self.known, node)?;
        let age = now.checked_sub(station.moment)?;
        if age >= AGEING_TIME_MS {
            return None;
        }
        Some(station.end)
    }

    /// Says if a station that is now heard at a remote was at another one less than a second ago.
    pub fn move_of(&self, node: Node, end: usize, now: u64) -> Option<StationMove>
        ensures { result ≡ move_of node end now self.now }
    {
        let station = station_of(&self.known, node)?;
        let age = now.checked_sub(station.moment)?;
        if age >= MOVING_TIME_MS || station.end == end {
            return None;
        }
        Some(StationMove {
            node,
            before: station.end,
            after: end,
        })
    }
}
