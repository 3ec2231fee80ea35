//! Whether a frame is forwarded from one remote to others, and its addresses.

ghost use Rattle.std.specs.Prelude.{◌≡◌, ◌==◌, IfSome, is_some, length};
ghost use Rattle.ipx_ethernet.specs.Frame;
ghost use Rattle.ipx_ethernet.specs.Heard.{may_be_station, may_pass, move_by, passed_with, station_from, station_to, stations_from, way_between};

use crate::egress::{Egress, flood_except};
use crate::mac_table::{MacTable, Station};
use crate::notices::StationMove;
use crate::stations::stations_of;
use ipx_wire::Node;

/// The longest frame that is forwarded, in bytes: a full frame of 1,514 with a tag of 802.1Q and
/// its check sequence.
pub const MAX_FORWARDED_SIZE: usize = 1522;

/// The size of the addresses and the length or type.
const HEADER_SIZE: usize = 14;

/// The destination and the source of a frame that may be forwarded.
pub fn addresses_of(bytes: &[u8]) -> Option<(Node, Node)>
    ensures to { IfSome result (λ r. r.0 ≡ station_to bytes.now) }
    ensures from { IfSome result (λ r. r.1 ≡ station_from bytes.now) }
    ensures passes { is_some result ≡ may_pass (length bytes.now) }
{
    if bytes.len() < HEADER_SIZE || bytes.len() > MAX_FORWARDED_SIZE {
        return None;
    }
    match stations_of(&bytes[..HEADER_SIZE]) {
        Ok(stations) => Some(stations),
        Err(_) => None,
    }
}

/// Whether an address is a group's.
pub fn is_group(node: Node) -> bool
    ensures { result ≡ Frame.is_group node.0 }
{
    node.0[0] % 2 == 1
}

/// Whether a station at a remote may have an address.
fn may_be_there(own: Node, node: Node) -> bool
    ensures { result ≡ may_be_station own node }
{
    !(is_group(node) || node == Node([0; 6]) || node == own)
}

/// A frame came from a remote. If a station may have its source address, that is known there from
/// now on.
pub fn learn(stations: &mut MacTable, own: Node, from: Node, end: usize, now: u64)
    ensures { stations.new ≡ stations_from own from end now stations.old }
{
    if may_be_there(own, from) {
        stations.put(Station {
            node: from,
            end,
            moment: now,
        });
    }
}

/// The move of a frame's source address, if a station may have it.
pub fn move_by(
    stations: &MacTable,
    own: Node,
    from: Node,
    end: usize,
    now: u64,
) -> Option<StationMove>
    ensures { result ≡ move_by own from end now stations.now }
{
    if !may_be_there(own, from) {
        return None;
    }
    stations.move_of(from, end, now)
}

/// Where a frame from a remote is forwarded, if its destination is known at a remote, or not known.
pub fn forwarding_decision(
    own: Node,
    to: Node,
    from: Node,
    end: usize,
    place: Option<usize>,
) -> Egress
    ensures { result ≡ way_between own to from end place }
{
    if from == own || to == own {
        return Egress::Nowhere;
    }
    flood_except(end, place)
}

/// Counts a frame if it is to be forwarded.
pub fn count_passed(passed: &mut u64, onward: Egress)
    ensures { passed.new ≡ passed_with onward passed.old }
{
    match onward {
        Egress::Nowhere => {}
        Egress::ToOne(_) | Egress::ToAll | Egress::ToOthers(_) => {
            *passed = passed.saturating_add(1);
        }
    }
}
