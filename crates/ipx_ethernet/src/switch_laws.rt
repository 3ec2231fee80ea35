//! Laws of a switch, which follow from its definition.

ghost use Rattle.std.specs.Prelude.{◌≡◌, ◌<◌, ◌≤◌, ◌+◌, ◌==◌, ℕ, List, ◌∷◌, None, Some, true, false, find, length, take};
ghost use Rattle.std.specs.Str.{bytes_eq};
ghost use Rattle.ipx_wire.specs.declared.address.Node.{Node};
ghost use Rattle.ipx_ethernet.specs.declared.mac_table.Station.{Station};
ghost use Rattle.ipx_ethernet.specs.Heard.{SwitchView, apart_from_notices, switch_passing, may_be_station, may_pass, station_from, station_to, way_after};
ghost use Rattle.ipx_ethernet.specs.SwitchEnds.{end_of_station, is_at, is_way_to, max_stations, ageing_time};

/// Two frames with the same addresses are forwarded to the same remotes, and leave the switch the
/// same apart from what it noticed, whatever follows the addresses.
pub fn frames_go_on_whatever_they_hold()
    ensures ends { (h : SwitchView) (bytes other : List ℕ) (end now : ℕ) → take 12 bytes ≡ take 12 other
        → may_pass (length bytes) ≡ true → may_pass (length other) ≡ true
        → way_after (switch_passing h bytes end now) bytes end now
        ≡ way_after (switch_passing h other end now) other end now }
    ensures switch { (h : SwitchView) (bytes other : List ℕ) (end now : ℕ) → take 12 bytes ≡ take 12 other
        → may_pass (length bytes) ≡ true → may_pass (length other) ≡ true
        → apart_from_notices (switch_passing h bytes end now)
        ≡ apart_from_notices (switch_passing h other end now) }
{}

/// These hold if remotes are joined, for a frame between two stations other than the port. If its
/// destination is not known, it goes to each remote except the one that it came from. If its
/// destination is known at another remote, it goes to exactly that one.
pub fn frames_go_where_they_are_for()
    ensures unknown { (h : SwitchView) (bytes : List ℕ) (end now other : ℕ) → h.joined ≡ true
        → may_pass (length bytes) ≡ true
        → bytes_eq (station_from bytes).0 h.port.own.0 ≡ false
        → bytes_eq (station_to bytes).0 h.port.own.0 ≡ false
        → end_of_station (station_to bytes) now (switch_passing h bytes end now).stations ≡ None
        → (end == other) ≡ false
        → is_way_to (way_after (switch_passing h bytes end now) bytes end now) other ≡ true }
    ensures known { (h : SwitchView) (bytes : List ℕ) (end now place other : ℕ) → h.joined ≡ true
        → may_pass (length bytes) ≡ true
        → bytes_eq (station_from bytes).0 h.port.own.0 ≡ false
        → bytes_eq (station_to bytes).0 h.port.own.0 ≡ false
        → end_of_station (station_to bytes) now (switch_passing h bytes end now).stations ≡ Some place
        → (place == end) ≡ false
        → is_way_to (way_after (switch_passing h bytes end now) bytes end now) other ≡ (place == other) }
{}

/// If a station may have the source address of a frame, it is known at the frame's remote from that
/// time on. It is known for five minutes and no longer, and not before that time.
pub fn station_is_known_where_it_was_heard()
    ensures known { (h : SwitchView) (bytes : List ℕ) (end heard now : ℕ) → may_pass (length bytes) ≡ true
        → may_be_station h.port.own (station_from bytes) ≡ true
        → heard ≤ now → now < heard + ageing_time
        → end_of_station (station_from bytes) now (switch_passing h bytes end heard).stations ≡ Some end }
    ensures old { (h : SwitchView) (bytes : List ℕ) (end heard now : ℕ) → may_pass (length bytes) ≡ true
        → may_be_station h.port.own (station_from bytes) ≡ true
        → heard + ageing_time ≤ now
        → end_of_station (station_from bytes) now (switch_passing h bytes end heard).stations ≡ None }
    ensures before { (h : SwitchView) (bytes : List ℕ) (end heard now : ℕ) → may_pass (length bytes) ≡ true
        → may_be_station h.port.own (station_from bytes) ≡ true
        → now < heard
        → end_of_station (station_from bytes) now (switch_passing h bytes end heard).stations ≡ None }
{}

/// Other stations than the sender of a frame stay known as they were, if there is room or the
/// sender was in the table. Otherwise all stay except the first, which was heard longest ago.
pub fn other_stations_are_known_still()
    ensures room { (h : SwitchView) (bytes : List ℕ) (end heard : ℕ) (other : Node) (now : ℕ)
        → bytes_eq (station_from bytes).0 other.0 ≡ false → length h.stations < max_stations
        → end_of_station other now (switch_passing h bytes end heard).stations
        ≡ end_of_station other now h.stations }
    ensures full { (h : SwitchView) (bytes : List ℕ) (end heard : ℕ) (other : Node) (now : ℕ)
        (first : Station) (rest : List Station) → h.stations ≡ first ∷ rest
        → bytes_eq (station_from bytes).0 other.0 ≡ false → length h.stations ≤ max_stations
        → bytes_eq first.node.0 other.0 ≡ false
        → end_of_station other now (switch_passing h bytes end heard).stations
        ≡ end_of_station other now h.stations }
    ensures again { (h : SwitchView) (bytes : List ℕ) (end heard : ℕ) (other : Node) (now : ℕ) (before : Station)
        → find (is_at (station_from bytes)) h.stations ≡ Some before
        → bytes_eq (station_from bytes).0 other.0 ≡ false → length h.stations ≤ max_stations
        → end_of_station other now (switch_passing h bytes end heard).stations
        ≡ end_of_station other now h.stations }
{}
