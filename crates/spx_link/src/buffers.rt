//! The receive buffers of a link: the units that were received and not taken.

ghost use Rattle.std.specs.Prelude.{◌≡◌, ◌+◌, ◌++◌, ◌≤◌, ◌<◌, [], ◌∷◌, drop, length, option_copied, slice_get};
ghost use Rattle.std.specs.Prelude.{take, IfOk, Some};
ghost use Rattle.circular_buffer.specs.Buffer.{buffer};
ghost use Rattle.spx_link.specs.Buffers as spec;
ghost use Rattle.spx_link.specs.Buffers.{BuffersView, IsLaid, there};
ghost use Rattle.spx_link.specs.Offer.{first_of};
ghost use Rattle.spx_link.specs.Receive as R;
ghost use Rattle.spx_link.specs.Units.{unit_in};

use crate::limits::END_STREAM;
use crate::place::Place;
use crate::unit::Unit;
use circular_buffer::HeapCircularBuffer;
use ipx_wire::{Fragment, SPX_MAX_DATA_SIZE, SpxHeader};
use std::alloc::{AllocError, Global};
use std::marker::Model;

/// The units that were received and not taken, in one ring that is allocated with the link.
///
/// The first `count` places hold the units in order. After them come the units that were received
/// ahead of a missing one, with None at a gap.
#[derive(Drop)]
pub struct Buffers {
    ring: HeapCircularBuffer<Place>,
    count: u16,
    size: u16,
}

impl Model for Buffers {
    ghost Value = { BuffersView };

    ghost view = { λ b. record {
      held = there (take b.count b.ring.items);
      ahead = drop b.count b.ring.items;
      size = b.size;
    } };

    ghost invariant = { λ b. IsLaid b.ring.items b.ring.capacity b.count b.size };
}

/// How many units became held, and whether the last of them is the peer's end.
#[derive(Clone, Copy)]
pub struct Risen {
    pub count: u16,
    pub ended: bool,
}

impl Buffers {
    /// A ring of `size` buffers, all of them empty.
    pub fn new(alloc: Global, size: u16) -> Result<Buffers, AllocError>
        ensures { IfOk result (λ b. b ≡ record { held = []; ahead = []; size = size }) }
    {
        let ring = HeapCircularBuffer::with_capacity(alloc, usize::from(size))?;
        Ok(Buffers {
            ring,
            count: 0,
            size,
        })
    }

    /// The number of buffers.
    pub fn size(&self) -> u16
        ensures { result ≡ self.now.size }
    {
        self.size
    }

    /// The number of units held.
    pub fn held(&self) -> u16
        ensures value { result ≡ length self.now.held }
        ensures within { length self.now.held + length self.now.ahead ≤ self.now.size }
    {
        self.count
    }

    /// How many more units may be held.
    pub fn left(&self) -> u16
        ensures { result ≡ spec.left self.now }
    {
        self.size - self.count
    }

    /// The number of units that are kept ahead of a missing one.
    pub fn ahead(&self) -> usize
        ensures { result ≡ length (there self.now.ahead) }
    {
        count_from(&self.ring, usize::from(self.count))
    }

    /// Whether the place has a unit, counted from the expected one.
    pub fn is_taken(&self, place: u16) -> bool
        ensures { result ≡ R.is_taken place self.now.ahead }
    {
        let place = usize::from(self.count) + usize::from(place);
        unit_at(&self.ring, place).is_some()
    }

    /// Stores the unit of a packet at a place, counted from the expected one.
    pub fn put(&mut self, place: u16, header: &SpxHeader, body: &[u8])
        requires room { place < spec.left self.old }
        requires fits { length body.now ≤ 534 }
        ensures { self.new
            ≡ record self.old { ahead = R.put place (unit_in header.now body.now) self.old.ahead } }
    {
        let place = usize::from(self.count) + usize::from(place);
        put_packet(&mut self.ring, place, header, body);
    }

    /// Holds the units that are now in order.
    pub fn settle(&mut self) -> Risen
        ensures count { result.count ≡ length (R.leading self.old.ahead) }
        ensures ended { result.ended ≡ R.any_end (R.leading self.old.ahead) }
        ensures leaves { self.new ≡ spec.held_in_order self.old }
    {
        let risen = leading(&self.ring, usize::from(self.count));
        self.count += risen.count;
        if risen.ended {
            self.ring.truncate_back(usize::from(self.count));
        }
        risen
    }

    /// The first unit held.
    pub fn first(&self) -> Option<&Unit>
        ensures { option_copied result ≡ first_of self.now.held }
    {
        match self.ring.front() {
            Some(place) if self.count > 0 => place.get(),
            _ => None,
        }
    }

    /// Takes the first unit held.
    pub fn take(&mut self) -> Option<Unit>
        ensures gives { result ≡ first_of self.old.held }
        ensures leaves { self.new ≡ record self.old { held = drop 1 self.old.held } }
    {
        if self.count == 0 {
            return None;
        }
        self.count -= 1;
        match self.ring.pop_front() {
            Some(place) => place.into_unit(),
            None => None,
        }
    }

    /// Drops the first unit held, without a copy.
    pub fn drop_first(&mut self)
        ensures { self.new ≡ record self.old { held = drop 1 self.old.held } }
    {
        if self.count == 0 {
            return;
        }
        self.count -= 1;
        self.ring.truncate_front(self.ring.len() - 1);
    }
}

/// The unit at a place.
fn unit_at(ring: &HeapCircularBuffer<Place>, place: usize) -> Option<&Unit>
    ensures { option_copied result ≡ spec.unit_there (slice_get ring.now.items place) }
{
    match ring.get(place) {
        Some(place) => place.get(),
        None => None,
    }
}

/// The number of units from a place on.
fn count_from(ring: &HeapCircularBuffer<Place>, from: usize) -> usize
    ensures { result ≡ length (there (drop from ring.now.items)) }
{
    let mut count = 0;
    for place in from..ring.len() {
        if unit_at(ring, place).is_some() {
            count += 1;
        }
    }
    count
}

/// The units from a place on, up to the first gap or an end.
fn leading(ring: &HeapCircularBuffer<Place>, from: usize) -> Risen
    requires { length ring.now.items < from + 65536 }
    ensures count { result.count ≡ length (R.leading (drop from ring.now.items)) }
    ensures ended { result.ended ≡ R.any_end (R.leading (drop from ring.now.items)) }
{
    let mut count = 0;
    for place in from..ring.len() {
        let Some(unit) = unit_at(ring, place) else {
            return Risen {
                count,
                ended: false,
            };
        };
        count += 1;
        if unit.stream == END_STREAM {
            return Risen { count, ended: true };
        }
    }
    Risen {
        count,
        ended: false,
    }
}

/// Appends the unit of a packet: zeroes, then its body over them.
fn push_shorter(ring: &mut HeapCircularBuffer<Place>, header: &SpxHeader, body: &[u8])
    requires room { length ring.old.items < ring.old.capacity }
    requires fits { length body.now ≤ 534 }
    ensures { ring.new
        ≡ buffer (ring.old.items ++ Some (unit_in header.now body.now) ∷ []) ring.old.capacity }
{
    let place = ring.len();
    let _full = ring.try_push_back(Place::blank(header));
    if let Some(slot) = ring.get_mut(place) {
        slot.copy_body(header, body);
    }
}

/// Appends the unit of a packet. A body of the longest size, 534 bytes, is written once, with no
/// zeroes first.
fn push_packet(ring: &mut HeapCircularBuffer<Place>, header: &SpxHeader, body: &[u8])
    requires room { length ring.old.items < ring.old.capacity }
    requires fits { length body.now ≤ 534 }
    ensures { ring.new
        ≡ buffer (ring.old.items ++ Some (unit_in header.now body.now) ∷ []) ring.old.capacity }
{
    match body.split_first_chunk::<SPX_MAX_DATA_SIZE>() {
        Some((whole, _)) if header.stream != END_STREAM => {
            let _full = ring.try_push_back(Place::of(Unit {
                stream: header.stream,
                last: header.last,
                body: Fragment::from_array_in((), *whole),
            }));
        }
        _ => push_shorter(ring, header, body),
    }
}

/// Stores the unit of a packet at a place. If the ring is too short, gaps lead up to it.
fn put_packet(ring: &mut HeapCircularBuffer<Place>, place: usize, header: &SpxHeader, body: &[u8])
    requires place { place < ring.old.capacity }
    requires fits { length body.now ≤ 534 }
    ensures { ring.new
        ≡ buffer (R.put place (unit_in header.now body.now) ring.old.items) ring.old.capacity }
{
    if place == ring.len() {
        push_packet(ring, header, body);
    } else {
        put_elsewhere(ring, place, header, body);
    }
}

/// Stores the unit of a packet at an existing place, or appends it after gaps.
fn put_elsewhere(
    ring: &mut HeapCircularBuffer<Place>,
    place: usize,
    header: &SpxHeader,
    body: &[u8],
)
    requires place { place < ring.old.capacity }
    requires fits { length body.now ≤ 534 }
    ensures { ring.new
        ≡ buffer (R.put place (unit_in header.now body.now) ring.old.items) ring.old.capacity }
{
    for count in ring.len()..place + 1 {
        let _now = count;
        let _full = ring.try_push_back(Place::gap());
    }
    if let Some(slot) = ring.get_mut(place) {
        slot.fill(header, body);
    }
}
