//! Delivery of parcels to the places that they reach.

ghost use Rattle.std.specs.Prelude.{◌≡◌, ◌==◌, ◌||◌, [], OnOk, false, option_map, slice_index_or, ℕ};
ghost use Rattle.ipx_net.specs.Parcels.{parcel_view, place_view};
ghost use Rattle.ipx_sim.specs.Act.{outcome_view};
ghost use Rattle.ipx_sim.specs.ScriptDoing.{DoesEach};
ghost use Rattle.ipx_sim.specs.Delivering.{DeliversAll, DeliversNew, DeliversParcelTo, Marks, comes_to, delivered_view, is_due_parcel, is_delivered, is_sender, reached_of};

use crate::acting::step;
use crate::names::ScriptTarget;
use crate::stop::LineFault;
use ipx_net::{Answer, Event, Net, NetFault, Parcel, Place};
use ipx_wire::Node;
use std::alloc::{AllocError, Global};

/// Which parcels were delivered. Rounds are done with all parcels below a number, so that none of
/// these is looked at again.
#[derive(Drop)]
pub struct Delivered {
    below: usize,
    marks: Vec<bool>,
}

/// Sets a mark. Each mark before it that does not exist yet becomes false.
fn mark_at(marks: &mut Vec<bool>, place: usize) -> Result<(), AllocError>
    ensures { OnOk result ((k : ℕ) → slice_index_or marks.new.items k false
        ≡ (slice_index_or marks.old.items k false || (k == place))) }
{
    for _ in marks.len()..place {
        marks.push(false)?;
    }
    if place < marks.len() {
        marks[place] = true;
        return Ok(());
    }
    marks.push(true)?;
    Ok(())
}

impl Delivered {
    /// No parcel was delivered.
    pub fn new(alloc: Global) -> Delivered
        ensures { delivered_view result ≡ record { below = 0; marks = [] } }
    {
        Delivered {
            below: 0,
            marks: Vec::new(alloc),
        }
    }

    /// A parcel was delivered. It must exist.
    pub fn mark(&mut self, parcel: usize) -> Result<(), AllocError>
        ensures { OnOk result (Marks parcel (delivered_view self.old) (delivered_view self.new)) }
    {
        if parcel < self.below {
            return Ok(());
        }
        mark_at(&mut self.marks, parcel)
    }

    /// Whether a parcel was delivered by a `deliver` line.
    fn is_delivered(&self, parcel: usize) -> bool
        ensures { result ≡ is_delivered (delivered_view self.now) parcel }
    {
        self.marks.get(parcel).copied() == Some(true)
    }
}

/// Whether a place sent a parcel.
fn is_sender(sent_by: Option<Place>, place: Place) -> bool
    ensures { result ≡ is_sender (option_map place_view sent_by) place }
{
    match sent_by {
        Some(sender) => sender == place,
        None => false,
    }
}

/// Whether a parcel reaches a place of its network: the place of its next node, or, for a
/// broadcast, each except its sender's.
fn comes_to(parcel: &Parcel, spot: &ScriptTarget) -> bool
    ensures { result ≡ comes_to (parcel_view parcel.now) spot.now }
{
    if parcel.segment != spot.network {
        return false;
    }
    if parcel.next == Node::BROADCAST {
        return !is_sender(parcel.sent_by, spot.place);
    }
    parcel.next == spot.node
}

/// Whether the parcel with this number reaches a place.
fn is_due_parcel(net: &Net, parcel: usize, spot: &ScriptTarget) -> bool
    ensures { result ≡ is_due_parcel net.now parcel spot.now }
{
    match net.parcels().get(parcel) {
        Some(parcel) => comes_to(parcel, spot),
        None => false,
    }
}

/// Whether a delivery took place.
fn reached(outcome: Result<Answer, NetFault>) -> Result<bool, LineFault>
    ensures { result ≡ reached_of (outcome_view outcome) }
{
    let _answer = outcome?;
    Ok(true)
}

/// Delivers a parcel to a place if it reaches it, and returns whether it does.
fn deliver_to(
    alloc: Global,
    net: &mut Net,
    spot: &ScriptTarget,
    parcel: usize,
) -> Result<bool, LineFault>
    ensures { DeliversParcelTo parcel spot.now net.old result net.new }
{
    if !is_due_parcel(net, parcel, spot) {
        return Ok(false);
    }
    let place = spot.place;
    reached(step(alloc, net, Event::Deliver { parcel, place }))
}

/// Delivers a parcel to each place that it reaches, and returns whether there was one.
fn deliver_one(
    alloc: Global,
    net: &mut Net,
    spots: &[ScriptTarget],
    parcel: usize,
) -> Result<bool, LineFault>
    ensures { DoesEach (DeliversParcelTo parcel) spots.now net.old result net.new }
{
    let mut any = false;
    for spot in spots {
        any |= deliver_to(alloc, net, spot, parcel)?;
    }
    Ok(any)
}

/// Delivers a parcel as `deliver_one` does, unless it was delivered already.
fn deliver_unless(
    alloc: Global,
    net: &mut Net,
    spots: &[ScriptTarget],
    parcel: usize,
    delivered: &Delivered,
) -> Result<bool, LineFault>
    ensures { DeliversNew (delivered_view delivered.now) spots.now parcel net.old result net.new }
{
    if delivered.is_delivered(parcel) {
        return Ok(false);
    }
    deliver_one(alloc, net, spots, parcel)
}

/// Delivers each parcel that was never delivered, in order of number, including those that are made
/// meanwhile. Returns whether one was delivered.
pub fn deliver_all(
    alloc: Global,
    net: &mut Net,
    spots: &[ScriptTarget],
    delivered: &mut Delivered,
) -> Result<bool, LineFault>
    ensures { DeliversAll spots.now
        (record { net = net.old; delivered = delivered_view delivered.old }) result
        (record { net = net.new; delivered = delivered_view delivered.new }) }
{
    let mut any = false;
    while delivered.below < net.parcels().len() {
        let parcel = delivered.below;
        any |= deliver_unless(alloc, net, spots, parcel, delivered)?;
        delivered.below = parcel + 1;
    }
    Ok(any)
}
