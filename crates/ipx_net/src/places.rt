//! The indices of the units of each end among all units sent.

ghost use Rattle.std.specs.Prelude.{◌≡◌, ◌<◌, ◌==◌, ◌++◌, ℕ, List, [], ◌∷◌, OnErr, count_by, drop, length, map, take};
ghost use Rattle.spx_theory.specs.Scan.{times};
ghost use Rattle.ipx_net.specs.Places.{AreListed, list_of, places_from};

use crate::entry::Entry;
use std::alloc::{AllocError, Global};
use std::marker::Model;

/// A list for each end, by its number: the indices of its units among all units sent, in order. A
/// search in it counts the units of an end between two indices.
///
/// If a unit is missing, since its end has no list or memory ran out, the lists are not complete.
/// Units are then counted one by one.
#[derive(Drop)]
pub struct UnitPlaces {
    lists: Vec<Vec<usize>>,
    whole: bool,
}

impl Model for UnitPlaces {
    ghost use Rattle.std.specs.Prelude.{map};
    ghost use Rattle.ipx_net.specs.Places.{PlacesView};

    ghost Value = { PlacesView };

    ghost view = { λ p. record { lists = map (λ v. v.items) p.lists.items; whole = p.whole } };
}

impl UnitPlaces {
    /// Without ends and units.
    pub fn new(alloc: Global) -> UnitPlaces
        ensures { AreListed result [] }
    {
        UnitPlaces {
            lists: Vec::new(alloc),
            whole: true,
        }
    }

    /// Reserves space for the units and ends of these entries.
    pub fn reserve(&mut self, entries: &[Entry]) -> Result<(), AllocError>
        ensures same { self.new ≡ self.old }
        ensures refused { OnErr result (0 < length entries.now) }
    {
        self.lists.reserve(entries.len())?;
        for entry in entries {
            reserve_for(&mut self.lists, entry, entries.len())?;
        }
        Ok(())
    }

    /// Adds an end.
    pub fn open(&mut self)
        ensures { (sent : List ℕ) → AreListed self.old sent → AreListed self.new sent }
    {
        let list = Vec::new(*self.lists.allocator());
        if self.lists.push(list).is_err() {
            self.whole = false;
        }
    }

    /// Adds a unit that an end sends. Its index is the next one.
    pub fn add(&mut self, who: usize, place: usize)
        ensures { (sent : List ℕ) → length sent ≡ place → AreListed self.old sent
            → AreListed self.new (sent ++ who ∷ []) }
    {
        if who >= self.lists.len() || self.lists[who].push(place).is_err() {
            self.whole = false;
        }
    }

    /// How many units an end sent from index `from` on and before index `to`.
    pub fn between(&self, sent: &[usize], who: usize, from: usize, to: usize) -> usize
        requires { AreListed self.now sent.now }
        ensures { result ≡ times who (drop from (take to sent.now)) }
    {
        if !self.whole {
            return count_between(sent, who, from, to);
        }
        let list = self.list(who);
        places_below(list, to).saturating_sub(places_below(list, from))
    }

    /// The list of an end. It is empty for an end without a list.
    fn list(&self, who: usize) -> &[usize]
        ensures { result.now ≡ list_of self.now who }
    {
        match self.lists.get(who) {
            Some(list) => list,
            None => &[],
        }
    }
}

/// Reserves space in the list of the end of a unit, if it has one.
fn reserve_for(lists: &mut Vec<Vec<usize>>, entry: &Entry, more: usize) -> Result<(), AllocError>
    ensures { map (λ v. v.items) lists.new.items ≡ map (λ v. v.items) lists.old.items }
{
    if let Entry::Unit { who, .. } = entry {
        let end = *who;
        if end < lists.len() {
            return lists[end].reserve(more);
        }
    }
    Ok(())
}

/// How many indices of a list are below this one.
fn places_below(list: &[usize], place: usize) -> usize
    ensures { (sent : List ℕ) (e : ℕ) → list.now ≡ places_from 0 e sent
        → result ≡ times e (take place sent) }
{
    list.partition_point(|one| *one < place)
}

/// How many times an end occurs from index `from` on and before index `to`.
fn count_between(sent: &[usize], who: usize, from: usize, to: usize) -> usize
    ensures { result ≡ count_by (λ one. one == who) (drop from (take to sent.now)) }
{
    sent.iter()
        .take(to)
        .skip(from)
        .filter(|one| **one == who)
        .count()
}
