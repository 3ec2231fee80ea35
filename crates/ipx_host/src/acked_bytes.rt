//! How much of what was sent is acknowledged.

ghost use Rattle.std.specs.Prelude.{◌≡◌, ◌<◌, ◌≤◌, ◌+◌, ◌-◌, ◌^◌, ℕ, List, [], ◌∷◌, ◌++◌, OnErr, OnOk, false, length, sum, true};
ghost use Rattle.spx_link.specs.SequenceMarks.{distance};
ghost use Rattle.spx_messages.specs.Cut.{cut_of};
ghost use Rattle.ipx_carrier.specs.Counting.{counted};
ghost use Rattle.ipx_host.specs.AckedBytes.{CountsAcknowledged, IsFirstOpen, all_units, base_of, bytes_acknowledged, units_in};

use ipx_wire::SPX_MAX_DATA_SIZE;
use spx_link::Numbers;
use std::alloc::{AllocError, Global};
use std::collections::VecDeque;

/// The number of bytes of a unit that does not end a message.
const UNIT: u64 = SPX_MAX_DATA_SIZE as u64;

/// Returns the number of units in a message of this length in bytes.
fn units_of(bytes: u64) -> u64
    ensures value { result ≡ units_in bytes }
    // The message is cut into that many units.
    ensures cut { (body : List ℕ) → length body ≡ bytes
        → length (cut_of (record { stream = 0; body = body })) ≡ result }
{
    bytes.div_ceil(UNIT).max(1)
}

/// The messages that were queued, and how much of them is acknowledged.
#[derive(Drop)]
pub struct Ledger {
    /// The sequence number before which everything is acknowledged.
    base: u16,
    /// The lengths of the messages that are not fully acknowledged, in order.
    messages: VecDeque<u64>,
    /// How many units of the first of them are acknowledged.
    units: u64,
    /// How many units are not acknowledged.
    ahead: u64,
    /// The total length of the messages that are fully acknowledged.
    whole: u64,
    /// The total length of all messages queued.
    given: u64,
    ghost all: { given ≡ counted (whole + sum messages.items) },
}

impl Ledger {
    /// Creates an empty ledger: nothing was queued yet.
    pub fn new(alloc: Global) -> Ledger
        ensures given { result.given ≡ 0 }
        ensures ahead { result.ahead ≡ 0 }
        ensures base { result.base ≡ 0 }
        ensures counts { CountsAcknowledged [] 0 result.messages.items result.units result.whole }
        ensures first { IsFirstOpen result.messages.items result.units }
    {
        Ledger {
            base: 0,
            messages: VecDeque::new(alloc),
            units: 0,
            ahead: 0,
            whole: 0,
            given: 0,
        }
    }

    /// Adds a message of this length in bytes.
    pub fn add(&mut self, bytes: u64) -> Result<(), AllocError>
        ensures given { OnOk result (self.new.given ≡ counted (self.old.given + bytes)) }
        ensures ahead { OnOk result (self.new.ahead ≡ counted (self.old.ahead + units_in bytes)) }
        ensures base { self.new.base ≡ self.old.base }
        // The message comes after those that were queued before.
        ensures counts { OnOk result ((given : List ℕ) (units : ℕ)
            → CountsAcknowledged given units self.old.messages.items self.old.units self.old.whole
            → CountsAcknowledged (given ++ bytes ∷ []) units
            self.new.messages.items self.new.units self.new.whole) }
        // This needs that no more units were acknowledged than were queued.
        ensures first { OnOk result ((given : List ℕ) (units : ℕ)
            → CountsAcknowledged given units self.old.messages.items self.old.units self.old.whole
            → units ≤ all_units given → IsFirstOpen self.old.messages.items self.old.units
            → IsFirstOpen self.new.messages.items self.new.units) }
        ensures refused { OnErr result
            ((self.new.given ≡ self.old.given) × (self.new.ahead ≡ self.old.ahead)
            × (self.new.messages.items ≡ self.old.messages.items)
            × (self.new.units ≡ self.old.units) × (self.new.whole ≡ self.old.whole)) }
    {
        self.messages.push_back(bytes)?;
        self.ahead = self.ahead.saturating_add(units_of(bytes));
        self.given = self.given.saturating_add(bytes);
        Ok(())
    }

    /// Updates the ledger from the current numbers of the link.
    pub fn acknowledge(&mut self, numbers: Numbers)
        ensures base { self.new.base ≡ base_of numbers }
        // `ahead` decreases by the number of units that the numbers advanced.
        ensures ahead { self.new.ahead
            ≡ self.old.ahead - distance (base_of numbers) self.old.base }
        ensures given { self.new.given ≡ self.old.given }
        // The newly acknowledged units come from everything that was queued.
        ensures counts { (given : List ℕ) (units : ℕ)
            → CountsAcknowledged given units self.old.messages.items self.old.units self.old.whole
            → units + distance (base_of numbers) self.old.base < 2 ^ 64
            → CountsAcknowledged given (units + distance (base_of numbers) self.old.base)
            self.new.messages.items self.new.units self.new.whole }
        // Each message whose units are all acknowledged is removed.
        ensures first { IsFirstOpen self.old.messages.items self.old.units
            → IsFirstOpen self.new.messages.items self.new.units }
    {
        let base = numbers.next.wrapping_sub(numbers.out);
        let count = u64::from(base.wrapping_sub(self.base));
        self.base = base;
        self.ahead = self.ahead.saturating_sub(count);
        self.units = self.units.saturating_add(count);
        for _ in 0..count {
            if !self.close_first() {
                break;
            }
        }
    }

    /// Removes the first message if all its units are acknowledged.
    fn close_first(&mut self) -> bool
        ensures base { self.new.base ≡ self.old.base }
        ensures ahead { self.new.ahead ≡ self.old.ahead }
        ensures given { self.new.given ≡ self.old.given }
        ensures closed { result ≡ true → (bytes : ℕ)
            × (self.old.messages.items ≡ bytes ∷ self.new.messages.items)
            × (self.old.units ≡ units_in bytes + self.new.units)
            × (self.new.whole ≡ counted (self.old.whole + bytes)) }
        ensures first { result ≡ false → (self.new ≡ self.old)
            × IsFirstOpen self.old.messages.items self.old.units }
    {
        let Some(bytes) = self.messages.front().copied() else {
            return false;
        };
        let units = units_of(bytes);
        if self.units < units {
            return false;
        }
        self.units -= units;
        self.whole = self.whole.saturating_add(bytes);
        self.messages.pop_front();
        true
    }

    /// Returns the number of units that were queued and are not acknowledged.
    pub fn ahead(&self) -> u64
        ensures { result ≡ self.now.ahead }
    {
        self.ahead
    }

    /// Returns the number of bytes that are acknowledged.
    pub fn acknowledged(&self) -> u64
        ensures most { result ≤ self.now.given }
        ensures least { self.now.whole ≤ result }
        // The count is exact while the first remaining message is not fully acknowledged.
        ensures exact { (given : List ℕ) (units : ℕ)
            → CountsAcknowledged given units self.now.messages.items self.now.units self.now.whole
            → IsFirstOpen self.now.messages.items self.now.units
            → result ≡ counted (bytes_acknowledged given units) }
    {
        let begun = match self.messages.front() {
            Some(bytes) => self.units.saturating_mul(UNIT).min(*bytes),
            None => 0,
        };
        self.whole.saturating_add(begun)
    }

    /// Returns the number of bytes that were queued.
    pub fn given(&self) -> u64
        ensures { result ≡ self.now.given }
    {
        self.given
    }
}
