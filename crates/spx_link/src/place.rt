//! One place of the ring of a link's buffers.

ghost use Rattle.std.specs.Prelude.{◌≡◌, ◌≤◌, [], None, Some, length, option_copied};
ghost use Rattle.spx_link.specs.Units.{unit_in};

use crate::limits::END_STREAM;
use crate::unit::Unit;
use ipx_wire::{Fragment, SpxHeader};
use std::marker::Model;

/// A unit, or a gap.
///
/// The flag that says whether the unit is there follows the unit. If it came first, as in an
/// `Option`, it would be written before the unit, which is then copied twice.
#[derive(Drop)]
pub struct Place {
    unit: Unit,
    present: bool,
}

impl Model for Place {
    ghost use Rattle.std.specs.Prelude.{Option, None, Some, if◌then◌else◌};
    ghost use Rattle.spx_link.specs.declared.unit.Unit.{Unit};

    ghost Value = { Option Unit };

    ghost view = { λ p. if p.present then Some p.unit else None };
}

impl Place {
    /// A place that holds a unit.
    #[inline]
    pub fn of(unit: Unit) -> Place
        ensures { result ≡ Some unit }
    {
        Place {
            unit,
            present: true,
        }
    }

    /// A gap.
    pub fn gap() -> Place
        ensures { result ≡ None }
    {
        Place {
            unit: Unit {
                stream: 0,
                last: false,
                body: Fragment::new(),
            },
            present: false,
        }
    }

    /// The unit of a packet, without its body.
    #[inline]
    pub fn blank(header: &SpxHeader) -> Place
        ensures { result ≡ Some (unit_in header.now []) }
    {
        Place {
            unit: Unit {
                stream: header.stream,
                last: header.last,
                body: Fragment::new(),
            },
            present: true,
        }
    }

    /// The unit of the place.
    #[inline]
    pub fn get(&self) -> Option<&Unit>
        ensures { option_copied result ≡ self.now }
    {
        if self.present { Some(&self.unit) } else { None }
    }

    /// The unit that the place held.
    #[inline]
    pub fn into_unit(self) -> Option<Unit>
        ensures { result ≡ self }
    {
        let Place { unit, present } = self;
        if present { Some(unit) } else { None }
    }

    /// Copies the body of a packet to its unit. The body of an end is left out.
    #[inline]
    pub fn copy_body(&mut self, header: &SpxHeader, body: &[u8])
        requires fits { length body.now ≤ 534 }
        requires blank { self.old ≡ Some (unit_in header.now []) }
        ensures { self.new ≡ Some (unit_in header.now body.now) }
    {
        if header.stream == END_STREAM {
            return;
        }
        self.unit.body.try_extend_from_slice(body).unwrap();
    }

    /// Stores the unit of a packet, built in place. Its body is copied once, and the body of an end
    /// not at all.
    pub fn fill(&mut self, header: &SpxHeader, body: &[u8])
        requires { length body.now ≤ 534 }
        ensures { self.new ≡ Some (unit_in header.now body.now) }
    {
        *self = Place::blank(header);
        self.copy_body(header, body);
    }
}
