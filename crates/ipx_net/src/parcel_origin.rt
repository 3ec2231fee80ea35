//! The origin of a parcel.

ghost use Rattle.std.specs.Prelude.{◌≡◌, ◌≤◌, All, ℕ, map, slice_index_or};
ghost use Rattle.spx_theory.specs.Peers.{end_of};
ghost use Rattle.spx_theory.specs.Scan.{asker, nowhere};
ghost use Rattle.ipx_net.specs.Sights.{maker_view, mark_view};

/// The maker of a parcel that no router forwarded.
#[derive(Clone, Copy, Debug, PartialEq, Eq)]
pub enum Maker {
    /// An end, which sent a unit in it.
    ByUnit(usize),
    /// An end, which sent a packet without a unit.
    BySystem(usize),
    /// A router.
    ByRouter(usize),
    /// It was injected from outside.
    FromOutside,
}

impl Maker {
    /// The end that made it, with a unit or without.
    pub fn end(&self) -> Option<usize>
        ensures { result ≡ end_of (maker_view self.now) }
    {
        match self {
            Maker::ByUnit(who) | Maker::BySystem(who) => Some(*who),
            Maker::ByRouter(_) | Maker::FromOutside => None,
        }
    }

    /// The end that made it without a unit, as in requests and replies.
    pub fn asker(&self) -> Option<usize>
        ensures { result ≡ asker (maker_view self.now) }
    {
        match self {
            Maker::BySystem(who) => Some(*who),
            Maker::ByUnit(_) | Maker::ByRouter(_) | Maker::FromOutside => None,
        }
    }
}

/// The origin of a parcel: the parcel that routers forwarded, one after another, to make this one.
/// With it are its maker and the number of routers that it passed. `units` is how many units all
/// ends had sent for the first time when the origin was made, including its own.
#[derive(Clone, Copy, Debug, PartialEq, Eq)]
pub struct ParcelOrigin {
    pub origin: usize,
    pub maker: Maker,
    pub passed: usize,
    pub units: usize,
}

impl ParcelOrigin {
    /// For a parcel that no router forwarded, made when so many units had been sent.
    pub fn made(parcel: usize, maker: Maker, units: usize) -> ParcelOrigin
        ensures { result ≡ record { origin = parcel; maker = maker; passed = 0; units = units } }
    {
        ParcelOrigin {
            origin: parcel,
            maker,
            passed: 0,
            units,
        }
    }
}

/// The origin of a parcel, by its number.
pub fn mark_at(marks: &[ParcelOrigin], parcel: usize) -> ParcelOrigin
    ensures passed { (most : ℕ) → All (λ m. m.passed ≤ most) marks.now → result.passed ≤ most }
    ensures value { mark_view result ≡ slice_index_or (map mark_view marks.now) parcel nowhere }
{
    match marks.get(parcel) {
        Some(mark) => *mark,
        None => ParcelOrigin {
            origin: 0,
            maker: Maker::FromOutside,
            passed: 0,
            units: 0,
        },
    }
}
