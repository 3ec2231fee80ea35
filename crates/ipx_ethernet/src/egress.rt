//! Which remotes a frame is sent to.

ghost use Rattle.std.specs.Prelude.{◌≡◌};
ghost use Rattle.ipx_ethernet.specs.SwitchEnds.{is_way_to, way_out, way_past};

/// The remotes that a frame is sent to. Remotes are numbers that the caller gives them.
#[derive(Clone, Copy, Debug, PartialEq, Eq)]
pub enum Egress {
    /// To none.
    Nowhere,
    /// To this one.
    ToOne(usize),
    /// To each.
    ToAll,
    /// To each except this one, from which it came.
    ToOthers(usize),
}

impl Egress {
    /// Whether a remote is one of them.
    pub fn is_to(self, end: usize) -> bool
        ensures { result ≡ is_way_to self end }
    {
        match self {
            Egress::Nowhere => false,
            Egress::ToOne(one) => one == end,
            Egress::ToAll => true,
            Egress::ToOthers(giver) => giver != end,
        }
    }
}

/// Where the port's own frame is sent, if its destination is known at a remote, or not known.
pub fn egress_to(place: Option<usize>) -> Egress
    ensures { result ≡ way_out place }
{
    match place {
        Some(end) => Egress::ToOne(end),
        None => Egress::ToAll,
    }
}

/// Where a frame from a remote is sent.
pub fn flood_except(giver: usize, place: Option<usize>) -> Egress
    ensures { result ≡ way_past giver place }
{
    match place {
        Some(end) if end == giver => Egress::Nowhere,
        Some(end) => Egress::ToOne(end),
        None => Egress::ToOthers(giver),
    }
}
