//! An end, by what the log says of it.

ghost use Rattle.std.specs.Prelude.{◌≡◌, false, true, None, map, set, slice_index_or};
ghost use Rattle.spx_theory.specs.Scan.{asker, joined_by, no_role};
ghost use Rattle.ipx_net.specs.Sights.{maker_view, role_view};

use crate::parcel_origin::Maker;

/// An end: its buffers, whether it dialled, and whether a request made it or a reply joined it.
/// `partner` is the end whose packet without a unit did that.
#[derive(Clone, Copy, Debug, PartialEq, Eq)]
pub struct Role {
    pub buffers: u16,
    pub called: bool,
    pub joined: bool,
    pub partner: Option<usize>,
}

impl Role {
    /// For an end that its host opened.
    pub fn opened(buffers: u16) -> Role
        ensures { role_view result
            ≡ record { buffers = buffers; called = true; joined = false; partner = None } }
    {
        Role {
            buffers,
            called: true,
            joined: false,
            partner: None,
        }
    }

    /// For an end that a request of this maker made.
    pub fn accepted(buffers: u16, maker: Maker) -> Role
        ensures { role_view result
            ≡ record {
              buffers = buffers;
              called = false;
              joined = true;
              partner = asker (maker_view maker);
            } }
    {
        Role {
            buffers,
            called: false,
            joined: true,
            partner: maker.asker(),
        }
    }

    /// The same end after a packet of this maker joined it. It joins only once.
    pub fn joined_by(self, maker: Maker) -> Role
        ensures { role_view result ≡ joined_by (maker_view maker) (role_view self) }
    {
        if self.joined {
            return self;
        }
        Role {
            joined: true,
            partner: maker.asker(),
            ..self
        }
    }
}

/// A packet of this maker joins an end, by its number, if there is one.
pub fn join_role(roles: &mut [Role], who: usize, maker: Maker)
    ensures { map role_view roles.new
        ≡ set (map role_view roles.old) who (joined_by (maker_view maker)
        (slice_index_or (map role_view roles.old) who no_role)) }
{
    if who < roles.len() {
        let role = roles[who];
        roles[who] = role.joined_by(maker);
    }
}
