//! How often each client may send what is for all.

ghost use Rattle.std.specs.Prelude.{◌≡◌, ◌<◌, [], IfOk, count_by, true};
ghost use Rattle.ipxnet_server.specs.Flooders.{flooder_back, flooders_after, flooders_with, is_other_flooder, max_flooders, may_flood};

use std::alloc::{AllocError, Global};
use std::marker::Model;
use std::net::SocketAddrV4;
use token_bucket::{RateLimit, are_tokens_there, full_again_at};

/// The limit of each client, in floods: packets for all nodes here, or for a node that nobody has
/// here.
const FLOOD_LIMIT: RateLimit = RateLimit {
    burst: 256,
    per_second: 128,
};

/// How many clients with missing tokens are remembered at most: more than a server may have.
const MAX_FLOODERS: usize = 256;

/// A client with missing tokens.
#[derive(Clone, Copy)]
pub struct Flooder {
    /// Its address.
    pub place: SocketAddrV4,
    /// When all its tokens are back, by the clock of its bucket.
    pub back: u128,
}

/// The clients with missing tokens. It has room for all that it may remember.
#[derive(Drop)]
pub struct Flooders {
    known: Vec<Flooder>,
}

impl Model for Flooders {
    ghost use Rattle.std.specs.Prelude.{◌≤◌, List, vec_capacity};
    ghost use Rattle.ipxnet_server.specs.Flooders.{max_flooders};
    ghost use Rattle.ipxnet_server.specs.declared.flooders.Flooder.{Flooder};

    ghost Value = { List Flooder };

    ghost view = { λ f. f.known.items };

    ghost invariant = { λ f. max_flooders ≤ vec_capacity f.known };
}

/// Whether this is another client with missing tokens.
fn is_other(place: SocketAddrV4, clock: u128, known: &Flooder) -> bool
    ensures { result ≡ is_other_flooder place clock known.now }
{
    known.place != place && known.back > clock
}

impl Flooders {
    /// Each client has all its tokens. This takes the memory for all that may be remembered.
    pub fn new(alloc: Global) -> Result<Flooders, AllocError>
        ensures { IfOk result (λ f. f ≡ []) }
    {
        Ok(Flooders {
            known: Vec::with_capacity(alloc, MAX_FLOODERS)?,
        })
    }

    /// When all tokens of the client at an address are back.
    fn back_of(&self, place: SocketAddrV4) -> u128
        ensures { result ≡ flooder_back place self.now }
    {
        for known in &self.known {
            if known.place == place {
                return known.back;
            }
        }
        0
    }

    /// How many other clients have missing tokens.
    fn others(&self, place: SocketAddrV4, clock: u128) -> usize
        ensures { result ≡ count_by (is_other_flooder place clock) self.now }
    {
        self.known
            .iter()
            .filter(|known| is_other(place, clock, known))
            .count()
    }

    /// Whether the client at an address has a token at `now`, in ms.
    pub fn may_flood(&self, place: SocketAddrV4, now: u64) -> bool
        ensures { result ≡ may_flood place now self.now }
    {
        let clock = FLOOD_LIMIT.clock(now);
        are_tokens_there(u128::from(FLOOD_LIMIT.burst), 1, self.back_of(place), clock)
            && self.others(place, clock) < MAX_FLOODERS
    }

    /// Remembers when all tokens of the client at an address are back, and forgets those with all
    /// theirs.
    fn remember(&mut self, place: SocketAddrV4, clock: u128, back: u128)
        requires { count_by (is_other_flooder place clock) self.old < max_flooders }
        ensures { self.new ≡ flooders_with place clock back self.old }
    {
        self.known.retain(|known| is_other(place, clock, known));
        self.known.push_reserved(Flooder { place, back });
    }

    /// Takes a token of the client at an address, which must have one.
    pub fn take_token(&mut self, place: SocketAddrV4, now: u64)
        requires { may_flood place now self.old ≡ true }
        ensures { self.new ≡ flooders_after place now self.old }
    {
        let clock = FLOOD_LIMIT.clock(now);
        let burst = u128::from(FLOOD_LIMIT.burst);
        let back = full_again_at(burst, 1, self.back_of(place), clock);
        self.remember(place, clock, back);
    }
}
