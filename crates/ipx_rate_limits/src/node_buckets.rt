//! The nodes that sent queries of one kind to a router lately, each with its tokens.

ghost use Rattle.std.specs.Prelude.{◌≡◌, ◌<◌, ◌^◌, ◌↔◌, [], IfOk, IsTrue, count_by};
ghost use Rattle.ipx_rate_limits.specs.TokenBuckets.{MayAsk, asked_by, back_at, is_another_out};

use crate::querier::Querier;
use std::alloc::{AllocError, Global};
use std::marker::Model;
use token_bucket::{are_tokens_there, full_again_at};

/// A known querier, and the time at which all its tokens are back.
#[derive(Clone, Copy)]
pub struct Asking {
    pub querier: Querier,
    pub back: u128,
}

/// The most queriers that are remembered.
const MAX_ASKERS: usize = 1024;

/// The queriers with missing tokens. It has room for all that it may remember, and allocates no
/// more memory. All its times are of one clock, by which a token comes back each second.
#[derive(Drop)]
pub struct NodeBuckets {
    known: Vec<Asking>,
}

impl Model for NodeBuckets {
    ghost use Rattle.std.specs.Prelude.{◌≤◌, List, vec_capacity};
    ghost use Rattle.ipx_rate_limits.specs.TokenBuckets.{max_askers};
    ghost use Rattle.ipx_rate_limits.specs.declared.node_buckets.Asking.{Asking};

    ghost Value = { List Asking };

    ghost view = { λ a. a.known.items };

    ghost invariant = { λ a. max_askers ≤ vec_capacity a.known };
}

/// Whether this is another querier with missing tokens.
fn is_another(querier: Querier, now: u128, known: &Asking) -> bool
    ensures { result ≡ is_another_out querier now known.now }
{
    known.querier != querier && known.back > now
}

impl NodeBuckets {
    /// Nobody has sent a query yet.
    pub fn new(alloc: Global) -> Result<NodeBuckets, AllocError>
        ensures { IfOk result (λ a. a ≡ []) }
    {
        Ok(NodeBuckets {
            known: Vec::with_capacity(alloc, MAX_ASKERS)?,
        })
    }

    /// The time at which all tokens of a querier are back.
    fn back_of(&self, querier: Querier) -> u128
        ensures { result ≡ back_at self.now querier }
    {
        for known in &self.known {
            if known.querier == querier {
                return known.back;
            }
        }
        0
    }

    /// How many other queriers have missing tokens.
    fn others(&self, querier: Querier, now: u128) -> usize
        ensures { result ≡ count_by (is_another_out querier now) self.now }
    {
        self.known
            .iter()
            .filter(|known| is_another(querier, now, known))
            .count()
    }

    /// Whether a querier that may have `burst` tokens has one, and can be remembered.
    pub fn may_ask(&self, burst: u32, querier: Querier, now: u128) -> bool
        requires { now < 2 ^ 80 }
        ensures { IsTrue result ↔ MayAsk burst self.now querier now }
    {
        are_tokens_there(u128::from(burst), 1, self.back_of(querier), now)
            && self.others(querier, now) < MAX_ASKERS
    }

    /// Takes a token of a querier, which must have one. It remembers when all its tokens are back
    /// then, and forgets queriers with all theirs.
    pub fn take_token(&mut self, burst: u32, querier: Querier, now: u128)
        requires asks { MayAsk burst self.old querier now }
        requires fits { now < 2 ^ 80 }
        ensures { self.new ≡ asked_by querier now self.old }
    {
        let back = full_again_at(u128::from(burst), 1, self.back_of(querier), now);
        self.known.retain(|known| is_another(querier, now, known));
        self.known.push_reserved(Asking { querier, back });
    }
}
