//! A token bucket.

ghost use Rattle.std.specs.Prelude.{◌≡◌, ◌≤◌, ◌<◌, ◌+◌, ◌*◌, ◌^◌, true};
ghost use Rattle.token_bucket.specs.TokenBucket.{back_after, bucket_clock, bucket_has, bucket_taken, full_bucket, has_tokens};

/// A rate limit: how many at once, and how many more each second.
#[derive(Clone, Copy, Debug, PartialEq, Eq)]
pub struct RateLimit {
    pub burst: u32,
    pub per_second: u32,
}

/// The tokens of a limit. What happens takes one or more.
#[derive(Clone, Copy, Debug, PartialEq, Eq)]
pub struct TokenBucket {
    pub limit: RateLimit,
    /// When it is full again, by a clock that runs `per_second` times as fast as real time.
    pub back: u128,
}

/// How long it takes for one missing token to come back, in milliseconds of the bucket's clock.
const TOKEN: u128 = 1000;

/// Whether a bucket of `burst` tokens that is full again at `back` has this many tokens.
pub fn are_tokens_there(burst: u128, count: u128, back: u128, now: u128) -> bool
    requires { (burst < 2 ^ 32) × (now < 2 ^ 96) }
    ensures { result ≡ has_tokens burst count back now }
{
    back.max(now).saturating_add(TOKEN.saturating_mul(count)) <= now + TOKEN * burst
}

/// When a bucket is full again after tokens were taken from it. It must have had them.
pub fn full_again_at(burst: u128, count: u128, back: u128, now: u128) -> u128
    requires there { back_after count back now ≤ now + 1000 * burst }
    requires fits { (burst < 2 ^ 32) × (now < 2 ^ 96) }
    ensures { result ≡ back_after count back now }
{
    back.max(now) + TOKEN * count
}

impl RateLimit {
    fn burst(&self) -> u128
        ensures value { result ≡ self.now.burst }
        ensures fits { result < 2 ^ 32 }
    {
        u128::from(self.burst)
    }

    /// The time of the clock of a bucket with this limit.
    pub fn clock(&self, now: u64) -> u128
        ensures clock { result ≡ bucket_clock self.now now }
        ensures fits { result < 2 ^ 96 }
    {
        u128::from(self.per_second) * u128::from(now)
    }
}

impl TokenBucket {
    /// A bucket with all its tokens.
    pub fn full(limit: RateLimit) -> TokenBucket
        ensures { result ≡ full_bucket limit }
    {
        TokenBucket { limit, back: 0 }
    }

    /// Whether it has this many tokens at `now`, in milliseconds.
    pub fn has_tokens(&self, count: u128, now: u64) -> bool
        ensures { result ≡ bucket_has self.now count now }
    {
        are_tokens_there(self.limit.burst(), count, self.back, self.limit.clock(now))
    }

    /// Takes this many tokens. The bucket must have them at that time.
    pub fn take_tokens(&mut self, count: u128, now: u64)
        requires { bucket_has self.old count now ≡ true }
        ensures { self.new ≡ bucket_taken self.old count now }
    {
        let burst = self.limit.burst();
        self.back = full_again_at(burst, count, self.back, self.limit.clock(now));
    }
}
