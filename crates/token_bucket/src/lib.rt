//! Token buckets: how often something may happen.
//!
//! A [`TokenBucket`] is full at first. What happens takes its tokens, and they come back at the rate
//! of its [`RateLimit`].
#![tactic(auto)]

mod bucket;

pub use bucket::{RateLimit, TokenBucket, are_tokens_there, full_again_at};
