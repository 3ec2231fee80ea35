//! The age of a router's table file.

ghost use Rattle.std.specs.Prelude.{◌≤◌, ◌↔◌, IsTrue};

use std::fs;
use std::rt::{Clock, Files};

/// A router writes its tables every ten seconds. Tables older than this many seconds are not those
/// of a router that stopped just now.
const OLDEST: u64 = 30;

/// Whether tables of this age, in seconds, are recent.
pub fn are_recent(seconds: u64) -> bool
    ensures { IsTrue result ↔ (seconds ≤ 30) }
{
    seconds <= OLDEST
}

/// The seconds since a file was written, if the system tells them and its clock did not go back.
pub fn age_of<R: Files + Clock>(rt: &R, place: &str) -> Option<u64> {
    let found = fs::metadata(rt, place).ok()?;
    let written = found.modified().ok()?;
    let age = written.elapsed(rt).ok()?;
    Some(age.as_secs())
}
