//! The age of a router's table file.

ghost use Rattle.std.specs.Prelude.{◌<◌, ◌↔◌, IsTrue};

use std::fs;
use std::rt::{Clock, Files};

/// A router writes its tables every ten seconds. Tables older than this many seconds are reported.
const OLD: u64 = 30;

/// Whether tables of this age are reported as old.
fn are_old(seconds: u64) -> bool
    ensures { IsTrue result ↔ (30 < seconds) }
{
    seconds > OLD
}

/// The seconds since a file was written, if the system tells them and its clock did not go back.
fn age_of<R: Files + Clock>(rt: &R, place: &str) -> Option<u64> {
    let found = fs::metadata(rt, place).ok()?;
    let written = found.modified().ok()?;
    let age = written.elapsed(rt).ok()?;
    Some(age.as_secs())
}

/// Reports the age of the table file at a path, if it is so old that its router seems not to run.
pub fn tell_old<R: Files + Clock + Eprint>(rt: &R, place: &str) {
    let Some(seconds) = age_of(rt, place) else {
        return;
    };
    if are_old(seconds) {
        let _ = eprintln!(rt;
            "{place}: tables_file is {seconds} seconds old: is the router running?"
        );
    }
}
