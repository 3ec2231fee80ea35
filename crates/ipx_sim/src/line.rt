//! A line of a script.

use ipx_net::Event;

/// A line after the layout. Ends and parcels are numbered from 0.
#[derive(Drop)]
pub enum ScriptLine {
    /// `dial`, `send`, `close`, `release`, `poll`, `deliver` or `inject`: one event.
    Act(Event),
    /// The time rises by this many milliseconds.
    Tick(u32),
    /// This many messages of one byte are queued at an end.
    Fill { end: usize, count: u32 },
    /// An end is taken from until nothing is held.
    Take(usize),
    /// At most this many rounds.
    Run(u32),
    /// At most this many rounds, each with a take of each end.
    Pump(u32),
}
