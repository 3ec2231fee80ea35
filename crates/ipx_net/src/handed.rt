//! The messages of a log that ends handed in and out.

ghost use Rattle.std.specs.Prelude.{◌≡◌, ◌≤◌, ◌↔◌, [], ◌∷◌, IsTrue, MatchOption, drop, length};
ghost use Rattle.spx_theory.specs.Handed.{IsBeginning, handed_in, handed_out, in_by, out_by};
ghost use Rattle.ipx_net.specs.LogEntries.{entry_note, entry_notes};
ghost use Rattle.spx_messages.specs.Message.{message_view};

use crate::entry::Entry;
use spx_messages::Message;

/// Whether two messages are the same.
fn is_same(one: &Message, other: &Message) -> bool
    ensures { IsTrue result ↔ (message_view one.now ≡ message_view other.now) }
{
    one.stream == other.stream && one.body.as_slice() == other.body.as_slice()
}

/// The message that was handed in at this end by an entry.
fn handed_in_by(entry: &Entry, end: usize) -> Option<&Message>
    ensures { MatchOption result (in_by end (entry_note entry.now) ≡ []) (λ m.
        in_by end (entry_note entry.now) ≡ message_view m.now ∷ []) }
{
    match entry {
        Entry::HandIn { who, message } => { if *who == end { Some(message) } else { None } }
        _ => None,
    }
}

/// The message that this end handed out by an entry.
fn handed_out_by(entry: &Entry, end: usize) -> Option<&Message>
    ensures { MatchOption result (out_by end (entry_note entry.now) ≡ []) (λ m.
        out_by end (entry_note entry.now) ≡ message_view m.now ∷ []) }
{
    match entry {
        Entry::HandOut { who, message } => { if *who == end { Some(message) } else { None } }
        _ => None,
    }
}

/// The next message that was handed in at an end, and the index after its entry.
fn next_in(log: &[Entry], from: usize, end: usize) -> Option<(usize, &Message)>
    requires { from ≤ length log.now }
    ensures { MatchOption result (handed_in end (entry_notes (drop from log.now)) ≡ []) (λ r.
        (r.0 ≤ length log.now)
        × (handed_in end (entry_notes (drop from log.now))
        ≡ message_view r.1.now ∷ handed_in end (entry_notes (drop r.0 log.now)))) }
{
    let mut at = from;
    while at < log.len() {
        if let Some(message) = handed_in_by(&log[at], end) {
            return Some((at + 1, message));
        }
        at += 1;
    }
    None
}

/// Whether the messages that an end handed out are a prefix of those that were handed in at another
/// one. It reads each list once.
pub fn is_beginning(log: &[Entry], end: usize, peer: usize) -> bool
    ensures { IsTrue result
        ↔ IsBeginning (handed_out end (entry_notes log.now))
        (handed_in peer (entry_notes log.now)) }
{
    let mut next = 0;
    for entry in log {
        if let Some(message) = handed_out_by(entry, end) {
            match next_in(log, next, peer) {
                None => return false,
                Some((behind, given)) => {
                    if !is_same(message, given) {
                        return false;
                    }
                    next = behind;
                }
            }
        }
    }
    true
}

/// Whether an end handed out no message.
pub fn is_silent(log: &[Entry], end: usize) -> bool
    ensures { IsTrue result ↔ (handed_out end (entry_notes log.now) ≡ []) }
{
    for entry in log {
        if handed_out_by(entry, end).is_some() {
            return false;
        }
    }
    true
}
