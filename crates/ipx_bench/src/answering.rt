//! A router's answers, written out as bytes, to be compared with another router's.

ghost use Rattle.std.specs.Prelude.{◌≡◌, ◌≤◌, length};

use crate::faults::reason_number;
use crate::feeding::{MOMENT, feed, router_of_three};
use ipx_router::{Outcome, Reply, Router};
use ipx_wire::OutOfMemory;
use std::alloc::Global;

fn write_reply(out: &mut Vec<u8>, reply: &Reply) -> Result<(), OutOfMemory> {
    let count = reply.bytes.len() as u64;
    out.push(reply.port)?;
    out.extend_from_slice(&reply.next.0)?;
    out.extend_from_slice(&count.to_be_bytes())?;
    out.extend_from_slice(&reply.bytes)?;
    Ok(())
}

fn write_replies(out: &mut Vec<u8>, replies: &[Reply]) -> Result<(), OutOfMemory> {
    for reply in replies {
        write_reply(out, reply)?;
    }
    Ok(())
}

fn write_outcome(out: &mut Vec<u8>, outcome: &Outcome) -> Result<(), OutOfMemory> {
    match outcome {
        Outcome::Forward(reply) => {
            out.push(b'F')?;
            write_reply(out, reply)?;
        }
        Outcome::Replies(replies) => {
            out.push(b'R')?;
            write_replies(out, replies)?;
        }
        Outcome::Heard(count) => {
            out.push(b'H')?;
            out.extend_from_slice(&count.to_be_bytes())?;
        }
        Outcome::Dropped(reason) => {
            out.push(b'D')?;
            out.push(reason_number(*reason))?;
        }
    }
    Ok(())
}

fn write_answer(
    alloc: Global,
    out: &mut Vec<u8>,
    router: &mut Router,
    record: &[u8],
) -> Result<(), OutOfMemory>
    requires { length router.old.ports ≡ 3 }
    ensures { length router.new.ports ≡ 3 }
{
    match feed(alloc, router, record, MOMENT)? {
        Some(outcome) => write_outcome(out, &outcome),
        None => Ok(()),
    }
}

fn write_answers(
    alloc: Global,
    out: &mut Vec<u8>,
    router: &mut Router,
    records: &[u8],
    size: usize,
) -> Result<(), OutOfMemory>
    requires { (length router.old.ports ≡ 3) × (1 ≤ size) }
{
    for record in records.chunks_exact(size) {
        write_answer(alloc, out, router, record)?;
    }
    Ok(())
}

fn write_told(alloc: Global, out: &mut Vec<u8>, router: &mut Router) -> Result<(), OutOfMemory> {
    out.push(b'T')?;
    let told = router.tell(alloc, 0)?;
    write_replies(out, &told)
}

/// The answers of a new router to each record, and then its advertisements.
fn answers_to(alloc: Global, records: &[u8], size: usize) -> Result<Vec<u8>, OutOfMemory>
    requires { 1 ≤ size }
{
    let mut router = router_of_three(alloc)?;
    let mut out = Vec::new(alloc);
    write_answers(alloc, &mut out, &mut router, records, size)?;
    write_told(alloc, &mut out, &mut router)?;
    Ok(out)
}

/// Writes the answers of a new router to records of one size, and then its advertisements. Returns
/// how many bytes that takes, or 0 if out of memory. Nothing is written if it does not fit.
#[unsafe(no_mangle)]
pub extern "C" fn ipx_bench_answers(
    alloc: Global,
    records: &[u8],
    size: usize,
    out: &mut [u8],
) -> usize {
    if size == 0 {
        return 0;
    }
    let Ok(answers) = answers_to(alloc, records, size) else {
        return 0;
    };
    if answers.len() <= out.len() {
        out[..answers.len()].copy_from_slice(&answers);
    }
    answers.len()
}
