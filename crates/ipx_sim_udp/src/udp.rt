//! The command `udp`.

ghost use Rattle.std.specs.Prelude.{◌≡◌, ◌≤◌, ℕ, List, Bool, Err, IfErr, IfOk, IfSome, None, Result, Some, string_bytes};
ghost use Rattle.std.specs.Io.KnownBytes.{Appends};
ghost use Rattle.ipx_sim.specs.ActLine.{refused_line};
ghost use Rattle.ipx_sim.specs.ScriptPlaces.{map_view};
ghost use Rattle.ipx_sim.specs.Script.{IsTooLong, too_long_line};
ghost use Rattle.ipx_sim_udp.specs.UdpDoing.{DoesNamed, DoesLine, said};
ghost use Rattle.ipx_sim_udp.specs.Stops.{bad_script_line, line_and_status};
ghost use Rattle.ipx_sim_udp.specs.declared.stop.UdpScriptFault.{UdpScriptFault as AnyStop};

use crate::layout_binding::UdpNet;
use crate::mapped::is_mapped;
use crate::stop::UdpScriptFault;
use crate::summing::write_ends;
use ipx_inspect::{InputFault, MAX_INPUT, read_up_to, tell_no_memory, write_lines};
use ipx_net::Event;
use ipx_sim::{
    Layout, Names, ScriptLine, fields_of, is_blank, read_line, refused_to_line, tell_too_long,
};
use ipx_wire::OutOfMemory;
use log::{Log, warn};
use spx_messages::EndFault;
use std::alloc::Global;
use std::io::{Read, Write};
use std::net::Net;

/// One more than the most lines that a script has, which count from 1.
const LINES_END: u32 = 1_000_002;

/// Why a script stops, and at which line.
#[derive(Clone, Copy)]
struct Stopped {
    line: u32,
    stop: UdpScriptFault,
}

fn bad_script_line(alloc: Global, line: u32) -> Result<(String, u8), OutOfMemory>
    ensures { IfOk result (λ l. (string_bytes l.0 ≡ bad_script_line line) × (l.1 ≡ 2)) }
{
    Ok((format!(in alloc; "line {line} bad\n")?, 2))
}

fn refused_line(alloc: Global, fault: EndFault) -> Result<(String, u8), OutOfMemory>
    ensures { IfOk result (λ l. (string_bytes l.0 ≡ refused_line fault) × (l.1 ≡ 1)) }
{
    Ok((refused_to_line(alloc, fault)?, 1))
}

fn fixed_line(alloc: Global, text: &str, status: u8) -> Result<(String, u8), OutOfMemory>
    ensures { IfOk result (λ l. (string_bytes l.0 ≡ text.now) × (l.1 ≡ status)) }
{
    Ok((String::from_str(alloc, text)?, status))
}

/// Reports why a script stops.
fn tell_stopped<W: Write>(alloc: Global, stopped: Stopped, writer: &mut W) -> Result<u8, u8>
    ensures bad { IfOk result (λ status. (stopped.stop ≡ UdpScriptFault.Bad) × (status ≡ 2)
        × Appends (W.contents writer.old) (W.contents writer.new) (bad_script_line stopped.line)) }
    ensures fault { IfErr result (λ status. status ≡ 1) }
{
    match stopped.stop {
        UdpScriptFault::Bad => write_lines(writer, bad_script_line(alloc, stopped.line)),
        UdpScriptFault::Device => {
            let _ = writer.write_all(b"fault (39) Device\n");
            Err(1)
        }
        UdpScriptFault::Memory => Err(tell_no_memory(writer)),
        UdpScriptFault::Refused(_) | UdpScriptFault::NoSuchEnd | UdpScriptFault::Write => Err(1),
    }
}

/// The result of a line: if it is done, whether it prints `ok`.
fn said(done: Result<(), UdpScriptFault>, says: bool) -> Result<bool, UdpScriptFault>
    ensures { result ≡ said says done }
{
    match done {
        Ok(()) => Ok(says),
        Err(stop) => Err(stop),
    }
}

/// Does a line of the script. Returns whether it prints `ok`.
fn do_line(alloc: Global, site: &mut UdpNet, line: ScriptLine) -> Result<bool, UdpScriptFault>
    ensures { DoesNamed line site.old site.new result }
{
    match line {
        ScriptLine::Act(
            Event::Dial {
                host,
                socket,
                to,
                buffers,
            },
        ) => said(site.dial(alloc, host, socket, to, buffers), false),
        ScriptLine::Act(Event::Send { who, message }) => said(
            site.send(alloc, who, &message),
            false,
        ),
        ScriptLine::Act(Event::Close { who }) => said(site.close(alloc, who), true),
        ScriptLine::Fill { end, count } => said(site.fill(alloc, end, count), false),
        ScriptLine::Pump(turns) => said(site.pump(alloc, turns), false),
        _ => Err(UdpScriptFault::Bad),
    }
}

/// Reads and does a line after the layout. Returns whether it prints `ok`.
fn read_and_do(
    alloc: Global,
    site: &mut UdpNet,
    map: &Names,
    line: &[u8],
) -> Result<bool, UdpScriptFault>
    ensures { DoesLine (map_view map.now) line.now site.old site.new result }
{
    if is_blank(line) {
        return Ok(false);
    }
    let Ok(fields) = fields_of(alloc, line) else {
        return Err(UdpScriptFault::Memory);
    };
    match read_line(alloc, map, &fields) {
        Ok(line) => do_line(alloc, site, line),
        Err(halt) => Err(UdpScriptFault::from(halt)),
    }
}

/// What a line prints, and its status, if the script continues.
fn line_and_status(
    alloc: Global,
    done: Result<bool, UdpScriptFault>,
) -> Result<(String, u8), UdpScriptFault>
    ensures told { IfOk result (λ l. line_and_status done ≡ Some (string_bytes l.0, l.1)) }
    ensures stops { line_and_status done ≡ None → IfErr result (λ stop. done ≡ Err stop) }
    ensures few { IfOk result (λ l. l.1 ≤ 1) }
{
    let told = match done {
        Ok(false) => fixed_line(alloc, "", 0),
        Ok(true) => fixed_line(alloc, "ok\n", 0),
        Err(UdpScriptFault::Refused(fault)) => refused_line(alloc, fault),
        Err(UdpScriptFault::NoSuchEnd) => fixed_line(alloc, "fault (34) NoSuchEnd\n", 1),
        Err(stop) => return Err(stop),
    };
    match told {
        Ok(told) => Ok(told),
        Err(_) => Err(UdpScriptFault::Memory),
    }
}

/// Does a line and writes its result. Returns the line's status.
fn run_line<W: Write>(
    alloc: Global,
    site: &mut UdpNet,
    map: &Names,
    line: &[u8],
    writer: &mut W,
) -> Result<u8, UdpScriptFault>
    ensures tells { IfOk result (λ status. (done : Result Bool AnyStop) × (text : List ℕ)
        × DoesLine (map_view map.now) line.now site.old site.new done
        × (line_and_status done ≡ Some (text, status))
        × Appends (W.contents writer.old) (W.contents writer.new) text) }
    ensures few { IfOk result (λ status. status ≤ 1) }
{
    let (text, status) = line_and_status(alloc, read_and_do(alloc, site, map, line))?;
    match writer.write_all(text.as_bytes()) {
        Ok(()) => Ok(status),
        Err(_) => Err(UdpScriptFault::Write),
    }
}

/// Runs the lines from that number on, and returns the greatest of their statuses.
fn run_lines<W: Write>(
    alloc: Global,
    site: &mut UdpNet,
    map: &Names,
    input: &[u8],
    first: u32,
    writer: &mut W,
) -> Result<u8, Stopped> {
    let mut status = 0;
    for (number, line) in (1..LINES_END).zip(input.split(|byte| *byte == b'\n')) {
        if number < first {
            continue;
        }
        match run_line(alloc, site, map, line, writer) {
            Ok(one) => status = status.max(one),
            Err(stop) => return Err(Stopped { line: number, stop }),
        }
    }
    Ok(status)
}

/// Reads a line of the layout. Returns false if the line is of another kind.
fn read_layout(alloc: Global, layout: &mut Layout, line: &[u8]) -> Result<bool, UdpScriptFault> {
    let read = layout.read(alloc, line)?;
    if read && !is_mapped(layout) {
        return Err(UdpScriptFault::Bad);
    }
    Ok(read)
}

/// Reads the lines of the layout, and returns the number of the first other line.
fn lay_out(alloc: Global, layout: &mut Layout, input: &[u8]) -> Result<u32, Stopped> {
    for (number, line) in (1..LINES_END).zip(input.split(|byte| *byte == b'\n')) {
        match read_layout(alloc, layout, line) {
            Ok(true) => {}
            Ok(false) => return Ok(number),
            Err(stop) => return Err(Stopped { line: number, stop }),
        }
    }
    Ok(LINES_END)
}

/// Runs the lines from that number on, and writes the last ones. Returns the status.
fn run_bound<W: Write>(
    alloc: Global,
    site: &mut UdpNet,
    map: &Names,
    input: &[u8],
    first: u32,
    writer: &mut W,
) -> Result<u8, Stopped> {
    let status = run_lines(alloc, site, map, input, first, writer)?;
    match write_ends(writer, site, &map.hosts) {
        Ok(()) => Ok(status),
        Err(_) => Err(Stopped {
            line: first,
            stop: UdpScriptFault::Write,
        }),
    }
}

/// Runs the lines of a script from that number on, over the sockets of its layout.
fn run_laid_out<R: Net + Log, W: Write>(
    rt: &R,
    alloc: Global,
    layout: &Layout,
    first: u32,
    input: &[u8],
    writer: &mut W,
    port: u16,
) -> Result<u8, Stopped> {
    let mut site = match UdpNet::bind(rt, alloc, layout, port) {
        Ok(site) => site,
        Err(stop) => return Err(Stopped { line: first, stop }),
    };
    let done = run_bound(alloc, &mut site, layout.map(), input, first, writer);
    let unmapped = site.unmapped();
    if unmapped > 0 {
        warn!(rt; "unmapped {unmapped}");
    }
    done
}

fn run_whole<R: Net + Log, W: Write>(
    rt: &R,
    alloc: Global,
    input: &[u8],
    writer: &mut W,
    port: u16,
) -> Result<u8, Stopped> {
    let mut layout = Layout::new(alloc);
    let first = lay_out(alloc, &mut layout, input)?;
    run_laid_out(rt, alloc, &layout, first, input, writer, port)
}

fn run_script<R: Net + Log, W: Write>(
    rt: &R,
    alloc: Global,
    input: &[u8],
    writer: &mut W,
    port: u16,
) -> Result<u8, u8>
    ensures fault { IfErr result (λ status. status ≡ 1) }
{
    match run_whole(rt, alloc, input, writer, port) {
        Ok(status) => Ok(status),
        Err(stopped) => tell_stopped(alloc, stopped, writer),
    }
}

/// The command `udp`: reads a script of at most 1,000,000 bytes, binds a loopback socket for each
/// node of its layout, and runs line by line: `dial`, `send`, `fill`, `close` and `pump`. A line
/// for each end follows the last one.
///
/// `Ok` is the status of the lines written. It is 0; or 1 if an end refused or does not exist. It
/// is 2 for a bad line, after which nothing is read, and for an input that is too long. `Err` is
/// always 1. After a read or write fault nothing more is written. If a socket cannot be bound or
/// fails, it writes `fault (39) Device`. If out of memory, it writes `fault (14) OutOfMemory`. If
/// packets had a node without an IP address, a warning says how many.
pub fn do_udp<R: Net + Log, I: Read, W: Write>(
    rt: &R,
    alloc: Global,
    reader: &mut I,
    writer: &mut W,
    port: u16,
) -> Result<u8, u8>
    ensures long { IfOk result (λ status. IfSome (I.remaining reader.old) (λ input. IsTooLong input
        → (status ≡ 2) × Appends (W.contents writer.old) (W.contents writer.new) too_long_line)) }
    ensures fault { IfErr result (λ status. status ≡ 1) }
{
    let input = match read_up_to(alloc, reader, MAX_INPUT + 1) {
        Ok(input) => input,
        Err(InputFault::Read) => return Err(1),
        Err(InputFault::Memory) => return Err(tell_no_memory(writer)),
    };
    if input.len() > MAX_INPUT {
        return tell_too_long(alloc, writer);
    }
    run_script(rt, alloc, &input, writer, port)
}
