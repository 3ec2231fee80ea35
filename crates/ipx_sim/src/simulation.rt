//! A network that a script runs on, line by line.

ghost use Rattle.std.specs.Prelude.{◌≡◌, ◌≢◌, [], IfErr, IfOk, IsOkAnd, List, OnOk, ℕ, string_bytes};
ghost use Rattle.std.specs.Io.KnownBytes.{Appends};
ghost use Rattle.spx_messages.specs.Taking.{Whole, taken_view};
ghost use Rattle.ipx_sim.specs.Act.{IsActOwed};
ghost use Rattle.ipx_sim.specs.Delivering.{delivered_view};
ghost use Rattle.ipx_sim.specs.ScriptPlaces.{map_view};
ghost use Rattle.ipx_sim.specs.ScriptReading.{event_view};
ghost use Rattle.ipx_sim.specs.Script.{IsLineOwed};
ghost use Rattle.ipx_sim.specs.Sim.{MarksWhere, TellsTake, last_text, parcel_of, sim_view, line_fault_status, stop_text, taken_line};
ghost use Rattle.ipx_sim.specs.Summary.{Summarizes};
ghost use Rattle.ipx_sim.specs.declared.script_fault.ScriptFault.TheVariants as Halts;

use crate::acting::act;
use crate::delivering::Delivered;
use crate::fields::{fields_of, is_blank};
use crate::line::ScriptLine;
use crate::lines::{bytes_to_text, fault_to_line, refused_to_line};
use crate::names::Names;
use crate::reading::read_line;
use crate::rounds::{fill, run_rounds};
use crate::script_fault::ScriptFault;
use crate::stop::LineFault;
use crate::summing::summary;
use crate::taking::{is_unit, take_one};
use ipx_net::{Event, Net};
use spx_messages::Taken;
use std::alloc::{AllocError, Global};
use std::io::Write;

/// A network, the names of its members, the time in milliseconds, and which parcels were delivered.
pub struct Simulation {
    net: Net,
    map: Names,
    moment: u64,
    delivered: Delivered,
}

impl Drop for Simulation {
    fn drop(self) {
        let Simulation {
            net: _,
            map: _,
            moment: _,
            delivered: _,
        } = self;
    }
}

fn say<W: Write>(writer: &mut W, line: Result<String, AllocError>) -> Result<(), ScriptFault>
    ensures said { OnOk result (IsOkAnd line (λ l.
        Appends (W.contents writer.old) (W.contents writer.new) (string_bytes l))) }
    ensures halted { IfErr result (λ halt. halt ≢ Halts.Bad) }
{
    let line = line?;
    writer
        .write_all(line.as_bytes())
        .map_err(|_| ScriptFault::Ended)
}

/// Writes the line for what stopped a line of the script, and returns its status.
fn tell<W: Write>(
    alloc: Global,
    done: Result<bool, LineFault>,
    writer: &mut W,
) -> Result<u8, ScriptFault>
    ensures told { IfOk result (λ status. (status ≡ line_fault_status done)
        × Appends (W.contents writer.old) (W.contents writer.new) (stop_text done)) }
    ensures halted { IfErr result (λ halt. halt ≢ Halts.Bad) }
{
    match done {
        Ok(_) => return Ok(0),
        Err(LineFault::Fault(fault)) => say(writer, fault_to_line(alloc, fault))?,
        Err(LineFault::Refused(fault)) => say(writer, refused_to_line(alloc, fault))?,
        Err(LineFault::Memory) => return Err(ScriptFault::Memory),
    }
    Ok(1)
}

fn message_to_line(alloc: Global, end: usize, stream: u8, body: &[u8]) -> Result<String, AllocError>
    ensures { IfOk result (λ t. string_bytes t ≡ taken_line end
        (Whole (record { stream = stream; body = body.now }))) }
{
    let stream = hex::encode(alloc, [stream])?;
    let body = bytes_to_text(alloc, body)?;
    format!(in alloc; "end {end} got {stream} {body}\n")
}

/// The line for what was taken; empty for nothing and for a part.
fn taken_to_line(alloc: Global, end: usize, taken: &Taken) -> Result<String, AllocError>
    ensures { IfOk result (λ t. string_bytes t ≡ taken_line end (taken_view taken.now)) }
{
    match taken {
        Taken::Nothing => Ok(String::new(alloc)),
        Taken::Part => Ok(String::new(alloc)),
        Taken::Whole(message) => message_to_line(alloc, end, message.stream, &message.body),
        Taken::PeerEnd => format!(in alloc; "end {end} peer-end\n"),
    }
}

/// Takes from an end once, and writes what was taken. Returns whether it was a unit, or what
/// stopped it.
fn print_taken_once<W: Write>(
    alloc: Global,
    net: &mut Net,
    end: usize,
    writer: &mut W,
) -> Result<Result<bool, LineFault>, ScriptFault>
    ensures took { IfOk result (λ done. (text : List ℕ)
        × TellsTake end (record { net = net.old; text = [] }) done
        (record { net = net.new; text = text })
        × Appends (W.contents writer.old) (W.contents writer.new) text) }
    ensures halted { IfErr result (λ halt. halt ≢ Halts.Bad) }
{
    match take_one(net, alloc, end) {
        Ok(taken) => {
            say(writer, taken_to_line(alloc, end, &taken))?;
            Ok(Ok(is_unit(&taken)))
        }
        Err(stop) => Ok(Err(stop)),
    }
}

/// Takes from an end until nothing is held, and writes what was taken. Returns whether there was a
/// unit, or what stopped it.
fn print_taken<W: Write>(
    alloc: Global,
    net: &mut Net,
    end: usize,
    writer: &mut W,
) -> Result<Result<bool, LineFault>, ScriptFault> {
    let mut any = false;
    for _ in 0..u64::MAX {
        match print_taken_once(alloc, net, end, writer)? {
            Ok(true) => any = true,
            Ok(false) => return Ok(Ok(any)),
            Err(stop) => return Ok(Err(stop)),
        }
    }
    Ok(Ok(any))
}

/// Writes that nothing was held, or what stopped a take.
fn tell_taken<W: Write>(
    alloc: Global,
    done: Result<bool, LineFault>,
    writer: &mut W,
) -> Result<u8, ScriptFault>
    ensures told { IfOk result (λ status. (status ≡ line_fault_status done)
        × Appends (W.contents writer.old) (W.contents writer.new) (last_text done)) }
    ensures halted { IfErr result (λ halt. halt ≢ Halts.Bad) }
{
    if let Ok(false) = done {
        say(writer, String::from_str(alloc, "nothing\n"))?;
        return Ok(0);
    }
    tell(alloc, done, writer)
}

/// The parcel that an event delivers, if it delivers one.
fn parcel_of(event: &Event) -> Option<usize>
    ensures { result ≡ parcel_of (event_view event.now) }
{
    match event {
        Event::Deliver { parcel, .. } => Some(*parcel),
        _ => None,
    }
}

impl Simulation {
    /// A network in which nothing has happened yet.
    pub fn new(alloc: Global, net: Net, map: Names) -> Simulation
        ensures { sim_view result ≡ record {
          net = net;
          map = map_view map;
          moment = 0;
          delivered = record { below = 0; marks = [] };
        } }
    {
        Simulation {
            net,
            map,
            moment: 0,
            delivered: Delivered::new(alloc),
        }
    }

    /// Marks a parcel as delivered if it was, which status 0 says. An end never refuses a delivery,
    /// so another status is a fault.
    fn mark(&mut self, parcel: Option<usize>, status: u8) -> Result<(), ScriptFault>
        ensures marks { OnOk result (MarksWhere parcel status
            (delivered_view self.old.delivered) (delivered_view self.new.delivered)) }
        ensures net { self.new.net ≡ self.old.net }
        ensures map { map_view self.new.map ≡ map_view self.old.map }
        ensures moment { self.new.moment ≡ self.old.moment }
        ensures halted { IfErr result (λ halt. halt ≢ Halts.Bad) }
    {
        match parcel {
            Some(parcel) if status == 0 => self.delivered.mark(parcel)?,
            _ => {}
        }
        Ok(())
    }

    /// Does one event and reports it.
    fn do_event<W: Write>(
        &mut self,
        alloc: Global,
        event: Event,
        writer: &mut W,
    ) -> Result<u8, ScriptFault>
        requires { IsActOwed event }
    {
        let parcel = parcel_of(&event);
        let status = act(alloc, &mut self.net, event, writer).map_err(|_| ScriptFault::Ended)?;
        self.mark(parcel, status)?;
        Ok(status)
    }

    /// Sets the time later.
    fn tick<W: Write>(
        &mut self,
        alloc: Global,
        by: u32,
        writer: &mut W,
    ) -> Result<u8, ScriptFault> {
        self.moment = self.moment.saturating_add(u64::from(by));
        let now = self.moment;
        self.do_event(alloc, Event::Tick { now }, writer)
    }

    /// Queues messages of one byte.
    fn fill<W: Write>(
        &mut self,
        alloc: Global,
        end: usize,
        count: u32,
        writer: &mut W,
    ) -> Result<u8, ScriptFault> {
        let done = fill(alloc, &mut self.net, end, count);
        tell(alloc, done, writer)
    }

    /// Takes from an end until nothing is held.
    fn take<W: Write>(
        &mut self,
        alloc: Global,
        end: usize,
        writer: &mut W,
    ) -> Result<u8, ScriptFault> {
        let done = print_taken(alloc, &mut self.net, end, writer)?;
        tell_taken(alloc, done, writer)
    }

    /// Runs at most this many rounds, with a take of each end or without.
    fn run<W: Write>(
        &mut self,
        alloc: Global,
        rounds: u32,
        takes: bool,
        writer: &mut W,
    ) -> Result<u8, ScriptFault> {
        let done = run_rounds(
            alloc,
            &mut self.net,
            &self.map,
            &mut self.delivered,
            rounds,
            takes,
        );
        tell(alloc, done, writer)
    }

    /// Runs a line and returns its status.
    fn run_line<W: Write>(
        &mut self,
        alloc: Global,
        line: ScriptLine,
        writer: &mut W,
    ) -> Result<u8, ScriptFault>
        requires { IsLineOwed line }
    {
        match line {
            ScriptLine::Act(event) => self.do_event(alloc, event, writer),
            ScriptLine::Tick(by) => self.tick(alloc, by, writer),
            ScriptLine::Fill { end, count } => self.fill(alloc, end, count, writer),
            ScriptLine::Take(end) => self.take(alloc, end, writer),
            ScriptLine::Run(rounds) => self.run(alloc, rounds, false, writer),
            ScriptLine::Pump(rounds) => self.run(alloc, rounds, true, writer),
        }
    }

    /// Reads and runs a line after the layout, and returns its status: 1 if an end refused, or the
    /// network met a fault, otherwise 0. A bad line does nothing.
    pub fn do_line<W: Write>(
        &mut self,
        alloc: Global,
        line: &[u8],
        writer: &mut W,
    ) -> Result<u8, ScriptFault> {
        if is_blank(line) {
            return Ok(0);
        }
        let fields = fields_of(alloc, line)?;
        let line = read_line(alloc, &self.map, &fields)?;
        self.run_line(alloc, line, writer)
    }

    /// Writes the last lines.
    pub fn finish<W: Write>(&self, writer: &mut W) -> Result<(), ScriptFault>
        ensures written { OnOk result ((text : List ℕ)
            × Summarizes self.now.net (map_view self.now.map).hosts text
            × Appends (W.contents writer.old) (W.contents writer.new) text) }
        ensures fault { IfErr result (λ halt. halt ≡ Halts.Ended) }
    {
        summary(&self.net, &self.map.hosts, writer).map_err(|_| ScriptFault::Ended)
    }
}
