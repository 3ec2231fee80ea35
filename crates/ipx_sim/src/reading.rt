//! Reading a line of a script.

ghost use Rattle.std.specs.Prelude.{◌≡◌, IfOk, IfSome, option_copied, option_map, true};
ghost use Rattle.std.specs.Str.{bytes_eq};
ghost use Rattle.ipx_sim.specs.Act.{IsActOwed};
ghost use Rattle.ipx_sim.specs.ScriptFields.{fields_view};
ghost use Rattle.ipx_sim.specs.ScriptPlaces.{map_view};
ghost use Rattle.ipx_sim.specs.ScriptReading.{Act, Close, ReadsScriptLine, ReadsLine, Release, counted_in, deliver_in, dial_in, end_in, event_in, event_view, fill_in, inject_in, script_line_view, only_in, plain_in, poll_in, send_in};
ghost use Rattle.ipx_sim.specs.ScriptReading.{Pump, Run, Take, Tick};
ghost use Rattle.ipx_sim.specs.Script.{IsLineOwed};

use crate::fields::{
    bytes_of, index_of, number_of, parse_address, parse_buffers, parse_network, stream_of,
};
use crate::line::ScriptLine;
use crate::names::Names;
use crate::script_fault::ScriptFault;
use ipx_net::Event;
use ipx_wire::{Node, Socket};
use spx_messages::Message;
use std::alloc::Global;

/// Whether a word is this one.
fn is_word(word: &[u8], known: &[u8]) -> bool
    ensures { result ≡ bytes_eq word.now known.now }
{
    word == known
}

/// The only field.
fn only<'a>(args: &[&'a [u8]]) -> Option<&'a [u8]>
    ensures { option_copied result ≡ only_in (fields_view args.now) }
{
    match args {
        [field] => Some(*field),
        _ => None,
    }
}

/// `HOST SOCKET NET NODE SOCKET BUFFERS`.
fn dial_of(map: &Names, args: &[&[u8]]) -> Option<Event>
    ensures value { option_map event_view result
        ≡ dial_in (map_view map.now) (fields_view args.now) }
    ensures owed { IfSome result IsActOwed }
{
    let [host, socket, network, node, far, buffers] = args else {
        return None;
    };
    Some(Event::Dial {
        host: map.host(host)?,
        socket: Socket::from_hex(socket)?,
        to: parse_address(network, node, far)?,
        buffers: parse_buffers(buffers)?,
    })
}

fn close_of(args: &[&[u8]]) -> Option<Event>
    ensures value { option_map event_view result
        ≡ end_in Close (fields_view args.now) }
    ensures owed { IfSome result IsActOwed }
{
    let who = index_of(only(args)?)?;
    Some(Event::Close { who })
}

fn release_of(args: &[&[u8]]) -> Option<Event>
    ensures value { option_map event_view result
        ≡ end_in Release (fields_view args.now) }
    ensures owed { IfSome result IsActOwed }
{
    let who = index_of(only(args)?)?;
    Some(Event::Release { who })
}

fn poll_of(map: &Names, args: &[&[u8]]) -> Option<Event>
    ensures value { option_map event_view result
        ≡ poll_in (map_view map.now) (fields_view args.now) }
    ensures owed { IfSome result IsActOwed }
{
    let member = map.member(only(args)?)?;
    Some(Event::Poll { member })
}

/// `N PLACE`.
fn deliver_of(map: &Names, args: &[&[u8]]) -> Option<Event>
    ensures value { option_map event_view result
        ≡ deliver_in (map_view map.now) (fields_view args.now) }
    ensures owed { IfSome result IsActOwed }
{
    let [parcel, place] = args else {
        return None;
    };
    Some(Event::Deliver {
        parcel: index_of(parcel)?,
        place: map.place(place)?,
    })
}

/// An event that is read without memory.
fn event_of(map: &Names, command: &[u8], args: &[&[u8]]) -> Option<Event>
    ensures value { option_map event_view result
        ≡ event_in (map_view map.now) command.now (fields_view args.now) }
    ensures owed { IfSome result IsActOwed }
{
    if is_word(command, b"dial") {
        return dial_of(map, args);
    }
    if is_word(command, b"close") {
        return close_of(args);
    }
    if is_word(command, b"release") {
        return release_of(args);
    }
    if is_word(command, b"poll") {
        return poll_of(map, args);
    }
    if is_word(command, b"deliver") {
        return deliver_of(map, args);
    }
    None
}

/// `E N`.
fn fill_of(args: &[&[u8]]) -> Option<ScriptLine>
    ensures value { option_map script_line_view result ≡ fill_in (fields_view args.now) }
    ensures owed { IfSome result IsLineOwed }
{
    let [end, count] = args else {
        return None;
    };
    Some(ScriptLine::Fill {
        end: index_of(end)?,
        count: number_of(count)?,
    })
}

fn take_of(args: &[&[u8]]) -> Option<ScriptLine>
    ensures value { option_map script_line_view result ≡ counted_in Take (fields_view args.now) }
    ensures owed { IfSome result IsLineOwed }
{
    let end = index_of(only(args)?)?;
    Some(ScriptLine::Take(end))
}

fn tick_of(args: &[&[u8]]) -> Option<ScriptLine>
    ensures value { option_map script_line_view result ≡ counted_in Tick (fields_view args.now) }
    ensures owed { IfSome result IsLineOwed }
{
    let milliseconds = number_of(only(args)?)?;
    Some(ScriptLine::Tick(milliseconds))
}

fn run_of(args: &[&[u8]]) -> Option<ScriptLine>
    ensures value { option_map script_line_view result ≡ counted_in Run (fields_view args.now) }
    ensures owed { IfSome result IsLineOwed }
{
    let rounds = number_of(only(args)?)?;
    Some(ScriptLine::Run(rounds))
}

fn pump_of(args: &[&[u8]]) -> Option<ScriptLine>
    ensures value { option_map script_line_view result ≡ counted_in Pump (fields_view args.now) }
    ensures owed { IfSome result IsLineOwed }
{
    let rounds = number_of(only(args)?)?;
    Some(ScriptLine::Pump(rounds))
}

fn act_of(event: Option<Event>) -> Option<ScriptLine>
    requires { IfSome event IsActOwed }
    ensures value { option_map script_line_view result ≡ option_map Act (option_map event_view event) }
    ensures owed { IfSome result IsLineOwed }
{
    Some(ScriptLine::Act(event?))
}

/// A line that is read without memory.
fn plain_of(map: &Names, command: &[u8], args: &[&[u8]]) -> Option<ScriptLine>
    ensures value { option_map script_line_view result
        ≡ plain_in (map_view map.now) command.now (fields_view args.now) }
    ensures owed { IfSome result IsLineOwed }
{
    if is_word(command, b"fill") {
        return fill_of(args);
    }
    if is_word(command, b"take") {
        return take_of(args);
    }
    if is_word(command, b"tick") {
        return tick_of(args);
    }
    if is_word(command, b"run") {
        return run_of(args);
    }
    if is_word(command, b"pump") {
        return pump_of(args);
    }
    act_of(event_of(map, command, args))
}

/// `E SS HEX`.
fn send_of(alloc: Global, args: &[&[u8]]) -> Result<ScriptLine, ScriptFault>
    ensures read { ReadsScriptLine (send_in (fields_view args.now)) true result }
    ensures owed { IfOk result IsLineOwed }
{
    let [end, stream, body] = args else {
        return Err(ScriptFault::Bad);
    };
    match (index_of(end), stream_of(stream), bytes_of(alloc, body)?) {
        (Some(who), Some(stream), Some(body)) => Ok(ScriptLine::Act(Event::Send {
            who,
            message: Message { stream, body },
        })),
        _ => Err(ScriptFault::Bad),
    }
}

/// `NET NODE HEX`.
fn inject_of(alloc: Global, args: &[&[u8]]) -> Result<ScriptLine, ScriptFault>
    ensures read { ReadsScriptLine (inject_in (fields_view args.now)) true result }
    ensures owed { IfOk result IsLineOwed }
{
    let [network, node, bytes] = args else {
        return Err(ScriptFault::Bad);
    };
    match (
        parse_network(network),
        Node::from_hex(node),
        bytes_of(alloc, bytes)?,
    ) {
        (Some(segment), Some(next), Some(bytes)) => Ok(ScriptLine::Act(Event::Inject {
            segment,
            next,
            bytes,
        })),
        _ => Err(ScriptFault::Bad),
    }
}

/// Reads the fields of a line after the layout that is not blank. What it names must exist.
pub fn read_line(alloc: Global, map: &Names, fields: &[&[u8]]) -> Result<ScriptLine, ScriptFault>
    ensures read { ReadsLine (map_view map.now) (fields_view fields.now) result }
    ensures owed { IfOk result IsLineOwed }
{
    let Some((command, args)) = fields.split_first() else {
        return Err(ScriptFault::Bad);
    };
    if is_word(command, b"send") {
        return send_of(alloc, args);
    }
    if is_word(command, b"inject") {
        return inject_of(alloc, args);
    }
    match plain_of(map, command, args) {
        Some(line) => Ok(line),
        None => Err(ScriptFault::Bad),
    }
}
