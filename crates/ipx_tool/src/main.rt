//! The program `ipx`: routers and endpoints of a Novell internetwork, from the command line.
#![tactic(auto)]

mod build;
mod commands;
mod help;
mod texts;
mod tips;
mod words;

use build::{COMMIT, TOOLCHAIN};
use clap::error::ErrorKind;
use ipx_config::{Target, check_site};
use ipx_farewell_cmd::do_farewell;
use ipx_host::{check_host, do_listen, do_send};
use ipx_inspect::{do_check, do_hop, do_show, do_show_frames, tell_no_memory};
use ipx_query_cmd::{do_networks, do_ping, do_services};
use ipx_sim::do_sim;
use ipx_sim_udp::do_udp;
use ipx_site::{do_ipxnet, do_route};
use ipx_wire::Node;
use std::io::IsTerminal;
use std::process::ExitCode;
use std::{env, io};
use tips::tip_for;
use words::{Task, fault_of, task_of};

/// The number of requests of a ping if none is given.
const USUAL_COUNT: u16 = 4;

/// The words of the command line, or the exit status if they cannot be read.
fn given_words(rt: &HostRuntime) -> Result<Vec<String>, u8> {
    match env::args(rt) {
        Ok(given) => given
            .collect::<Vec<String>>(rt.alloc())
            .map_err(|_| tell_no_memory(&mut io::writer(rt))),
        Err(error) if error.kind() == io::ErrorKind::OutOfMemory => {
            Err(tell_no_memory(&mut io::writer(rt)))
        }
        Err(_) => {
            let _ = eprintln!(rt; "error: an argument is not UTF-8 text");
            Err(2)
        }
    }
}

fn hop(rt: &HostRuntime) -> Result<u8, u8> {
    do_hop(rt.alloc(), &mut rt.stdin(), &mut io::writer(rt))
}

fn show_frames(rt: &HostRuntime, own: Node) -> Result<u8, u8> {
    do_show_frames(rt.alloc(), own, &mut rt.stdin(), &mut io::writer(rt))
}

fn check(rt: &HostRuntime) -> Result<u8, u8> {
    do_check(rt.alloc(), &mut rt.stdin(), &mut io::writer(rt))
}

fn sim(rt: &HostRuntime) -> Result<u8, u8> {
    do_sim(rt.alloc(), &mut rt.stdin(), &mut io::writer(rt))
}

fn udp(rt: &HostRuntime, port: u16) -> Result<u8, u8> {
    do_udp(rt, rt.alloc(), &mut rt.stdin(), &mut io::writer(rt), port)
}

/// A server for players. The file that does the same is written to standard output.
fn ipxnet(rt: &HostRuntime, port: u16) -> u8 {
    do_ipxnet(rt, rt.alloc(), port, &mut io::writer(rt))
}

/// A host that sends shows its progress if standard error is a terminal.
fn send(rt: &HostRuntime, file: &str, target: Target<'_>) -> u8 {
    let shows = rt.stderr().is_terminal();
    do_send(rt, rt.alloc(), file, target, &mut rt.stdin(), shows)
}

fn networks(rt: &HostRuntime, file: &str, json: bool) -> u8 {
    do_networks(rt, rt.alloc(), file, json, &mut io::writer(rt))
}

fn services(rt: &HostRuntime, file: &str, kind: Option<&str>, json: bool) -> u8 {
    do_services(rt, rt.alloc(), file, kind, json, &mut io::writer(rt))
}

fn ping(rt: &HostRuntime, file: &str, target: Target<'_>, count: u16) -> u8 {
    do_ping(rt, rt.alloc(), file, target, count, &mut io::writer(rt))
}

fn do_task(rt: &HostRuntime, task: Task<'_>) -> Result<u8, u8> {
    match task {
        Task::Hop => hop(rt),
        Task::Show(text) => do_show(rt.alloc(), text, &mut io::writer(rt)),
        Task::ShowFrames(own) => show_frames(rt, own),
        Task::Check => check(rt),
        Task::Sim => sim(rt),
        Task::Udp(port) => udp(rt, port),
        Task::Ipxnet(port) => Ok(ipxnet(rt, port)),
        Task::Route(file) => Ok(do_route(rt, rt.alloc(), file)),
        Task::Farewell(file) => Ok(do_farewell(rt, rt.alloc(), file)),
        Task::CheckSite(file) => Ok(check_site(rt, rt.alloc(), file, &mut io::writer(rt))),
        Task::CheckHost(file) => Ok(check_host(rt, rt.alloc(), file, &mut io::writer(rt))),
        Task::Listen(file, once) => {
            Ok(do_listen(rt, rt.alloc(), file, once, &mut io::writer(rt)))
        }
        Task::Send(file, target) => Ok(send(rt, file, target)),
        Task::Networks(file, json) => Ok(networks(rt, file, json)),
        Task::Services(file, json) => Ok(services(rt, file, None, json)),
        Task::ServicesOf(file, kind, json) => Ok(services(rt, file, Some(kind), json)),
        Task::Ping(file, target) => Ok(ping(rt, file, target, USUAL_COUNT)),
        Task::PingTimes(file, target, count) => Ok(ping(rt, file, target, count)),
    }
}

fn tell_tip(rt: &HostRuntime, words: &[String]) {
    if let Some(tip) = tip_for(words) {
        let _ = eprintln!(rt; "{tip}");
    }
}

/// Reports why the words ask for no command, and returns the exit status for it. After the version
/// `--verbose` adds what the program was built with.
fn tell_usage(rt: &HostRuntime, words: &[String]) -> u8 {
    let error = fault_of(rt.alloc(), words);
    if error.kind() == ErrorKind::OutOfMemory {
        return tell_no_memory(&mut io::writer(rt));
    }
    let _ = eprint!(rt; "{error}");
    if matches!(
        error.kind(),
        ErrorKind::UnknownArgument | ErrorKind::InvalidSubcommand
    ) {
        tell_tip(rt, words);
    }
    let is_verbose = words.iter().any(|word| word.as_str() == "--verbose");
    if is_verbose && error.kind() == ErrorKind::DisplayVersion {
        let _ = eprintln!(rt; "commit: {COMMIT}\ntoolchain: {TOOLCHAIN}");
    }
    2
}

fn run(rt: &HostRuntime) -> Result<u8, u8> {
    let words = given_words(rt)?;
    match task_of(words.as_slice()) {
        Some(task) => do_task(rt, task),
        None => Err(tell_usage(rt, words.as_slice())),
    }
}

fn main(rt: HostRuntime) -> ExitCode {
    match run(&rt) {
        Ok(status) | Err(status) => ExitCode::from(status),
    }
}
