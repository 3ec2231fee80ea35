//! Parsing the words of the command line.

ghost use Rattle.std.specs.Prelude.{◌≡◌, ◌↔◌, ◌∷◌, [], IsFalse, codes, drop, map, nat_eq, string_bytes};
ghost use Rattle.std.specs.List.{starts_with};
ghost use Rattle.ipx_tool.specs.Words.{ArePlain, AskForOne, AsksFor, Finds, IsOfType, IsPingTimes, IsPlain, WritesNumber, target_words};

use crate::commands::{
    CHECK, CHECK_OPTION, COUNT_OPTION, FAREWELL, FRAME_IS, FRAME_OPTION, HOP, IPXNET, JSON_OPTION,
    LISTEN, NETWORKS, ONCE_OPTION, PING, PORT_IS, PORT_OPTION, ROUTE, SEND, SERVICES, SHOW, SIM,
    UDP,
};
use crate::help::whole_command;
use clap::Error;
use clap::error::ErrorKind;
use ipx_carrier::UDP_PORT;
use ipx_config::Target;
use ipx_wire::Node;
use std::alloc::Global;

/// A command of the program. The text of `Show` is its packet in hex.
pub enum Task<'a> {
    Hop,
    Show(&'a str),
    /// The station that hears the frames.
    ShowFrames(Node),
    Check,
    Sim,
    /// The UDP port of every socket.
    Udp(u16),
    /// The UDP port to which players connect.
    Ipxnet(u16),
    /// The file of the site.
    Route(&'a str),
    /// The file of the site whose router has stopped.
    Farewell(&'a str),
    /// The file of a site, which is only checked.
    CheckSite(&'a str),
    /// The file of the host, and whether it ends after the first connection that is heard.
    Listen(&'a str, bool),
    /// The file of a host, which is only checked.
    CheckHost(&'a str),
    /// The file of the host, and the target that it connects to.
    Send(&'a str, Target<'a>),
    /// The file of the host that asks, and whether it prints JSON.
    Networks(&'a str, bool),
    /// The file of the host that asks, and whether it prints JSON.
    Services(&'a str, bool),
    /// The file of the host that asks, the type of the services, and whether it prints JSON.
    ServicesOf(&'a str, &'a str, bool),
    /// The file of the host that pings, and its target.
    Ping(&'a str, Target<'a>),
    /// The file of the host that pings, its target, and the number of requests.
    PingTimes(&'a str, Target<'a>, u16),
}

/// The command that the words ask for. The first word is the program's own name. These words ask
/// for a command, and no others do:
///
/// - `hop`, `check`, `sim`, `udp` or `ipxnet` alone;
/// - `show`, `route`, `farewell` or `listen`, and one word that is no option;
/// - `listen` and such a word, with `--once` before or after it;
/// - `route` or `listen` and such a word, with `--check` before or after it;
/// - `send` or `ping`, and four words that are no options; `ping` may have `-c` and a number after
///   it anywhere among these;
/// - `networks` or `services` and such a word, or `services` and two, with `--json` anywhere after
///   the command, or without it;
/// - `udp` or `ipxnet` and a port, as `--port P` or `--port=P`;
/// - `show` and a station, as `--frame NODE` or `--frame=NODE`.
pub fn task_of(words: &[String]) -> Option<Task<'_>>
    ensures { Finds (AsksFor (drop 1 (map string_bytes words.now))) result }
{
    match words {
        [_, command] => plain_task(command.as_str()),
        [_, command, word] => one_word_task(command.as_str(), word.as_str()),
        [_, command, option, value] => {
            option_task(command.as_str(), option.as_str(), value.as_str())
        }
        [_, command, first, second, third] => {
            three_words_task(
                command.as_str(),
                first.as_str(),
                second.as_str(),
                third.as_str(),
            )
        }
        [_, command, file, network, node, socket] => {
            let target = target_of(network.as_str(), node.as_str(), socket.as_str());
            dialing_task(command.as_str(), file.as_str(), target)
        }
        [_, command, first, second, third, fourth, fifth, sixth] => {
            counted_task(
                command.as_str(),
                first.as_str(),
                second.as_str(),
                third.as_str(),
                fourth.as_str(),
                fifth.as_str(),
                sixth.as_str(),
            )
        }
        _ => None,
    }
}

fn plain_task(command: &str) -> Option<Task<'_>>
    ensures { Finds (AsksFor (command.now ∷ [])) result }
{
    match command {
        HOP => Some(Task::Hop),
        CHECK => Some(Task::Check),
        SIM => Some(Task::Sim),
        UDP => Some(Task::Udp(UDP_PORT)),
        IPXNET => Some(Task::Ipxnet(UDP_PORT)),
        _ => None,
    }
}

/// Whether a word is an option.
fn is_option(word: &str) -> bool
    ensures { result ≡ starts_with nat_eq word.now (codes "-") }
{
    word.as_bytes().starts_with(b"-")
}

/// A command with one word that is no option: the packet of `show`, or a file.
fn word_task<'a>(command: &str, word: &'a str) -> Option<Task<'a>>
    ensures { Finds (λ t. IsPlain word.now × AsksFor (command.now ∷ word.now ∷ []) t) result }
{
    if is_option(word) {
        return None;
    }
    match command {
        SHOW => Some(Task::Show(word)),
        ROUTE => Some(Task::Route(word)),
        FAREWELL => Some(Task::Farewell(word)),
        LISTEN => Some(Task::Listen(word, false)),
        NETWORKS => Some(Task::Networks(word, false)),
        SERVICES => Some(Task::Services(word, false)),
        _ => None,
    }
}

/// A host that asks, with `--json`.
fn json_task<'a>(command: &str, path: &'a str) -> Option<Task<'a>>
    ensures { Finds (AsksFor (command.now ∷ codes "--json" ∷ path.now ∷ [])) result }
{
    if is_option(path) {
        return None;
    }
    match command {
        NETWORKS => Some(Task::Networks(path, true)),
        SERVICES => Some(Task::Services(path, true)),
        _ => None,
    }
}

/// A host that asks for the services of one type.
fn type_task<'a>(command: &str, file: &'a str, kind: &'a str, json: bool) -> Option<Task<'a>>
    ensures { Finds (IsOfType command.now file.now kind.now json) result }
{
    if command != SERVICES || is_option(file) || is_option(kind) {
        return None;
    }
    Some(Task::ServicesOf(file, kind, json))
}

/// A command with three more words: a file, a type and `--json`.
fn three_words_task<'a>(
    command: &str,
    first: &'a str,
    second: &'a str,
    third: &'a str,
) -> Option<Task<'a>>
    ensures { Finds (AsksFor (command.now ∷ first.now ∷ second.now ∷ third.now ∷ [])) result }
{
    if first == JSON_OPTION {
        return type_task(command, second, third, true);
    }
    if second == JSON_OPTION {
        return type_task(command, first, third, true);
    }
    if third == JSON_OPTION {
        return type_task(command, first, second, true);
    }
    None
}

/// A host that listens until the end of one connection.
fn once_task<'a>(command: &str, file: &'a str) -> Option<Task<'a>>
    ensures { Finds (AsksFor (command.now ∷ codes "--once" ∷ file.now ∷ [])) result }
{
    if command != LISTEN || is_option(file) {
        return None;
    }
    Some(Task::Listen(file, true))
}

/// A file that is only checked.
fn check_task<'a>(command: &str, file: &'a str) -> Option<Task<'a>>
    ensures { Finds (AsksFor (command.now ∷ codes "--check" ∷ file.now ∷ [])) result }
{
    if is_option(file) {
        return None;
    }
    match command {
        ROUTE => Some(Task::CheckSite(file)),
        LISTEN => Some(Task::CheckHost(file)),
        _ => None,
    }
}

/// The target that three words name.
fn target_of<'a>(network: &'a str, node: &'a str, socket: &'a str) -> Target<'a>
    ensures { target_words result ≡ network.now ∷ node.now ∷ socket.now ∷ [] }
{
    Target {
        network,
        node,
        socket,
    }
}

/// Whether a word of a target is an option.
fn has_option(target: Target<'_>) -> bool
    ensures { IsFalse result ↔ ArePlain (target_words target.entry) }
{
    is_option(target.network) || is_option(target.node) || is_option(target.socket)
}

/// A host that sends, or pings.
fn dialing_task<'a>(command: &str, file: &'a str, target: Target<'a>) -> Option<Task<'a>>
    ensures { Finds (AsksFor (command.now ∷ file.now ∷ target_words target.entry)) result }
{
    if is_option(file) || has_option(target) {
        return None;
    }
    match command {
        SEND => Some(Task::Send(file, target)),
        PING => Some(Task::Ping(file, target)),
        _ => None,
    }
}

/// A host that pings, with the number of requests that a text gives.
fn times_task<'a>(command: &str, file: &'a str, target: Target<'a>, text: &str) -> Option<Task<'a>>
    ensures { Finds (IsPingTimes command.now (file.now ∷ target_words target.entry) text.now) result }
{
    if command != PING || is_option(file) || has_option(target) {
        return None;
    }
    Some(Task::PingTimes(file, target, number_of(text)?))
}

/// A host that pings, with `-c` and a number somewhere among its file and its target.
fn counted_task<'a>(
    command: &str,
    first: &'a str,
    second: &'a str,
    third: &'a str,
    fourth: &'a str,
    fifth: &'a str,
    sixth: &'a str,
) -> Option<Task<'a>>
    ensures { Finds (AsksFor (command.now ∷ first.now ∷ second.now ∷ third.now ∷ fourth.now
        ∷ fifth.now ∷ sixth.now ∷ [])) result }
{
    if first == COUNT_OPTION {
        return times_task(command, third, target_of(fourth, fifth, sixth), second);
    }
    if second == COUNT_OPTION {
        return times_task(command, first, target_of(fourth, fifth, sixth), third);
    }
    if third == COUNT_OPTION {
        return times_task(command, first, target_of(second, fifth, sixth), fourth);
    }
    if fourth == COUNT_OPTION {
        return times_task(command, first, target_of(second, third, sixth), fifth);
    }
    if fifth == COUNT_OPTION {
        return times_task(command, first, target_of(second, third, fourth), sixth);
    }
    None
}

/// A number from 1 to 65,535 in decimal digits.
fn number_of(text: &str) -> Option<u16>
    ensures { Finds (WritesNumber text.now) result }
{
    let number = text.parse::<u16>().ok()?;
    if number == 0 { None } else { Some(number) }
}

/// A script over UDP, or a server for players, at the port that a text gives.
fn port_task<'a>(command: &str, text: &str) -> Option<Task<'a>>
    ensures { Finds (AsksFor (command.now ∷ codes "--port" ∷ text.now ∷ [])) result }
{
    match command {
        UDP => Some(Task::Udp(number_of(text)?)),
        IPXNET => Some(Task::Ipxnet(number_of(text)?)),
        _ => None,
    }
}

/// Frames to show, as the station with this address hears them.
fn frames_task<'a>(command: &str, text: &str) -> Option<Task<'a>>
    ensures { Finds (AsksFor (command.now ∷ codes "--frame" ∷ text.now ∷ [])) result }
{
    if command != SHOW {
        return None;
    }
    Some(Task::ShowFrames(Node::from_hex(text.as_bytes())?))
}

/// A command with one more word: one that is no option, or an option with the port of `udp` or
/// `ipxnet`, or the station of `show`.
fn one_word_task<'a>(command: &str, word: &'a str) -> Option<Task<'a>>
    ensures { Finds (AsksFor (command.now ∷ word.now ∷ [])) result }
{
    if let Some(port) = word.strip_prefix(PORT_IS) {
        return port_task(command, port);
    }
    if let Some(node) = word.strip_prefix(FRAME_IS) {
        return frames_task(command, node);
    }
    word_task(command, word)
}

/// A command with two more words: the port of `udp` or `ipxnet`, the station of `show`, a file and
/// `--once`, `--check` or `--json`, or a file and a type.
fn option_task<'a>(command: &str, first: &'a str, second: &'a str) -> Option<Task<'a>>
    ensures { Finds (AsksFor (command.now ∷ first.now ∷ second.now ∷ [])) result }
{
    if first == PORT_OPTION {
        return port_task(command, second);
    }
    if first == ONCE_OPTION {
        return once_task(command, second);
    }
    if first == CHECK_OPTION {
        return check_task(command, second);
    }
    if second == ONCE_OPTION {
        return once_task(command, first);
    }
    if second == CHECK_OPTION {
        return check_task(command, first);
    }
    if first == JSON_OPTION {
        return json_task(command, second);
    }
    if second == JSON_OPTION {
        return json_task(command, first);
    }
    if first == FRAME_OPTION {
        return frames_task(command, second);
    }
    type_task(command, first, second, false)
}

/// No words ask for two commands.
pub fn words_ask_for_one()
    ensures { AskForOne }
{}

/// Why the words ask for no command: a mistake, or a request for help or the version, with the text
/// to print.
pub fn fault_of(alloc: Global, words: &[String]) -> Error {
    match usage_of(alloc, words) {
        Ok(error) | Err(error) => error,
    }
}

fn usage_of(alloc: Global, words: &[String]) -> Result<Error, Error> {
    let mut command = whole_command(alloc)?;
    command.try_get_matches_from_mut(words)?;
    let error = if words.iter().any(|word| word.as_str() == "--") {
        command.error(ErrorKind::UnknownArgument, "unexpected argument '--' found")?
    } else if words
        .iter()
        .any(|word| word.as_bytes().starts_with(b"--frame"))
    {
        command.error(ErrorKind::ValueValidation, "NODE must be twelve hex digits")?
    } else if words.iter().any(|word| word.as_str() == "-") {
        command.error(ErrorKind::UnknownArgument, "unexpected argument '-' found")?
    } else if words.iter().any(|word| word.as_bytes().starts_with(b"-c")) {
        command.error(ErrorKind::ValueValidation, "-c and N must be two arguments")?
    } else {
        command.error(ErrorKind::UnknownArgument, "the arguments name no command")?
    };
    Ok(error)
}
