//! What helps with words of the command line that some try.

use crate::commands::{CHECK, IPXNET, LISTEN, PING, ROUTE, SEND, UDP};

const CHECK_TIP: &str =
    "tip: ipx route --check FILE, or ipx listen --check FILE, checks a configuration file";

const PORT_TIP: &str = "tip: write --port before a port, such as --port 2130";

const PORT_OF_FILE_TIP: &str = "tip: the UDP port is the key udp_port of the file";

const INPUT_TIP: &str = "tip: ipx send reads standard input: write < FILE after SOCKET";

const OUTPUT_TIP: &str = "tip: ipx listen writes to standard output: write > FILE";

const SERVERS_TIP: &str =
    "tip: ipx ipxnet starts a server for players, and ipx route FILE a router";

const ONLY_PORT_TIP: &str =
    "tip: --port is the only option; for other settings write a file, and start it by ipx route FILE";

/// Whether a word has only digits, as a port.
fn is_number(word: &str) -> bool {
    word.bytes().all(|byte| byte.is_ascii_digit())
}

fn is_option(word: &str) -> bool {
    word.as_bytes().starts_with(b"-")
}

fn has_word(words: &[String], wanted: &str) -> bool {
    words.iter().any(|word| word.as_str() == wanted)
}

/// What helps with an option that no command has, or only another one.
fn tip_for_option(command: &str, words: &[String]) -> Option<&'static str> {
    match command {
        "--check" => Some(CHECK_TIP),
        "version" => Some("tip: ipx --version prints the version"),
        "server" | "startserver" => Some(SERVERS_TIP),
        IPXNET if has_word(words, "-p") || has_word(words, "-port") => Some(PORT_TIP),
        IPXNET if has_word(words, "connect") => {
            Some("tip: ipxnet connect is typed in DOSBox; ipx ipxnet starts a server")
        }
        IPXNET => Some(ONLY_PORT_TIP),
        ROUTE | LISTEN | SEND if has_word(words, "--port") || has_word(words, "--udp_port") => {
            Some(PORT_OF_FILE_TIP)
        }
        LISTEN if has_word(words, "-once") => Some("tip: write --once"),
        SEND if has_word(words, "-f") => Some(INPUT_TIP),
        PING if has_word(words, "-n") => Some("tip: -c is the number of requests, as -c 4"),
        _ => None,
    }
}

/// What helps with these words, which begin with the name of the program.
pub fn tip_for(words: &[String]) -> Option<&'static str> {
    match words {
        [_, command, word] if command.as_str() == CHECK && !is_option(word) => Some(CHECK_TIP),
        [_, command, word] if is_number(word) && matches!(command.as_str(), IPXNET | UDP) => {
            Some(PORT_TIP)
        }
        [_, command, word] if command.as_str() == IPXNET && word.ends_with(".toml") => {
            Some("tip: ipx route FILE starts the router of a configuration file")
        }
        [_, command, _, word] if command.as_str() == LISTEN && !is_option(word) => {
            Some(OUTPUT_TIP)
        }
        [_, command, _, _, _, _, word] if command.as_str() == SEND && !is_option(word) => {
            Some(INPUT_TIP)
        }
        _ => match words.get(1) {
            Some(command) => tip_for_option(command, words),
            None => None,
        },
    }
}
