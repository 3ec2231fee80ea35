//! The commands of the program, each with its name, its words, its options and its help texts.

use crate::texts;

/// A positional word of a command, with the name that its help uses.
pub struct WordShape {
    pub name: &'static str,
    pub help: &'static str,
    /// The option that replaces it.
    pub unless: Option<&'static str>,
    /// Whether it is required without that option.
    pub wanted: bool,
}

/// The value that follows an option.
#[derive(Clone, Copy, PartialEq, Eq)]
pub enum OptionValue {
    Nothing,
    /// A UDP port, which the help calls `P`.
    Port,
    /// The address of a station.
    Node,
    /// A number of requests, which the help calls `N`.
    Count,
}

/// An option of a command, by its word without dashes: one dash for a single letter, and two
/// otherwise. At most one of a command's options may be given.
pub struct OptionShape {
    pub name: &'static str,
    pub value: OptionValue,
    pub help: &'static str,
}

/// A command. Its required words come before an optional one.
pub struct CommandShape {
    pub name: &'static str,
    pub about: &'static str,
    pub long_about: &'static str,
    pub statuses: &'static str,
    pub words: &'static [WordShape],
    pub options: &'static [OptionShape],
}

pub const HOP: &str = "hop";

pub const SHOW: &str = "show";

pub const CHECK: &str = "check";

pub const SIM: &str = "sim";

pub const UDP: &str = "udp";

pub const ROUTE: &str = "route";

pub const FAREWELL: &str = "farewell";

pub const IPXNET: &str = "ipxnet";

pub const LISTEN: &str = "listen";

pub const SEND: &str = "send";

pub const NETWORKS: &str = "networks";

pub const SERVICES: &str = "services";

pub const PING: &str = "ping";

pub const PORT_OPTION: &str = "--port";
/// The option and `=`, for a port in the same word.
pub const PORT_IS: &str = "--port=";

pub const FRAME_OPTION: &str = "--frame";

/// The option and `=`, for a station in the same word.
pub const FRAME_IS: &str = "--frame=";

pub const ONCE_OPTION: &str = "--once";

pub const CHECK_OPTION: &str = "--check";

pub const JSON_OPTION: &str = "--json";

pub const COUNT_OPTION: &str = "-c";

const HOST_FILE: WordShape = WordShape {
    name: "HOST",
    help: "The configuration file of the host",
    unless: None,
    wanted: true,
};

const KNOWING_FILE: WordShape = WordShape {
    name: "HOST",
    help: "The configuration file of the host, or of a router",
    unless: None,
    wanted: true,
};

const NET: WordShape = WordShape {
    name: "NET",
    help: "The destination network, eight hex digits",
    unless: None,
    wanted: true,
};

const NODE: WordShape = WordShape {
    name: "NODE",
    help: "The destination node, twelve hex digits",
    unless: None,
    wanted: true,
};

const SOCKET: WordShape = WordShape {
    name: "SOCKET",
    help: "The destination socket, four hex digits",
    unless: None,
    wanted: true,
};

const CHECKS_FILE: OptionShape = OptionShape {
    name: "check",
    value: OptionValue::Nothing,
    help: "Checks the file and prints a summary, without opening a socket",
};

const PRINTS_JSON: OptionShape = OptionShape {
    name: "json",
    value: OptionValue::Nothing,
    help: "Prints one line of JSON for each, and nothing else",
};

const HOP_SHAPE: &CommandShape = &CommandShape {
    name: HOP,
    about: "What a router with two ports does with one packet",
    long_about: texts::HOP,
    statuses: texts::HOP_STATUSES,
    words: &[],
    options: &[],
};

const SHOW_SHAPE: &CommandShape = &CommandShape {
    name: SHOW,
    about: "The fields of one packet",
    long_about: texts::SHOW,
    statuses: texts::SHOW_STATUSES,
    words: &[WordShape {
        name: "HEX",
        help: "The packet, two hex digits per byte",
        unless: Some("frame"),
        wanted: true,
    }],
    options: &[OptionShape {
        name: "frame",
        value: OptionValue::Node,
        help: "Reads Ethernet frames from standard input, as the station NODE receives them",
    }],
};

const CHECK_SHAPE: &CommandShape = &CommandShape {
    name: CHECK,
    about: "Checks that packets are accepted or refused as expected",
    long_about: texts::CHECK,
    statuses: texts::CHECK_STATUSES,
    words: &[],
    options: &[],
};

const SIM_SHAPE: &CommandShape = &CommandShape {
    name: SIM,
    about: "Simulates a network in memory, driven by a script",
    long_about: texts::SIM,
    statuses: texts::SIM_STATUSES,
    words: &[],
    options: &[],
};

const UDP_SHAPE: &CommandShape = &CommandShape {
    name: UDP,
    about: "Runs a script over UDP sockets on the loopback",
    long_about: texts::UDP,
    statuses: texts::UDP_STATUSES,
    words: &[],
    options: &[OptionShape {
        name: "port",
        value: OptionValue::Port,
        help: "The UDP port of every socket, 1 to 65535; default 213",
    }],
};

const ROUTE_SHAPE: &CommandShape = &CommandShape {
    name: ROUTE,
    about: "An IPX router for one site, over UDP",
    long_about: texts::ROUTE,
    statuses: texts::ROUTE_STATUSES,
    words: &[WordShape {
        name: "SITE",
        help: "The configuration file of the router",
        unless: None,
        wanted: true,
    }],
    options: &[CHECKS_FILE],
};

const FAREWELL_SHAPE: &CommandShape = &CommandShape {
    name: FAREWELL,
    about: "Takes back what a router that has stopped advertised",
    long_about: texts::FAREWELL,
    statuses: texts::FAREWELL_STATUSES,
    words: &[WordShape {
        name: "SITE",
        help: "The configuration file of the router",
        unless: None,
        wanted: true,
    }],
    options: &[],
};

const IPXNET_SHAPE: &CommandShape = &CommandShape {
    name: IPXNET,
    about: "A server for players with DOSBox, without a file",
    long_about: texts::IPXNET,
    statuses: texts::IPXNET_STATUSES,
    words: &[],
    options: &[OptionShape {
        name: "port",
        value: OptionValue::Port,
        help: "The UDP port to which players connect, 1 to 65535; default 213",
    }],
};

const LISTEN_SHAPE: &CommandShape = &CommandShape {
    name: LISTEN,
    about: "Accepts SPX connections, and writes the messages that it receives",
    long_about: texts::LISTEN,
    statuses: texts::LISTEN_STATUSES,
    words: &[HOST_FILE],
    options: &[
        OptionShape {
            name: "once",
            value: OptionValue::Nothing,
            help: "Ends after the first connection from which anything arrives",
        },
        CHECKS_FILE,
    ],
};

const SEND_SHAPE: &CommandShape = &CommandShape {
    name: SEND,
    about: "Opens an SPX connection, and sends standard input",
    long_about: texts::SEND,
    statuses: texts::SEND_STATUSES,
    words: &[HOST_FILE, NET, NODE, SOCKET],
    options: &[],
};

const NETWORKS_SHAPE: &CommandShape = &CommandShape {
    name: NETWORKS,
    about: "Lists the networks that a router, or the routers of a host, know",
    long_about: texts::NETWORKS,
    statuses: texts::NETWORKS_STATUSES,
    words: &[KNOWING_FILE],
    options: &[PRINTS_JSON],
};

const SERVICES_SHAPE: &CommandShape = &CommandShape {
    name: SERVICES,
    about: "Lists the services that a router, or the routers of a host, know",
    long_about: texts::SERVICES,
    statuses: texts::SERVICES_STATUSES,
    words: &[
        KNOWING_FILE,
        WordShape {
            name: "TYPE",
            help: "The type of the services, four hex digits; default: all types",
            unless: None,
            wanted: false,
        },
    ],
    options: &[PRINTS_JSON],
};

const PING_SHAPE: &CommandShape = &CommandShape {
    name: PING,
    about: "Whether an SPX listener answers, and how far away it is",
    long_about: texts::PING,
    statuses: texts::PING_STATUSES,
    words: &[HOST_FILE, NET, NODE, SOCKET],
    options: &[OptionShape {
        name: "c",
        value: OptionValue::Count,
        help: "The number of requests, 1 to 65535; default 4",
    }],
};

/// All commands, in the order of the help.
pub fn shapes() -> [&'static CommandShape; 13] {
    [
        HOP_SHAPE,
        SHOW_SHAPE,
        CHECK_SHAPE,
        SIM_SHAPE,
        UDP_SHAPE,
        ROUTE_SHAPE,
        FAREWELL_SHAPE,
        IPXNET_SHAPE,
        LISTEN_SHAPE,
        SEND_SHAPE,
        NETWORKS_SHAPE,
        SERVICES_SHAPE,
        PING_SHAPE,
    ]
}
