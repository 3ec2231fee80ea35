//! The command `ipxnet`: a server for players, without a file.

ghost use Rattle.std.specs.Prelude.{◌≡◌, ◌≤◌, ◌⊎◌, IfErr, IfOk, OnOk, string_bytes};
ghost use Rattle.std.specs.Io.KnownBytes.{Appends};
ghost use Rattle.ipx_site.specs.IpxnetFile.{ipxnet_file_text};
ghost use Rattle.ipx_site.specs.RoutingRuns.{RoutesByText, StartsByText};

use crate::router_runs::run_router;
use crate::running_router::RunningRouter;
use crate::starting::start_loaded;
use ipx_config::{site_in, tell_no_memory, write_text};
use log::Log;
use std::alloc::{AllocError, Global};
use std::io::Write;
use std::net::Net;
use std::rt::{Clock as SystemClock, Files};

/// What error messages have in place of the path of a file.
const NAME: &str = "ipx ipxnet";

/// The text of a router's file with one ipxnet port, at which everybody may register.
pub fn ipxnet_file(alloc: Global, port: u16) -> Result<String, AllocError>
    ensures { IfOk result (λ text. string_bytes text ≡ ipxnet_file_text port) }
{
    format!(in alloc;
        "# In DOSBox, players type `ipxnet connect ADDRESS {port}`, \
         with the address of this machine.\n\
         # To change something, put these lines into a file, and run `ipx route FILE`.\n\
         [[port]]\n\
         kind = \"ipxnet\"\n\
         network = \"0000d05b\"\n\
         address = \"any\"\n\
         udp_port = {port}\n\
         accept = \"any\"\n"
    )
}

/// Starts the router of a file with this text, as [`start_router`](crate::start_router) does.
fn start_text<'a, R: Net + Log + Files + SystemClock + Eprint>(
    rt: &'a R,
    alloc: Global,
    text: &str,
) -> Result<RunningRouter<'a, R>, u8>
    ensures starts { IfOk result (StartsByText text.now) }
    ensures refused { IfErr result (λ status. (status ≡ 1) ⊎ (status ≡ 2)) }
{
    let loaded = site_in(rt, alloc, NAME, text.as_bytes());
    start_loaded(rt, alloc, NAME, loaded)
}

/// Writes the text of [`ipxnet_file`], and starts the router of a file with this text. Then call
/// [`run_router`].
///
/// The error is the exit status. 1: out of memory, the writer fails, the socket cannot be bound,
/// there is no secret, or the system does not tell the time. One line on standard error says which.
/// 2: the text has a fault; a test reads it with ports of each length, and finds none.
pub fn start_ipxnet<'a, R: Net + Log + Files + SystemClock + Eprint, W: Write>(
    rt: &'a R,
    alloc: Global,
    port: u16,
    writer: &mut W,
) -> Result<RunningRouter<'a, R>, u8>
    // It has started as the text that was written describes.
    ensures starts { IfOk result (StartsByText (ipxnet_file_text port)) }
    ensures written { OnOk result
        (Appends (W.contents writer.old) (W.contents writer.new) (ipxnet_file_text port)) }
    ensures refused { IfErr result (λ status. (status ≡ 1) ⊎ (status ≡ 2)) }
{
    let Ok(text) = ipxnet_file(alloc, port) else {
        return Err(tell_no_memory(rt, NAME));
    };
    write_text(rt, &text, writer)?;
    start_text(rt, alloc, &text)
}

/// The command `ipxnet`: writes a file with one ipxnet port, at this UDP port, and does what
/// [`do_route`](crate::do_route) does with that file. No file is made.
///
/// Returns the exit status if it ends by itself: that of [`start_ipxnet`], or of [`run_router`].
pub fn do_ipxnet<R: Net + Log + Files + SystemClock + Eprint, W: Write>(
    rt: &R,
    alloc: Global,
    port: u16,
    writer: &mut W,
) -> u8
    ensures few { result ≤ 2 }
    // The status is 0 only if it started as that text says, and ran 2^64 - 1 rounds, each from where
    // the last one left it.
    ensures well { result ≡ 0 → RoutesByText R (ipxnet_file_text port) }
{
    match start_ipxnet(rt, alloc, port, writer) {
        Ok(mut router) => run_router(rt, alloc, NAME, &mut router),
        Err(status) => status,
    }
}
