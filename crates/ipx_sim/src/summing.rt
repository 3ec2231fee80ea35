//! The lines at the end of a script.

ghost use Rattle.std.specs.Prelude.{◌≡◌, ◌↔◌, ℕ, List, IfErr, IsTrue, OnOk, map, string_bytes};
ghost use Rattle.ipx_net.specs.Begins.{Begins};
ghost use Rattle.std.specs.Io.KnownBytes.{Appends};
ghost use Rattle.std.specs.Int.{w16, to_be_bytes};
ghost use Rattle.hex.specs.Hex.{encode_lower};
ghost use Rattle.ipx_net.specs.Ends.{TellsEnds};
ghost use Rattle.ipx_net.specs.declared.endinfo.EndInfo.{EndInfo};
ghost use Rattle.ipx_sim.specs.Summary.{AreEndLines, Summarizes, end_counts_text, end_summary_line, fresh_line, name_at, present_text};

use crate::words::{state_word, yes_no};
use ipx_net::{EndInfo, Net};
use std::io::{Result as Written, Write};

/// The name of a host, if it has one.
fn name_of(names: &[String], host: usize) -> &str
    ensures { result.now ≡ name_at (map string_bytes names.now) host }
{
    match names.get(host) {
        Some(name) => name.as_str(),
        None => "",
    }
}

/// Writes an end, its host and its state, which is how the line of an end begins. The names are
/// those of the hosts, in order.
pub fn write_present<W: Write>(
    writer: &mut W,
    names: &[String],
    who: usize,
    info: EndInfo,
) -> Written<()>
    ensures { OnOk result (Appends (W.contents writer.old) (W.contents writer.new)
        (present_text (map string_bytes names.now) who info)) }
{
    let name = name_of(names, info.host);
    let state = state_word(info.state);
    write!(writer, "end {who} {name} {state}")
}

/// A number in 4 hex digits.
fn digits_of(number: u16) -> [u8; 4]
    ensures { result ≡ encode_lower (to_be_bytes w16 number) }
{
    let mut digits = [0; 4];
    let _fits = hex::encode_to_slice(number.to_be_bytes(), &mut digits);
    digits
}

/// Writes how many messages went in and out of an end, and its next number, which is how its line
/// continues.
pub fn write_counts<W: Write>(writer: &mut W, info: EndInfo) -> Written<()>
    ensures { OnOk result (Appends (W.contents writer.old) (W.contents writer.new)
        (end_counts_text info)) }
{
    let given = info.given;
    let out = info.out;
    write!(writer, " in {given} out {out} next ")?;
    writer.write_all(&digits_of(info.next))
}

fn write_end<W: Write>(
    writer: &mut W,
    names: &[String],
    who: usize,
    info: EndInfo,
    begins: bool,
) -> Written<()>
    ensures { OnOk result (Appends (W.contents writer.old) (W.contents writer.new)
        (end_summary_line (map string_bytes names.now) who info begins)) }
{
    write_present(writer, names, who, info)?;
    write_counts(writer, info)?;
    let begins = yes_no(begins);
    write!(writer, " begins {begins}\n")
}

/// Whether what an end handed out is a prefix of what its peer handed in.
fn begins_of(net: &Net, who: usize) -> bool
    ensures { IsTrue result ↔ Begins net.now.now.world.log who }
{
    net.begins(who)
}

fn write_ends<W: Write>(writer: &mut W, net: &Net, names: &[String]) -> Written<()>
    ensures { OnOk result ((infos : List EndInfo) × TellsEnds net.now infos × (lines : List ℕ)
        × AreEndLines net.now (map string_bytes names.now) 0 infos lines
        × Appends (W.contents writer.old) (W.contents writer.new) lines) }
{
    let infos = net.ends();
    for who in 0..infos.len() {
        write_end(writer, names, who, infos[who], begins_of(net, who))?;
    }
    Ok(())
}

fn write_fresh<W: Write>(writer: &mut W, fresh: bool) -> Written<()>
    ensures { OnOk result (Appends (W.contents writer.old) (W.contents writer.new)
        (fresh_line fresh)) }
{
    let fresh = yes_no(fresh);
    write!(writer, "fresh {fresh}\n")
}

fn write_summary<W: Write>(writer: &mut W, net: &Net, names: &[String]) -> Written<()>
    ensures { OnOk result ((text : List ℕ) × Summarizes net.now (map string_bytes names.now) text
        × Appends (W.contents writer.old) (W.contents writer.new) text) }
{
    write_ends(writer, net, names)?;
    write_fresh(writer, net.fresh())
}

/// Writes the last lines of a script: one for each end, from what the network tells of it, and one
/// that says whether all that was read of peers was fresh. The names are those of the hosts, in
/// order; a host without one prints an empty name.
///
/// `Err` is the status 1 of a write fault, after which nothing more is written.
pub fn summary<W: Write>(net: &Net, names: &[String], writer: &mut W) -> Result<(), u8>
    ensures written { OnOk result ((text : List ℕ)
        × Summarizes net.now (map string_bytes names.now) text
        × Appends (W.contents writer.old) (W.contents writer.new) text) }
    ensures fault { IfErr result (λ status. status ≡ 1) }
{
    write_summary(writer, net, names).map_err(|_| 1)
}
