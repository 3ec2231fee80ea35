//! The lines of networks in a table file.

ghost use Rattle.std.specs.Prelude.{◌≡◌, ◌⊎◌, IfOk, map, string_bytes};
ghost use Rattle.std.specs.List.{flat_map};
ghost use Rattle.ipx_config.specs.Checked.{shown_text};
ghost use Rattle.ipx_table_dump.specs.TableParts.{own_spelled};
ghost use Rattle.ipx_table_dump.specs.TableRead.{network_spelled};
ghost use Rattle.ipx_query_cmd.specs.KnownLines.{direct_network_json, direct_network_row, known_network_json, known_network_row, known_networks_table, known_networks_text, written_in};

use crate::columns::at_right;
use crate::fault::KnownFault;
use crate::last_line::count_to_text;
use ipx_config::Escaped;
use ipx_table_dump::{NetworkWords, OwnWords, networks_of_text, own_networks_of_text};
use std::alloc::{AllocError, Global};
use std::str;

/// A word of a table file.
pub fn word_in(word: &[u8]) -> Result<&str, KnownFault>
    ensures { IfOk result (λ s. s.now ≡ word.now) }
{
    match str::from_utf8(word) {
        Ok(text) => Ok(text),
        Err(_) => Err(KnownFault::NoText),
    }
}

/// The last line: how many there are, and in which file.
pub fn written_to_line(alloc: Global, count: &str, place: &str) -> Result<String, AllocError>
    ensures { IfOk result (λ t. string_bytes t ≡ written_in count.now place.now) }
{
    let place = Escaped(place.as_bytes());
    format!(in alloc; "{count}, by {place}\n")
}

fn direct_to_row(alloc: Global, own: &OwnWords<'_>) -> Result<String, KnownFault>
    ensures { IfOk result (λ t. string_bytes t ≡ direct_network_row (own_spelled own.now)) }
{
    let network = word_in(own.network)?;
    let row = format!(in alloc; "{network}     0      0  -\n")?;
    Ok(row)
}

fn direct_to_json(alloc: Global, own: &OwnWords<'_>) -> Result<String, KnownFault>
    ensures { IfOk result (λ t. string_bytes t ≡ direct_network_json (own_spelled own.now)) }
{
    let network = word_in(own.network)?;
    let line = format!(in alloc;
        "{{\"network\":\"{network}\",\"hops\":0,\"ticks\":0,\"by\":\"-\"}}\n"
    )?;
    Ok(line)
}

fn known_to_row(alloc: Global, known: &NetworkWords<'_>) -> Result<String, KnownFault>
    ensures { IfOk result (λ t. string_bytes t ≡ known_network_row (network_spelled known.now)) }
{
    let network = word_in(known.network)?;
    let hops = at_right(alloc, 4, word_in(known.hops)?)?;
    let ticks = at_right(alloc, 5, word_in(known.ticks)?)?;
    let by = word_in(known.next)?;
    let row = format!(in alloc; "{network}  {hops}  {ticks}  {by}\n")?;
    Ok(row)
}

fn known_to_json(alloc: Global, known: &NetworkWords<'_>) -> Result<String, KnownFault>
    ensures { IfOk result (λ t. string_bytes t ≡ known_network_json (network_spelled known.now)) }
{
    let network = word_in(known.network)?;
    let hops = word_in(known.hops)?;
    let ticks = word_in(known.ticks)?;
    let by = word_in(known.next)?;
    let line = format!(in alloc;
        "{{\"network\":\"{network}\",\"hops\":{hops},\"ticks\":{ticks},\"by\":\"{by}\"}}\n"
    )?;
    Ok(line)
}

fn directs_to_rows(alloc: Global, owns: &[OwnWords<'_>]) -> Result<String, KnownFault>
    ensures { IfOk result (λ t. string_bytes t
        ≡ flat_map direct_network_row (map own_spelled owns.now)) }
{
    let mut rows = String::new(alloc);
    for own in owns {
        let row = direct_to_row(alloc, own)?;
        rows.push_str(&row)?;
    }
    Ok(rows)
}

fn directs_to_json(alloc: Global, owns: &[OwnWords<'_>]) -> Result<String, KnownFault>
    ensures { IfOk result (λ t. string_bytes t
        ≡ flat_map direct_network_json (map own_spelled owns.now)) }
{
    let mut lines = String::new(alloc);
    for own in owns {
        let line = direct_to_json(alloc, own)?;
        lines.push_str(&line)?;
    }
    Ok(lines)
}

fn knowns_to_rows(alloc: Global, bests: &[NetworkWords<'_>]) -> Result<String, KnownFault>
    ensures { IfOk result (λ t. string_bytes t
        ≡ flat_map known_network_row (map network_spelled bests.now)) }
{
    let mut rows = String::new(alloc);
    for best in bests {
        let row = known_to_row(alloc, best)?;
        rows.push_str(&row)?;
    }
    Ok(rows)
}

fn knowns_to_json(alloc: Global, bests: &[NetworkWords<'_>]) -> Result<String, KnownFault>
    ensures { IfOk result (λ t. string_bytes t
        ≡ flat_map known_network_json (map network_spelled bests.now)) }
{
    let mut lines = String::new(alloc);
    for best in bests {
        let line = known_to_json(alloc, best)?;
        lines.push_str(&line)?;
    }
    Ok(lines)
}

fn knowns_to_table(
    alloc: Global,
    place: &str,
    owns: &[OwnWords<'_>],
    bests: &[NetworkWords<'_>],
) -> Result<String, KnownFault>
    ensures { IfOk result (λ t. string_bytes t
        ≡ known_networks_table place.now (map own_spelled owns.now) (map network_spelled bests.now)) }
{
    let direct = directs_to_rows(alloc, owns)?;
    let rows = knowns_to_rows(alloc, bests)?;
    let count = count_to_text(alloc, owns.len() + bests.len(), "1 network", " networks")?;
    let last = written_to_line(alloc, &count, place)?;
    let table = format!(in alloc; "network   hops  ticks  by\n{direct}{rows}{last}")?;
    Ok(table)
}

/// All that is printed of the networks in the text of a table file: a table, or a line of JSON for
/// each.
pub fn known_networks_to_text(
    alloc: Global,
    json: bool,
    place: &str,
    text: &[u8],
) -> Result<String, KnownFault>
    ensures { IfOk result (λ t. string_bytes t ≡ known_networks_text json place.now text.now) }
{
    let owns = own_networks_of_text(alloc, text)?;
    let bests = networks_of_text(alloc, text)?;
    if json {
        let direct = directs_to_json(alloc, &owns)?;
        let lines = knowns_to_json(alloc, &bests)?;
        let all = format!(in alloc; "{direct}{lines}")?;
        return Ok(all);
    }
    knowns_to_table(alloc, place, &owns, &bests)
}
