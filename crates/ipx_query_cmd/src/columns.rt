//! Columns of a table, and numbers in hex.

ghost use Rattle.std.specs.Prelude.{◌≡◌, ◌-◌, IfOk, codes, length, string_bytes};
ghost use Rattle.std.specs.Fmt.{decimal};
ghost use Rattle.std.specs.List.{repeat};
ghost use Rattle.ipx_query_cmd.specs.OperatorLines.{at_left, at_right, network_digits, node_digits, socket_digits, type_digits};

use ipx_wire::{Network, Node, Socket};
use std::alloc::{AllocError, Global};

/// The spaces that fill a column of this width beside a text.
fn blanks_beside(alloc: Global, width: usize, text: &str) -> Result<String, AllocError>
    ensures { IfOk result (λ t. string_bytes t ≡ repeat (width - length text.now) (codes " ")) }
{
    " ".repeat(alloc, width.saturating_sub(text.len()))
}

/// A text, aligned right in a column of this width.
pub fn at_right(alloc: Global, width: usize, text: &str) -> Result<String, AllocError>
    ensures { IfOk result (λ t. string_bytes t ≡ at_right width text.now) }
{
    let blanks = blanks_beside(alloc, width, text)?;
    format!(in alloc; "{blanks}{text}")
}

/// A number, aligned right in a column of this width.
pub fn number_at_right(alloc: Global, width: usize, number: u16) -> Result<String, AllocError>
    ensures { IfOk result (λ t. string_bytes t ≡ at_right width (decimal number)) }
{
    let text = format!(in alloc; "{number}")?;
    at_right(alloc, width, &text)
}

/// A text, aligned left in a column of this width.
pub fn at_left(alloc: Global, width: usize, text: &str) -> Result<String, AllocError>
    ensures { IfOk result (λ t. string_bytes t ≡ at_left width text.now) }
{
    let blanks = blanks_beside(alloc, width, text)?;
    format!(in alloc; "{text}{blanks}")
}

pub fn network_to_digits(alloc: Global, network: Network) -> Result<String, AllocError>
    ensures { IfOk result (λ t. string_bytes t ≡ network_digits network) }
{
    hex::encode(alloc, network.0.to_be_bytes())
}

pub fn node_to_digits(alloc: Global, node: Node) -> Result<String, AllocError>
    ensures { IfOk result (λ t. string_bytes t ≡ node_digits node) }
{
    hex::encode(alloc, node.0)
}

pub fn socket_to_digits(alloc: Global, socket: Socket) -> Result<String, AllocError>
    ensures { IfOk result (λ t. string_bytes t ≡ socket_digits socket) }
{
    hex::encode(alloc, socket.0.to_be_bytes())
}

pub fn type_to_digits(alloc: Global, kind: u16) -> Result<String, AllocError>
    ensures { IfOk result (λ t. string_bytes t ≡ type_digits kind) }
{
    hex::encode(alloc, kind.to_be_bytes())
}
