//! The text of a router's table file.

ghost use Rattle.std.specs.Prelude.{IfOk, string_bytes};
ghost use Rattle.ipx_site.specs.KnownFile.{TellsKnown};

use ipx_router::Router;
use ipx_table_dump::tables_to_text;
use std::alloc::{AllocError, Global};

/// What a router knows at `now`, in milliseconds.
pub fn known_to_text(alloc: Global, router: &Router, now: u64) -> Result<String, AllocError>
    ensures { IfOk result (λ t. TellsKnown router.now now (string_bytes t)) }
{
    tables_to_text(
        alloc,
        router.ports(),
        router.routes(),
        router.services(),
        now,
    )
}
