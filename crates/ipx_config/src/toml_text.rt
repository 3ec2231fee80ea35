//! Parsing a text as a TOML table.

ghost use Rattle.std.specs.Prelude.{◌≡◌, ◌⊎◌, ◌≤◌, Some, IfErr, IfOk, length};
ghost use Rattle.toml.specs.Parse.{parse_document};
ghost use Rattle.toml.specs.View.{table_view};
ghost use Rattle.ipx_config.specs.Fields.{IsNoToml, line_number};

use crate::fault::ConfigError;
use std::alloc::Global;
use toml::Table;

/// The number of the line at an index into a text, starting at 1.
fn line_at(text: &str, place: usize) -> usize
    requires { place ≤ length text.now }
    ensures { result ≡ line_number text.now place }
{
    let before = &text.as_bytes()[..place];
    before.iter().filter(|byte| **byte == b'\n').count() + 1
}

/// The table of a TOML text.
pub fn table_of(alloc: Global, text: &str) -> Result<Table, ConfigError>
    ensures table { IfOk result (λ t. parse_document text.now ≡ Some (table_view t)) }
    ensures fault { IfErr result (λ f. (f ≡ ConfigError.OutOfMemory) ⊎ IsNoToml text.now f) }
{
    match toml::table_from_str(alloc, text) {
        Ok(table) => Ok(table),
        Err(error) => match error.span() {
            Some(range) => Err(ConfigError::NotToml(line_at(text, range.start), error)),
            None => Err(ConfigError::OutOfMemory),
        },
    }
}
