//! The section titles of a table file, which show whether its text is complete.

ghost use Rattle.std.specs.Prelude.{◌≡◌, IfOk, map, option_map};
ghost use Rattle.std.specs.List.{filter_map};
ghost use Rattle.std.specs.Str.{bytes_eq};
ghost use Rattle.ipx_table_dump.specs.TableRead.{parts_view, words_in};
ghost use Rattle.ipx_table_dump.specs.TableParts.{are_all_titles, has_all_titles, title_in, titles_read};

use crate::reading::{is_word, lines_of, words_of};
use std::alloc::{AllocError, Global};

/// The title in the words of the line above a section.
fn title_in<'a>(words: &[&'a [u8]]) -> Option<&'a [u8]>
    ensures { option_map (λ t. t.now) result ≡ title_in (parts_view words.now) }
{
    let [title, _count] = words else {
        return None;
    };
    Some(*title)
}

/// The titles among lines.
fn titles_in_lines<'a>(alloc: Global, lines: &[&'a [u8]]) -> Result<Vec<&'a [u8]>, AllocError>
    ensures { IfOk result (λ v. parts_view v.items
        ≡ filter_map (λ line. title_in (words_in line)) (parts_view lines.now)) }
{
    let mut titles = Vec::new(alloc);
    for line in lines {
        let words = words_of(alloc, line)?;
        match title_in(&words) {
            Some(title) => titles.push(title)?,
            None => {}
        }
    }
    Ok(titles)
}

/// Whether these are the titles of the three sections, in order.
fn are_all_titles(titles: &[&[u8]]) -> bool
    ensures { result ≡ are_all_titles (parts_view titles.now) }
{
    let [first, second, third] = titles else {
        return false;
    };
    is_word(first, b"networks") && is_word(second, b"services") && is_word(third, b"neighbours")
}

/// Whether a text has the titles of its three sections, in order. Then all networks and services
/// are there, because they come before the last title.
pub fn has_all_titles(alloc: Global, text: &[u8]) -> Result<bool, AllocError>
    ensures { IfOk result (λ b. b ≡ has_all_titles text.now) }
{
    let lines = lines_of(alloc, text)?;
    let titles = titles_in_lines(alloc, &lines)?;
    Ok(are_all_titles(&titles))
}
