//! The line after a table: how much it has, and which routers answered.

ghost use Rattle.std.specs.Prelude.{◌≡◌, IfOk, string_bytes};
ghost use Rattle.std.specs.List.{flat_map};
ghost use Rattle.ipx_query_cmd.specs.OperatorLines.{answered_text, after_text, tenths_text, count_with_noun};

use crate::answer_times::AnswerTime;
use crate::columns::node_to_digits;
use std::alloc::{AllocError, Global};

/// A time in tenths of a millisecond.
pub fn tenths_to_text(alloc: Global, tenths: u128) -> Result<String, AllocError>
    ensures { IfOk result (λ t. string_bytes t ≡ tenths_text tenths) }
{
    let whole = tenths / 10;
    let rest = tenths % 10;
    format!(in alloc; "{whole}.{rest} ms")
}

fn answer_to_text(alloc: Global, answer: AnswerTime) -> Result<String, AllocError>
    ensures { IfOk result (λ t. string_bytes t ≡ answered_text answer) }
{
    let node = node_to_digits(alloc, answer.node)?;
    let time = tenths_to_text(alloc, u128::from(answer.tenths))?;
    format!(in alloc; ", {node} answered in {time}")
}

fn answers_to_text(alloc: Global, answers: &[AnswerTime]) -> Result<String, AllocError>
    ensures { IfOk result (λ t. string_bytes t ≡ flat_map answered_text answers.now) }
{
    let mut text = String::new(alloc);
    for answer in answers {
        let part = answer_to_text(alloc, *answer)?;
        text.push_str(&part)?;
    }
    Ok(text)
}

/// A count: the text `one` for 1, and otherwise the number followed by `many`.
pub fn count_to_text(
    alloc: Global,
    count: usize,
    one: &str,
    many: &str,
) -> Result<String, AllocError>
    ensures { IfOk result (λ t. string_bytes t ≡ count_with_noun count one.now many.now) }
{
    if count == 1 {
        return String::from_str(alloc, one);
    }
    format!(in alloc; "{count}{many}")
}

/// A count, followed by the routers that answered.
pub fn answers_to_line(
    alloc: Global,
    count: &str,
    answers: &[AnswerTime],
) -> Result<String, AllocError>
    ensures { IfOk result (λ t. string_bytes t ≡ after_text count.now answers.now) }
{
    let text = answers_to_text(alloc, answers)?;
    format!(in alloc; "{count}{text}\n")
}
