//! What an event adds to the log.

ghost use Rattle.std.specs.Prelude.{◌≡◌, ◌∷◌, [], IfOk};
ghost use Rattle.ipx_net.specs.AnswerView.{answer_view};
ghost use Rattle.ipx_net.specs.LogEntries.{entry_note};
ghost use Rattle.ipx_net.specs.StepResultView.{step_result_view};

use crate::answer::Answer;
use crate::entry::Entry;
use crate::parcel::Parcel;
use ipx_wire::OutOfMemory;
use std::alloc::Global;

/// The parcels that an event makes, its entries, and its answer.
#[derive(Drop)]
pub struct StepResult {
    pub parcels: Vec<Parcel>,
    pub entries: Vec<Entry>,
    pub answer: Answer,
}

/// Only an answer.
pub fn quiet(alloc: Global, answer: Answer) -> StepResult
    ensures { step_result_view result
        ≡ record { parcels = []; notes = []; answer = answer_view answer } }
{
    StepResult {
        parcels: Vec::new(alloc),
        entries: Vec::new(alloc),
        answer,
    }
}

/// An answer with one entry.
pub fn noted(alloc: Global, entry: Entry, answer: Answer) -> Result<StepResult, OutOfMemory>
    ensures { IfOk result (λ g. step_result_view g
        ≡ record { parcels = []; notes = entry_note entry ∷ []; answer = answer_view answer }) }
{
    let mut entries = Vec::new(alloc);
    entries.push(entry)?;
    Ok(StepResult {
        parcels: Vec::new(alloc),
        entries,
        answer,
    })
}
