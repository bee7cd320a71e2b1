// What is answered to an input that holds a record.
ghost use Rattle.std.specs.Prelude.{IfOk, string_bytes};
ghost use Rattle.report.specs.Replies.{Replies};

use crate::text::{NoText, refusal_text, search_text};
use refusal::Refusal;
use search::replay::replay;
use std::alloc::{AllocError, Global};
use table::rows::{Entry, Row};

// The most bytes of an input that is replayed.
pub const LONGEST: usize = 16_384;

// The rows of the table on which it is replayed.
const ROWS: usize = 1024;

// The text of the run that an input tells, or of the refusal.
pub fn reply(heap: Global, input: &[u8]) -> Result<String, AllocError>
    ensures { IfOk result (λ s. Replies input.now (string_bytes s)) }
{
    if input.len() > LONGEST {
        return refusal_text(heap, Refusal::InputTooLong.number(), LONGEST);
    }
    let mut table = [Row::whole(Entry::Waiting); ROWS];
    let rest = match replay(input, &mut table) {
        Ok(rest) => rest,
        Err(refused) => return refusal_text(heap, refused.why.number(), refused.place),
    };
    match search_text(heap, &rest, &table) {
        Ok(text) => Ok(text),
        Err(NoText::Memory) => Err(AllocError),
        Err(NoText::Refused(_)) => unreachable(),
    }
}
