// The lines of a script, each read.
ghost use Rattle.std.specs.Prelude.{◌≡◌, IfOk};
ghost use Rattle.replay.specs.Scripts.{ScriptLines, calls_in};

use calls::{Call, SuppliedList, Unread, read_call};
use forms::first_line;
use std::alloc::{AllocError, Global};

// For each line the call that it gives, or why it gives none; and the calls alone.
#[derive(Drop)]
pub struct Script {
    pub answers: Vec<Result<Call<SuppliedList>, Unread>>,
    pub calls: Vec<Call<SuppliedList>>,
}

impl Script {
    // The end of the input ends a line too.
    pub fn read(heap: Global, text: &[u8]) -> Result<Script, AllocError>
        ensures { IfOk result (λ script. ScriptLines text.now script.answers.items × (script.calls.items ≡ calls_in script.answers.items)) }
    {
        let mut answers = Vec::new(heap);
        let mut calls = Vec::new(heap);
        let mut rest = text;
        while !rest.is_empty() {
            let (line, after) = first_line(rest);
            let answer = read_call(line);
            if let Ok(call) = &answer {
                calls.push(*call)?;
            }
            answers.push(answer)?;
            rest = after;
        }
        Ok(Script { answers, calls })
    }
}
