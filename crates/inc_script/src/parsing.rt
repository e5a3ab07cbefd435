ghost use Rattle.std.specs.Prelude.{◌≡◌, ◌^◌, ◌≤◌, length, IfOk};
ghost use Rattle.inc_script.specs.Lines.{lines_of};
ghost use Rattle.inc_script.specs.Script.{IsRead, fresh_draft, script_from, script_of};
ghost use Rattle.inc_script.specs.Spelling.{IsSpelled};
ghost use Rattle.inc_script.specs.Written.{IsScript, script_text};
ghost use Rattle.inc_script.specs.declared.script.Script.{Script};

mod draft;
mod fields;
mod forms;
mod spans;

use crate::{MOST_TEXT, Script, ScriptFault};
use draft::Draft;
use fields::first_line;
use std::alloc::Global;

/// Reads a script, in time linear in the text's length.
pub fn parse_script(alloc: Global, text: &[u8]) -> Result<Script, ScriptFault>
    // Read line by line it is this script, or has this fault first.
    ensures value { IsRead (script_of text.now) result }
    // What is read is spelled by the text, each byte of it.
    ensures spelled { IfOk result (λ script. IsSpelled text.now script) }
    // What the text spells is read, unless memory runs out.
    ensures accepted { (script : Script) → IsSpelled text.now script → IsRead (Ok script) result }
    // A script that is written out is read again.
    ensures written { (script : Script) → IsScript script → text.now ≡ script_text script → length text.now ≤ MOST_TEXT → IsRead (Ok script) result }
{
    read_text(alloc, text)
}

#[tactic(auto, using(crate::proofs::DraftLemmas::read_short, crate::proofs::DraftLemmas::too_long))]
fn read_text(alloc: Global, text: &[u8]) -> Result<Script, ScriptFault>
    ensures value { IsRead (script_of text.now) result }
{
    if text.len() > MOST_TEXT {
        return Err(ScriptFault::TooLong);
    }
    read_lines(alloc, text)
}

fn read_lines(alloc: Global, text: &[u8]) -> Result<Script, ScriptFault>
    requires short { length text.now ≤ 2 ^ 20 }
    ensures value { IsRead (script_from 1 fresh_draft (lines_of text.now)) result }
{
    let mut draft = Draft::new(alloc);
    let mut at = 1;
    let mut rest = text;
    while !rest.is_empty() {
        let (line, after) = first_line(rest);
        draft.take_line(alloc, at, line)?;
        at += 1;
        rest = after;
    }
    if !draft.has_ended() {
        return Err(ScriptFault::NoEnd { line: at });
    }
    Ok(draft.into_script())
}
