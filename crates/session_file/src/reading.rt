//! A text as a plan.
ghost use Rattle.std.specs.Prelude.{◌≤◌, ◌^◌, length, IfOk};
ghost use Rattle.session_file.specs.View.{GivesPlan};
ghost use Rattle.session_file.specs.Plan.{finished, plan_of};
ghost use Rattle.session_file.specs.Sound.{IsSound};

use crate::draft::Draft;
use crate::plan::Plan;
use crate::refused::{Kind, LineRefused, ParseRefused};
use crate::text::split_line;
use std::alloc::Global;

// The plan, where no line is left and this would be the number of the next.
fn finish(draft: Draft, line: u32) -> Result<Plan, ParseRefused>
    ensures { GivesPlan result (finished line draft) }
{
    if !draft.begun {
        return Err(LineRefused::Fault(Kind::Header).at_line(line));
    }
    match draft.otherwise {
        Some(otherwise) => Ok(Plan {
            sessions: draft.sessions,
            rules: draft.rules,
            otherwise,
        }),
        None => Err(LineRefused::Fault(Kind::End).at_line(line)),
    }
}

/// The plan that a session text says, or its first faulty line with the kind of the fault.
pub fn parse(alloc: Global, bytes: &[u8]) -> Result<Plan, ParseRefused>
    requires { length bytes.now ≤ 2 ^ 20 }
    ensures gives { GivesPlan result (plan_of bytes.now) }
    ensures sound { IfOk result IsSound }
{
    let mut draft = Draft::new(alloc);
    let mut left = bytes;
    let mut line: u32 = 1;
    while !left.is_empty() {
        let (text, behind) = split_line(left);
        match draft.add_line(alloc, text) {
            Ok(()) => {
                left = behind;
                line += 1;
            }
            Err(refused) => return Err(refused.at_line(line)),
        }
    }
    finish(draft, line)
}
