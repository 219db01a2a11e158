// The listing of a script.
ghost use Rattle.std.specs.Prelude.{◌≡◌, ◌+◌, ◌^◌, ◌<◌, take, IfOk, string_bytes};
ghost use Rattle.script.specs.Kinds.{kind_number};
ghost use Rattle.script.specs.Commands.{kind_of};
ghost use Rattle.script.specs.Scripts.{contents};
ghost use Rattle.runner.specs.Reports.{line, known, lines_of, report_of};

use crate::session::Session;
use listing::{Line, Outcome, render};
use platform::refusal::Refusal;
use script::{Command, Kind, Script, read_script};
use std::alloc::{AllocError, Global};
use std::ops::ControlFlow::{Break, Continue};

// No more of the input is read.
pub const LIMIT: usize = 16_384;

// The listing has this number for the kind of a record that is cut.
const CUT_KIND: u16 = 0;

// Why a record of some kind is refused: the calls that touch tables are not served yet, and so their kinds are unknown,
// whatever the body.
fn known_refusal(kind: u16, refusal: Refusal) -> Refusal
    ensures answer { result ≡ known kind refusal }
{
    match Kind::try_from(kind) {
        Ok(Kind::Flush | Kind::FlushPage | Kind::Fault | Kind::Load | Kind::Store) => {
            Refusal::UnknownKind
        }
        _ => refusal,
    }
}

// What is read of the input.
fn within_limit(input: &[u8]) -> &[u8]
    ensures answer { result.now ≡ take 16384 input.now }
{
    &input[..input.len().min(LIMIT)]
}

// The line of the command at a place of a script.
fn line(i: usize, command: Command, outcome: Outcome) -> Line
    requires { i < 2 ^ 63 }
    ensures answer { result ≡ line (i + 1) (kind_number (kind_of command)) outcome }
{
    Line {
        number: i as u64 + 1,
        kind: u16::from(command.kind()),
        outcome,
    }
}

// A line for each record of a script, up to where the program stops.
pub fn transcript(heap: Global, script: &Script) -> Result<Vec<Line>, AllocError>
    ensures answer { IfOk result (λ v. v.items ≡ lines_of (contents script.now)) }
{
    let mut session = Session::new(heap)?;
    let mut lines = Vec::with_capacity(heap, script.commands.len() + 1)?;
    'commands: for (i, command) in script.commands.iter().enumerate() {
        match session.perform(*command) {
            Continue(outcome) => lines.push_reserved(line(i, *command, outcome)),
            Break(outcome) => {
                lines.push_reserved(line(i, *command, outcome));
                return Ok(lines);
            }
        }
    }
    if let Err(bad) = script.end {
        let kind = bad.kind.unwrap_or(CUT_KIND);
        lines.push_reserved(Line {
            number: script.commands.len() as u64 + 1,
            kind,
            outcome: Err(known_refusal(kind, bad.refusal)),
        });
    }
    Ok(lines)
}

// All that the program prints for a script. The script is let go before the text is made, so that both are never in memory.
pub fn report(heap: Global, input: &[u8]) -> Result<String, AllocError>
    ensures answer { IfOk result (λ s. string_bytes s ≡ report_of input.now) }
{
    let lines = {
        let script = read_script(heap, within_limit(input))?;
        transcript(heap, &script)?
    };
    render(heap, lines.as_slice())
}
