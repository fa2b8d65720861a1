// What Report hands back of what the rules found, and its text.
#![tactic(auto)]

ghost use Rattle.std.specs.Prelude.{◌≡◌, length, Ok, Err};
ghost use Rattle.ast.specs.Tree.{fault, unplaced};
ghost use Rattle.reporting.specs.Text.{text_of};
ghost use Rattle.reporting.specs.Analyzed.{analysis_of};
ghost use Rattle.verdicts.specs.Reports.{reported, written};

use ast::{CompileError, ErrorKind};
use output::{Counter, Writer};
use reporting::analyzed::Analyzed;
use reporting::put_refusal;

// What Report hands back: Check's answer, and the text's length.
#[derive(Clone, Copy, PartialEq, Eq)]
pub struct Reported {
    pub answer: Result<(), CompileError>,
    pub length: usize,
}

// A refusal that has no text: 5 or 6.
pub fn without_text(kind: ErrorKind) -> Reported
    ensures { result ≡ record { answer = Err (fault kind unplaced); length = 0 } }
{
    Reported {
        answer: Err(CompileError::unplaced(kind)),
        length: 0,
    }
}

// A refusal and its text, if output has room for it.
pub fn report_refusal(output: &mut [u8], x: CompileError) -> Reported
    ensures value { result ≡ reported (Err x) (length output.old) }
    ensures output_after { output.new ≡ written (text_of (Err x)) output.old }
{
    let mut counter = Counter { length: 0 };
    put_refusal(&mut counter, x);
    if output.len() < counter.length {
        return without_text(ErrorKind::OutputTooShort);
    }
    let mut writer = Writer { output, at: 0 };
    put_refusal(&mut writer, x);
    Reported {
        answer: Err(x),
        length: writer.at,
    }
}

// An acceptance and its text, if output has room for it.
pub fn report_acceptance(analyzed: &Analyzed<'_>, output: &mut [u8]) -> Reported
    ensures value { result ≡ reported (Ok (analysis_of analyzed.now)) (length output.old) }
    ensures output_after { output.new ≡ written (text_of (Ok (analysis_of analyzed.now))) output.old }
{
    if !analyzed.has_room(output) {
        return without_text(ErrorKind::OutputTooShort);
    }
    let mut writer = Writer { output, at: 0 };
    analyzed.put_acceptance(&mut writer);
    Reported {
        answer: Ok(()),
        length: writer.at,
    }
}
