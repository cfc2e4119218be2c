// The planning program's input as a run: a file's bytes up to and with its end word, then the bytes of its asks; and the text that is printed for it.
// All that the program decides is decided here.
#![tactic(auto)]

ghost use Rattle.std.specs.Prelude.{◌≤◌, length, take, drop};
ghost use Rattle.model.specs.Lines.{PlanPrinted};
ghost use Rattle.report.specs.Lengths.{TEXT};
ghost use Rattle.intake.specs.Answers.{planned_of, RanFile, Sized};
ghost use Rattle.intake.specs.Buffers.{RanInput, ShownInput};

use decoder::{Fault, Refusal};

// So many asks are answered, in blocks of so many units and weeks.
#[derive(Clone, Copy)]
struct Blocks {
    asks: usize,
    units: usize,
    weeks: usize,
}

// A run on a file and asks, with what is needed to cut its blocks.
fn plan_words(
    file: &[u32],
    asks: &[u32],
    answers: &mut [u32],
    table: &mut [u32],
    scratch: &mut [u32],
) -> Result<Blocks, Refusal>
    ensures ran_file { RanFile (planned_of result) file.now asks.now
        answers.old table.old scratch.old answers.new table.new scratch.new }
    ensures sized { Sized (length answers.old) result }
{
    planner::run(file, asks, answers, table, scratch)?;
    let l = instance::layout_of(file);
    Ok(Blocks {
        asks: asks.len() / 2,
        units: l.units,
        weeks: l.weeks,
    })
}

// The same on words of which the first `end` are the file's, the others the asks'.
fn plan_split(
    words: &[u32],
    end: usize,
    answers: &mut [u32],
    table: &mut [u32],
    scratch: &mut [u32],
) -> Result<Blocks, Refusal>
    ensures ran_file { RanFile (planned_of result) (take end words.now) (drop end words.now)
        answers.old table.old scratch.old answers.new table.new scratch.new }
    ensures sized { Sized (length answers.old) result }
{
    plan_words(
        input::front(words, end),
        input::back(words, end),
        answers,
        table,
        scratch,
    )
}

// The run that a program's input asks for. The words have room for the longest input, so `TooFewWords` comes from its length alone.
fn plan_input(
    bytes: &[u8],
    answers: &mut [u32],
    table: &mut [u32],
    scratch: &mut [u32],
) -> Result<Blocks, Refusal>
    ensures ran_input { RanInput (planned_of result) bytes.now
        answers.old table.old scratch.old answers.new table.new scratch.new }
    ensures sized { Sized (length answers.old) result }
{
    if 32768 < bytes.len() {
        return Err(Fault::TooFewWords.at(0));
    }
    let end = input::file_end(bytes);
    let mut words = [0u32; 8192];
    let n = decoder::load(bytes, &mut words)?;
    plan_split(input::front(&words, n), end / 4, answers, table, scratch)
}

// The text that is printed for an input, with these buffers. TEXT bytes hold the longest.
fn plan_text(
    bytes: &[u8],
    text: &mut [u8],
    answers: &mut [u32],
    table: &mut [u32],
    scratch: &mut [u32],
) -> usize
    requires { TEXT ≤ length text.old }
    ensures { ShownInput bytes.now answers.old table.old scratch.old
        answers.new table.new scratch.new text.old text.new result }
{
    match plan_input(bytes, answers, table, scratch) {
        Ok(blocks) => {
            report::put_lines(text, &answers[..], blocks.asks, blocks.units, blocks.weeks)
        }
        Err(refusal) => report::put_refusal(text, refusal.fault.number(), refusal.place),
    }
}

// The text that the program prints for its input: how many of the lent bytes it has; any beyond are kept. Answers hold the largest blocks of 32 asks;
// scratch serves up to 14 units (D70, D71).
pub fn plan_output(bytes: &[u8], text: &mut [u8]) -> usize
    requires { TEXT ≤ length text.old }
    ensures { PlanPrinted bytes.now text.old text.new result }
{
    let mut answers = [0u32; 2752];
    let mut table = [0u32; 16384];
    let mut scratch = [0u32; 16384];
    plan_text(bytes, text, &mut answers, &mut table, &mut scratch)
}
