// Document 02, T-12, evening replay: a record of calls is text, blocks of three lines that say what was asked and what was answered.
#![tactic(auto)]

mod line; // a line: what it is called, a number, a line feed

ghost use Rattle.std.specs.Prelude.{◌≡◌};
ghost use Rattle.record.specs.Read.{three_lines, block_of};
ghost use Rattle.record.specs.Append.{Promise, told};

use crate::line::{put_line, read_line};
use text::decimal::width;

// A block that stands first in a text: its budget, answer and steps, and how many bytes it takes.
#[derive(Clone, Copy, PartialEq, Eq, Debug)]
pub struct Block {
    pub budget: u32,
    pub answer: u32,
    pub steps: u32,
    pub size: usize,
}

// A block is due, and none stands there.
#[derive(Clone, Copy, PartialEq, Eq, Debug)]
pub struct Malformed;

// 0 and how many bytes of the record are in use now; or 32 and as many as were given. A number, as C reads it.
#[repr(C)]
#[derive(Clone, Copy)]
pub struct Recorded {
    pub number: u8,
    pub used: usize,
}

// Any text; where it ends no block is due.
pub fn read_block(text: &[u8]) -> Result<Option<Block>, Malformed>
    ensures { result ≡ block_of text.now }
{
    if text.is_empty() {
        return Ok(None);
    }
    match read_lines(text) {
        Some(block) => Ok(Some(block)),
        None => Err(Malformed),
    }
}

// The block of the three lines that stand first in a text.
fn read_lines(text: &[u8]) -> Option<Block>
    ensures { result ≡ three_lines text.now }
{
    let budget = read_line(text, b"budget=")?;
    let behind = &text[budget.size..];
    let answer = read_line(behind, b"answer=")?;
    let behind = &behind[answer.size..];
    let steps = read_line(behind, b"steps=")?;
    Some(Block {
        budget: budget.number,
        answer: answer.number,
        steps: steps.number,
        size: budget.size + answer.size + steps.size,
    })
}

// One block more, behind the bytes in use: any record, any numbers, each by itself as C gives it.
pub fn append(lines: &mut [u8], used: usize, budget: u64, answer: u64, steps: u64) -> Recorded
    ensures { Promise lines.old used budget answer steps result lines.new }
{
    match append_block(lines, used, budget, answer, steps) {
        Some(end) => Recorded {
            number: 0,
            used: end,
        },
        None => Recorded { number: 32, used },
    }
}

// The same; how many bytes are in use now, where there is room and no number is too large.
fn append_block(
    lines: &mut [u8],
    used: usize,
    budget: u64,
    answer: u64,
    steps: u64,
) -> Option<usize>
    ensures { Promise lines.old used budget answer steps (told used result) lines.new }
{
    let budget = u32::try_from(budget).ok()?;
    let answer = u32::try_from(answer).ok()?;
    let steps = u32::try_from(steps).ok()?;
    let size = width(budget) + width(answer) + width(steps) + 23;
    if lines.len().checked_sub(used)? < size {
        return None;
    }
    let second = put_line(b"budget=", budget, lines, used);
    let third = put_line(b"answer=", answer, lines, second);
    Some(put_line(b"steps=", steps, lines, third))
}
