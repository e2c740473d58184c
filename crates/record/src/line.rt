// A line of a record: what it is called, a number, and the line feed that ends it.
ghost use Rattle.std.specs.Prelude.{◌≡◌, ◌+◌, ◌≤◌, length};
ghost use Rattle.text.specs.Puts.{Puts};
ghost use Rattle.record.specs.Block.{line_text};
ghost use Rattle.record.specs.Read.{line_of};

use text::decimal::put_decimal;
use text::join::put_whole;
use text::number::unpadded;

// The number of a line that stands first in a text, and how many bytes the line takes.
#[derive(Clone, Copy, PartialEq, Eq, Debug)]
pub struct Line {
    pub number: u32,
    pub size: usize,
}

// Puts the line into a record from `at` on, and answers where it ends.
pub fn put_line(label: &[u8], n: u32, lines: &mut [u8], at: usize) -> usize
    requires { at + length (line_text label.now n) ≤ length lines.old }
    ensures { Puts (line_text label.now n) lines.old at lines.new result }
{
    let number = put_whole(label, lines, at);
    let end = put_decimal(n, lines, number);
    put_whole(b"\n", lines, end)
}

// Any text, and what the line is called; nothing where no such line stands first.
pub fn read_line(text: &[u8], label: &[u8]) -> Option<Line>
    ensures { result ≡ line_of label.now text.now }
{
    let rest = text.strip_prefix(label)?;
    let end = rest.iter().position(|b| *b == b'\n')?;
    let number = unpadded(&rest[..end]).ok()?;
    Some(Line {
        number,
        size: label.len() + end + 1,
    })
}
