// Clears and prints the screen.
ghost use Rattle.std.specs.Prelude.{◌≡◌, ◌≤◌, length, replicate};
ghost use Rattle.std.proofs.lemmas.List.Edits.{sets};

use crate::print::{line, part};

// Zeros in the first `bytes` bytes, and no other byte written.
pub fn clear(screen: &mut [u8], bytes: usize)
    requires { bytes ≤ length screen.old }
    ensures { screen.new ≡ sets screen.old 0 (replicate bytes 0) }
{
    screen[..bytes].fill(0);
}

// Row by row: all rows of a small screen, and of a larger one those that are not all zeros. A width that no row can have makes one row
// of all bytes.
pub fn print_screen(out: &impl Print, screen: &[u8], width: usize) {
    line(out, format_args!("screen {}", screen.len()));
    let small = width <= 64 && screen.len() <= 4096;
    let row_width = if width == 0 { usize::MAX } else { width };
    for (row, bytes) in screen.chunks(row_width).enumerate() {
        if small {
            print_row(out, bytes);
        } else {
            print_long_row(out, row, bytes);
        }
    }
}

// The bytes as numbers.
fn print_row(out: &impl Print, bytes: &[u8]) {
    for (i, byte) in bytes.iter().enumerate() {
        part(out, format_args!("{}{byte}", before(i)));
    }
    line(out, "");
}

// What parts a number from those before it.
fn before(i: usize) -> &'static str {
    if i == 0 { "" } else { " " }
}

// The row's number and its runs of equal bytes, unless all are zeros.
fn print_long_row(out: &impl Print, row: usize, bytes: &[u8]) {
    if bytes.iter().all(|byte| *byte == 0) {
        return;
    }
    part(out, format_args!("row {row}: "));
    for (i, run) in bytes.chunk_by(|a, b| a == b).enumerate() {
        print_run(out, before(i), run);
    }
    line(out, "");
}

fn print_run(out: &impl Print, before: &str, run: &[u8]) {
    if let Some(byte) = run.first() {
        part(out, format_args!("{before}{byte}"));
    }
    if 1 < run.len() {
        part(out, format_args!("*{}", run.len()));
    }
}
