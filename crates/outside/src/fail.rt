// What the system says of an error.
ghost use Rattle.io.specs.Counts.{IsPrefixLen};

use std::io::{Cursor, Error, Write};

// What an error of the standard library's own is told as: that it was not asked as it wants to be.
const EINVAL: i32 = 22;

// Writes a line: what failed, as the caller names it, a colon and the system's words.
pub fn fail(to: &impl Print, what: &[u8], error: Error) {
    let mut room = [0u8; 96];
    let n = put_words(error, &mut room);
    put(to, what);
    put(to, b": ");
    put(to, &room[..n]);
    put(to, b"\n");
}

fn put(to: &impl Print, bytes: &[u8]) {
    let _ = to.write_all(bytes);
}

// Puts the system's words for the error at the start of the room, and answers where they end. The library writes its number behind
// them, in brackets.
fn put_words(error: Error, room: &mut [u8]) -> usize
    ensures { IsPrefixLen result room.new }
{
    let code = error.raw_os_error().unwrap_or(EINVAL);
    let told = Error::from_raw_os_error(code);
    let mut cursor = Cursor::new(&mut *room);
    let _ = write!(cursor, "{told}");
    match room.iter().position(|b| *b == b'(') {
        Some(end) => end.saturating_sub(1),
        None => 0,
    }
}
