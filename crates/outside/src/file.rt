// Opens and reads a file.
ghost use Rattle.io.specs.Counts.{IsPrefixLen};
ghost use Rattle.std.specs.Io.{ReadsAtMost};

use std::fs::Files;
use std::io::{Error, Read};
use std::{fs, io};

// The longest path, and the system's numbers for a longer one and for one that is no UTF-8.
const PATH: usize = 4095;

const ENAMETOOLONG: i32 = 36;

const EILSEQ: i32 = 84;

// Opens the file for reading. The standard library has no other paths than UTF-8.
pub fn open_read<R: Files>(files: &R, path: &[u8]) -> io::Result<R::File> {
    if PATH < path.len() {
        return Err(Error::from_raw_os_error(ENAMETOOLONG));
    }
    let path = str::from_utf8(path).map_err(|_| Error::from_raw_os_error(EILSEQ))?;
    fs::open(files, path)
}

// Puts the file's bytes at the start of the room, as far as they fit, and answers how many there are. A first read that fails is an
// error, a later one the file's end.
pub fn read_file(files: &impl Files, path: &[u8], room: &mut [u8]) -> io::Result<usize>
    ensures { ReadsAtMost result room.new }
{
    let mut file = open_read(files, path)?;
    let n = file.read(room)?;
    let more = read_full(&mut file, &mut room[n..]);
    Ok(n + more)
}

// Reads until the room is full, the file ends or a read fails, and answers how many bytes it put at the start of the room.
// An index, as `read_exact` doesn't tell how many bytes came before the end or the failure.
pub fn read_full(file: &mut impl Read, room: &mut [u8]) -> usize
    ensures { IsPrefixLen result room.new }
{
    let mut done = 0;
    while done < room.len() {
        match file.read(&mut room[done..]) {
            Ok(0) | Err(_) => break,
            Ok(n) => done += n,
        }
    }
    done
}
