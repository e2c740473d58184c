// How it ended: the program writes a digit to descriptor 3, and ./play exits with that.
ghost use Rattle.std.specs.Prelude.{◌≡◌, ◌+◌, ◌∷◌, []};
ghost use Rattle.play.specs.Ends.{none_yet, with_number, end_of, status_of};

use outside::file::read_file;
use std::fs::OpenOptions;
use std::io::Write;

// There is a picture, the list surely finishes, the mended one is written, or it is told who painted the dot; there is none, it may
// not, it is not, or the question is refused; the arguments are wrong; there is a picture, but a list was stopped.
#[derive(Clone, Copy)]
pub enum End {
    Done,
    Nothing,
    Wrong,
    Stopped,
}

impl From<End> for u8 {
    ghost from_gives = { λ end status. status ≡ status_of end };

    fn from(end: End) -> u8 {
        match end {
            End::Done => 0,
            End::Nothing => 1,
            End::Wrong => 2,
            End::Stopped => 3,
        }
    }
}

// Where descriptor 3 is opened again, and where the system says how it was opened.
const LISTENER: &str = "/dev/fd/3";

const STATE: &[u8] = b"/proc/self/fdinfo/3";

// Where nobody listens there, nothing is told.
pub fn tell(rt: HostRuntime, end: End) {
    if !is_to_be_written(rt) {
        return;
    }
    if let Ok(file) = OpenOptions::new().append(true).open(&rt, LISTENER) {
        let mut listener = file;
        let _ = listener.write_all(&line_of(end));
    }
}

// The digit and the end of the line, which are one write.
fn line_of(end: End) -> [u8; 2]
    ensures { result ≡ (status_of end + 48) ∷ 10 ∷ [] }
{
    [b'0' + u8::from(end), b'\n']
}

fn is_to_be_written(rt: HostRuntime) -> bool {
    let mut room = [0u8; 64];
    let read = read_file(&rt, STATE, &mut room);
    match read {
        Ok(n) => is_for_writing(&room[..n]),
        Err(_) => false,
    }
}

// The second line ends in an octal digit, whose last two bits are 0 for reading, 1 for writing, 2 for both.
fn is_for_writing(state: &[u8]) -> bool {
    let flags = state.split(|byte| *byte == b'\n').nth(1);
    match flags.and_then(|line| line.last()) {
        Some(digit) => matches!(*digit % 4, 1 | 2),
        None => false,
    }
}

// Whether a list has ended or still runs, as its number is 0 or 1; whether one was stopped.
#[derive(Clone, Copy)]
pub struct Ends {
    pub shown: bool,
    pub stopped: bool,
}

impl Ends {
    pub fn none_yet() -> Ends
        ensures { result ≡ none_yet }
    {
        Ends {
            shown: false,
            stopped: false,
        }
    }

    // How they ended, with a list more that answered this number.
    pub fn with_number(self, number: u8) -> Ends
        ensures { result ≡ with_number self number }
    {
        if number < 2 {
            Ends {
                shown: true,
                ..self
            }
        } else {
            Ends {
                stopped: true,
                ..self
            }
        }
    }

    // There is a picture where a list has ended or still runs.
    pub fn end_of(self) -> End
        ensures { result ≡ end_of self.shown self.stopped }
    {
        match (self.shown, self.stopped) {
            (false, _) => End::Nothing,
            (true, false) => End::Done,
            (true, true) => End::Stopped,
        }
    }
}
