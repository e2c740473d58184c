// Plays lists on a screen of zeros, checks or mends one, or asks who painted a dot: the picture, how many steps a list takes, the
// mended list, or who it was goes to standard output, a line for each list that is played or refused and for each word that is
// mended to standard error, and how it ended to descriptor 3.
#![tactic(auto)]

mod end; // how it ended
mod page; // the lists of a page
mod report; // a line for each list
mod slices; // runs the lists of a page in turn
mod writer; // who painted a dot

ghost use Rattle.std.specs.Prelude.{◌≡◌, ◌*◌};

use end::{End, tell};
use errand::arguments::{Form, Given, Look, Wish, asked};
use errand::file::load_page;
use output::write;
use outside::arguments::arg;
use page::{Page, Playing, Source, empty, fresh_or_told, page_of, with_list};
use report::report;
use slices::rounds;
use unplayed::check::check_list;
use unplayed::mend::mend_list;
use writer::name_writer;

// Eight lists of 65,536 words.
const WORDS: usize = 524288;

// 2,048 x 2,048 dots.
const SCREEN: usize = 4194304;

fn main(rt: HostRuntime) {
    let mut words = [0u16; WORDS];
    tell(rt, play(rt, &mut words));
}

fn play(rt: HostRuntime, words: &mut [u16; WORDS]) -> End {
    match asked(rt) {
        Some(wish) => ended(rt, wish, words).unwrap_or(End::Nothing),
        None => End::Wrong,
    }
}

// How it ended. Here and in what it calls None says that nothing comes of the wish.
fn ended(rt: HostRuntime, wish: Wish, words: &mut [u16; WORDS]) -> Option<End> {
    match wish {
        Wish::List(given, look) => play_list(rt, given, look, words),
        Wish::Page(given, look) => play_page(rt, given, look, words),
        Wish::Check(at) => {
            check_list(rt, at, words)?;
            Some(End::Done)
        }
        Wish::Mend(at) => {
            mend_list(rt, at, words)?;
            Some(End::Done)
        }
        Wish::Who(given, x, y) => name_writer(rt, given, x, y, words),
    }
}

fn play_list(rt: HostRuntime, given: Given, look: Look, words: &mut [u16]) -> Option<End> {
    let mut room = io::buffer();
    let n = arg(&rt, given.first, &mut room);
    let path = &room[..n];
    let env = fresh_or_told(rt, b"play", given)?;
    let playing = Playing::named(path, env, given.budget);
    let (page, _) = with_list(rt, empty(), path, path, playing, words)?;
    show(rt, page, given, look)
}

fn play_page(rt: HostRuntime, given: Given, look: Look, words: &mut [u16]) -> Option<End> {
    fresh_or_told(rt, b"play", given)?;
    let mut room = io::buffer();
    let n = arg(&rt, given.first, &mut room);
    let path = &room[..n];
    let mut text = io::buffer();
    let lines = load_page(rt, path, &mut text)?;
    let source = Source { path, given };
    let page = page_of(rt, source, lines, words)?;
    show(rt, page, given, look)
}

fn show(rt: HostRuntime, page: Page<'_>, given: Given, look: Look) -> Option<End> {
    let mut room = [0u8; SCREEN];
    draw(rt, page, given, look, &mut room)
}

// A callee that takes a reference to an array asks for no proof of its length.
fn draw(
    rt: HostRuntime,
    page: Page<'_>,
    given: Given,
    look: Look,
    room: &mut [u8; SCREEN],
) -> Option<End> {
    run(rt, page, given, look, room)
}

// Runs the lists on as much of the room as the screen is, tells what each answers, and writes the picture where one has
// ended or still runs.
fn run(rt: HostRuntime, page: Page<'_>, given: Given, look: Look, room: &mut [u8]) -> Option<End> {
    let screen = room.get_mut(..area(given.width, given.height))?;
    let mut page = page;
    rounds(screen, &mut page, look.painted);
    match report(&rt.stderr(), &page).end_of() {
        End::Nothing => None,
        end => {
            written(rt, screen, given, look.form)?;
            Some(end)
        }
    }
}

// None where the picture could not be written.
fn written(rt: HostRuntime, screen: &[u8], given: Given, form: Form) -> Option<()> {
    write(&rt.stdout(), screen, given.width, given.height, form).ok()
}

fn area(width: u32, height: u32) -> usize
    ensures { result ≡ width * height }
{
    (width as usize) * (height as usize)
}
