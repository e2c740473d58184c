// The lists of a page.
ghost use Rattle.std.specs.Prelude.{◌≡◌, ◌<◌, [], IfSome, is_none, position};
ghost use Rattle.play.specs.Pages.{no_lists, with_playing};

use errand::arguments::{BUDGET, Given};
use errand::file::load_list;
use errand::line::{has_no_list, sound_pane};
use errand::path::{beside, label, place};
use errand::say::tell;
use messages::words::refuse;
use rules::environment::Env;
use text::items::item;

// A list in play: its environment, its name and its words, what is left of its budget, its steps and its last number.
#[derive(Clone, Copy)]
pub struct Playing<'a> {
    pub env: Env,
    pub name: &'a [u8],
    pub list: &'a [u16],
    pub left: u32,
    pub steps: u32,
    pub number: u8,
}

impl<'a> Playing<'a> {
    // Before its words are read.
    pub fn named(name: &'a [u8], env: Env, budget: u32) -> Playing<'a>
        ensures given { result ≡ record result { env = env; name = name.entry; left = budget; steps = 0; number = 0 } }
        ensures no_words { result.list.now ≡ [] }
    {
        Playing {
            env,
            name,
            list: &[],
            left: budget,
            steps: 0,
            number: 0,
        }
    }
}

const PLACES: usize = 8;

#[derive(Clone, Copy)]
pub struct Page<'a> {
    pub lists: [Option<Playing<'a>>; PLACES],
}

pub fn empty<'a>() -> Page<'a>
    ensures { result ≡ no_lists }
{
    Page {
        lists: [None; PLACES],
    }
}

// What a page is read with: its file's name, and what is given for each of its lists.
#[derive(Clone, Copy)]
pub struct Source<'a> {
    pub path: &'a [u8],
    pub given: Given,
}

// The page that the lines of a text make, whose words go into the room; or a line has told why there is none. The first line stands
// before the loop, as a page may not come to hold a part of the room within it.
pub fn page_of<'a>(
    rt: HostRuntime,
    source: Source<'_>,
    text: &'a [u8],
    words: &'a mut [u16],
) -> Option<Page<'a>> {
    let mut lines = text.split(|byte| *byte == b'\n');
    let first = lines.next().unwrap_or(&[]);
    let (mut page, mut room) = with_line(rt, source, empty(), first, 1, words)?;
    for (line, number) in lines.zip(2..=u32::MAX) {
        let (more, rest) = with_line(rt, source, page, line, number, room)?;
        page = more;
        room = rest;
    }
    if vacant(&page) == Some(0) {
        tell(&rt.stderr(), source.path, "a page without a list");
        return None;
    }
    Some(page)
}

// The page with the list of line `number` more, if it has one, and the rest of the room.
fn with_line<'a>(
    rt: HostRuntime,
    source: Source<'_>,
    page: Page<'a>,
    line: &'a [u8],
    number: u32,
    words: &'a mut [u16],
) -> Option<(Page<'a>, &'a mut [u16])> {
    if has_no_list(line) {
        return Some((page, words));
    }
    let mut room = io::buffer();
    let n = place(source.path, number, &mut room);
    let at = &room[..n];
    let pane = sound_pane(&rt.stderr(), line, at)?;
    let given = Given {
        pane,
        ..source.given
    };
    let env = fresh_or_told(rt, at, given)?;
    let playing = Playing::named(item(line, 0), env, given.budget);
    with_file(rt, source.path, page, at, playing, words)
}

// The page with the list of that name more, which is looked for beside the page.
fn with_file<'a>(
    rt: HostRuntime,
    path: &[u8],
    page: Page<'a>,
    at: &[u8],
    playing: Playing<'a>,
    words: &'a mut [u16],
) -> Option<(Page<'a>, &'a mut [u16])> {
    let mut file = io::buffer();
    let mut told = io::buffer();
    let n = beside(path, playing.name, &mut file);
    let m = label(at, playing.name, &mut told);
    with_list(rt, page, &file[..n], &told[..m], playing, words)
}

// The page with one list more, in a file, and the rest of the room; `told` is what a message calls it.
pub fn with_list<'a>(
    rt: HostRuntime,
    page: Page<'a>,
    path: &[u8],
    told: &[u8],
    playing: Playing<'a>,
    words: &'a mut [u16],
) -> Option<(Page<'a>, &'a mut [u16])> {
    let Some(at) = vacant(&page) else {
        tell(&rt.stderr(), told, "a page has 8 lists at most");
        return None;
    };
    let (list, rest) = load_list(rt, path, told, words)?;
    let page = with_playing(page, at, Playing { list, ..playing });
    Some((page, rest))
}

// The first place that no list has taken.
fn vacant(page: &Page<'_>) -> Option<usize>
    ensures within { IfSome result (λ at. at < 8) }
    ensures first { result ≡ position is_none page.now.lists }
{
    page.lists.iter().position(|list| list.is_none())
}

fn with_playing<'a>(page: Page<'a>, at: usize, playing: Playing<'a>) -> Page<'a>
    requires within { at < 8 }
    requires vacant { position is_none page.lists ≡ Some at }
    ensures { result ≡ with_playing playing.entry at page.entry }
{
    let mut p = page;
    p.lists[at] = Some(playing);
    p
}

// A fresh environment, or the number that it is refused with; 14 where the budget is too large.
fn fresh(given: Given) -> Result<Env, u8> {
    let made = ovenlute::fresh(given.width, given.height, given.pane);
    match made.number {
        0 if BUDGET < given.budget => Err(14),
        0 => Ok(made.env),
        number => Err(number),
    }
}

// The same; or a line has told the number.
pub fn fresh_or_told(rt: HostRuntime, name: &[u8], given: Given) -> Option<Env> {
    fresh(given)
        .map_err(|number| refuse(&rt.stderr(), name, number))
        .ok()
}
