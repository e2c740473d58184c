// A sequence of opcodes, each of which may be a block holding a sequence again: two readers that call each other.
ghost use Rattle.std.specs.Prelude.{◌≡◌, ◌≤◌, ◌<◌, length};
ghost use Rattle.player.specs.Player.{fault};
ghost use Rattle.player.specs.Refusals.{number_of};
ghost use Rattle.checker.specs.Reading.{sequence_at, block_at};
ghost use Rattle.checker.specs.Sums.{capped, capped_block};

use crate::sums::cap;
use forms::form_of;
use forms::layout::{Layout, layout_of};
use numbers::place::WordIndex;
use numbers::value::extend;
use player::Verdict;
use player::refusal::Refusal;

// What closes a sequence.
#[derive(Clone, Copy)]
pub enum Closer {
    Eodl,
    Erpt,
}

// The end of the list inside a block: no call is refused so, and the rules have no name for it.
const END_IN_BLOCK: u8 = 30;

// A sound sequence: what closes it, where that stands, and the steps before it.
#[derive(Clone, Copy)]
pub struct Closed {
    pub by: Closer,
    pub place: WordIndex,
    pub steps: u32,
}

// Behind a sound block: the next index, and the steps that the block has.
#[derive(Clone, Copy)]
pub struct Behind {
    pub next: WordIndex,
    pub steps: u32,
}

// As in a call: the opcode at `place` would be refused.
pub fn refused(why: Refusal, place: WordIndex) -> Verdict
    ensures { result ≡ fault (number_of why) place }
{
    Verdict {
        number: why.number(),
        place,
    }
}

// The sequence that begins at `from`, with room for so many blocks in one another.
#[cycle(block_sequence)]
pub fn sequence(list: &[u16], from: WordIndex, room: u32) -> Result<Closed, Verdict>
    requires { (length list.now ≤ 65536) × (from.0 ≤ length list.now) }
    ensures { result ≡ capped (sequence_at list.now room from) }
{
    let mut place = from;
    let mut steps: u32 = 0;
    // No `for`: what stands there tells where the next opcode is due.
    while (place.0 as usize) < list.len() {
        let at = place.0 as usize;
        match layout_of(form_of(list[at])) {
            Layout::Plain(words) => {
                if list.len() - at < words as usize {
                    return Err(refused(Refusal::Cut, place));
                }
                place = place.past(words);
                steps = cap(steps + 1);
            }
            Layout::Ends => return Ok(Closed {
                by: Closer::Eodl,
                place,
                steps,
            }),
            Layout::Closes => return Ok(Closed {
                by: Closer::Erpt,
                place,
                steps,
            }),
            Layout::Opens => {
                let inner = block(list, place, room)?;
                place = inner.next;
                steps = cap(steps + inner.steps);
            }
            Layout::Strange | Layout::Flow(_) => return Err(refused(Refusal::Unknown, place)),
        }
    }
    Err(refused(Refusal::PastEnd, place))
}

// The block whose RPT stands at `place`: RPT counts once, the sequence inside and its ERPT once a pass.
#[cycle(block_sequence)]
fn block(list: &[u16], place: WordIndex, room: u32) -> Result<Behind, Verdict>
    requires { (length list.now ≤ 65536) × (place.0 < length list.now) }
    ensures { result ≡ capped_block (block_at list.now room place) }
{
    let at = place.0 as usize;
    if list.len() - at < 2 {
        return Err(refused(Refusal::Cut, place));
    }
    let count = extend(list[at + 1]);
    if count == 0 || 1000 < count {
        return Err(refused(Refusal::NotAllowed, place));
    }
    if room == 0 {
        return Err(refused(Refusal::TooDeep, place));
    }
    let inside = sequence(list, place.past(2), room - 1)?;
    match inside.by {
        Closer::Eodl => Err(Verdict {
            number: END_IN_BLOCK,
            place: inside.place,
        }),
        Closer::Erpt => Ok(Behind {
            next: inside.place.past(1),
            steps: cap(1 + count * (inside.steps + 1)),
        }),
    }
}
