// Names the step of a list that painted a dot last, on standard output; or says on standard error why none can be named.
use crate::end::End;
use crate::page::fresh_or_told;
use errand::arguments::Given;
use errand::file::load_list;
use messages::writer::{Painter, refuse_dot, tell_painter};
use numbers::value::to_signed;
use outside::arguments::arg;
use raster::dots::Dot;
use rules::environment::Env;

// Of the dot in that column and row. None where it can't be told, and a line has told why.
pub fn name_writer(
    rt: HostRuntime,
    given: Given,
    x: u32,
    y: u32,
    words: &mut [u16],
) -> Option<End> {
    let env = fresh_or_told(rt, b"play", given)?;
    let mut room = io::buffer();
    let n = arg(&rt, given.first, &mut room);
    let name = &room[..n];
    let (list, _) = load_list(rt, name, name, words)?;
    let dot = Dot {
        x: to_signed(x),
        y: to_signed(y),
    };
    let painter = sought(list, env, given.budget, dot)
        .map_err(|number| refuse_dot(&rt.stderr(), number))
        .ok()?;
    tell_painter(&rt.stdout(), name, x, y, painter);
    Some(End::Done)
}

// Who painted the dot, if any step did, or the number that the question is refused with: what the box says, with none of its
// promises, as no proof here leans on them.
fn sought(list: &[u16], env: Env, budget: u32, dot: Dot) -> Result<Option<Painter<'_>>, u8> {
    let writer = who::who(list, env, budget, dot);
    match (writer.number, writer.step) {
        (0, 0) => Ok(None),
        (0, step) => Ok(Some(Painter {
            list,
            step,
            opcode: writer.opcode,
            colour: writer.colour,
        })),
        (number, _) => Err(number),
    }
}
