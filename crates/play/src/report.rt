// The lines of the lists that were played, on standard error.
use crate::end::Ends;
use crate::page::{Page, Playing};
use errand::say::tell;
use messages::digits::Index;
use messages::place::Place;
use messages::words::Meaning;

// A line for each list; answers how they ended.
pub fn report(to: &impl Print, page: &Page<'_>) -> Ends {
    let mut ends = Ends::none_yet();
    for playing in page.lists.iter().flatten() {
        line(to, playing);
        ends = ends.with_number(playing.number);
    }
    ends
}

fn line(to: &impl Print, playing: &Playing<'_>) {
    let number = playing.number;
    let opcode = playing.env.registers.counter;
    let meaning = Meaning(number);
    let place = Place {
        list: playing.list,
        number,
        opcode,
        place: playing.env.registers.place,
    };
    let steps = playing.steps;
    let index = Index(opcode);
    let counter = opcode.0;
    let what = format_args!("{meaning}{place}: steps {steps}, counter {index} ({counter})");
    tell(to, playing.name, what);
}
