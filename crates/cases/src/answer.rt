// Prints what a run answers, but for the screen.
use crate::print::{line, part};
use numbers::place::WordIndex;
use raster::frame::{Bounds, Window};
use rules::answer::Answer;
use rules::environment::{Registers, Repeat};

pub fn print_answer(out: &impl Print, answer: Answer) {
    let number = answer.number;
    let place = answer.place.0;
    let steps = answer.steps;
    line(
        out,
        format_args!("answer {number} place {place} steps {steps}"),
    );
    let env = answer.env;
    let registers = env.registers;
    print_bounds(out, env.bounds);
    print_registers(out, registers);
    print_returns(out, &env.stack, registers.depth as usize);
    print_repeats(out, &env.repeats, env.nesting as usize);
    print_variables(out, &env.variables);
}

fn print_bounds(out: &impl Print, bounds: Bounds) {
    part(out, format_args!("size {} {}", bounds.width, bounds.height));
    let pane = bounds.pane;
    line(
        out,
        format_args!(
            " pane {} {} {} {}",
            pane.left, pane.top, pane.right, pane.bottom
        ),
    );
}

fn print_registers(out: &impl Print, registers: Registers) {
    let position = registers.position;
    let origin = registers.origin;
    part(
        out,
        format_args!(
            "position {} {} origin {} {}",
            position.x, position.y, origin.x, origin.y
        ),
    );
    part(
        out,
        format_args!(
            " colour {} pattern {} mode {}",
            registers.colour, registers.pattern, registers.mode
        ),
    );
    print_window(out, registers.window);
    line(
        out,
        format_args!(
            "compared {} {}",
            registers.first.cast_signed(),
            registers.second.cast_signed()
        ),
    );
    part(
        out,
        format_args!("state {} place {}", registers.state, registers.place.0),
    );
    part(
        out,
        format_args!(" counter {} depth {}", registers.counter.0, registers.depth),
    );
}

fn print_window(out: &impl Print, window: Window) {
    line(
        out,
        format_args!(
            " window {} {} {} {}",
            window.x0, window.y0, window.x1, window.y1
        ),
    );
}

// The first `depth` returns, the first one stacked first.
fn print_returns(out: &impl Print, stack: &[WordIndex; 16], depth: usize) {
    part(out, " returns");
    for index in stack.iter().take(depth) {
        part(out, format_args!(" {}", index.0));
    }
    line(out, "");
}

// The first `nesting` repeats, the outermost first: where the block begins, and the passes left.
fn print_repeats(out: &impl Print, repeats: &[Repeat; 8], nesting: usize) {
    part(out, format_args!("nesting {nesting} repeats"));
    for repeat in repeats.iter().take(nesting) {
        part(out, format_args!(" {} {}", repeat.start.0, repeat.left));
    }
    line(out, "");
}

// The variables that are not 0.
fn print_variables(out: &impl Print, variables: &[u32; 64]) {
    for (i, bits) in variables.iter().enumerate() {
        if *bits != 0 {
            line(out, format_args!("V{i} {}", bits.cast_signed()));
        }
    }
}
