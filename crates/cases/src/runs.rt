// Runs the list and prints the answer.
use crate::answer::print_answer;
use crate::screen::print_screen;
use desk::desk::Desk;
use rules::answer::Answer;
use rules::environment::Env;

pub fn run(out: &impl Print, desk: Desk, list: &[u16], screen: &mut [u8]) -> Desk {
    let answer = answered(list, screen, desk.env, desk.budget);
    let env = answer.env;
    print_answer(out, answer);
    print_screen(out, screen, env.bounds.width as usize);
    desk.with_env(env)
}

// The box's answer, with none of its promises: no proof here leans on them.
fn answered(list: &[u16], screen: &mut [u8], env: Env, budget: u32) -> Answer {
    ovenlute::run(list, screen, env, budget)
}
