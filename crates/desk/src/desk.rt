// What is kept from line to line.
ghost use Rattle.std.specs.Prelude.{◌≡◌, ◌≤◌};

use rules::environment::Env;

// The environment and the budget of the next run, how many words of the list's room are the list, and how many bytes of the
// screen's room are lent: neither reaches past its room.
#[derive(Clone, Copy)]
pub struct Desk {
    pub env: Env,
    pub budget: u32,
    pub words: usize,
    pub bytes: usize,
    pub ghost list_within: { words ≤ 65537 },
    pub ghost screen_within: { bytes ≤ 4194304 },
}

impl Desk {
    ghost use Rattle.desk.specs.Desks.{with_env as with_env_of};

    pub fn with_env(self, env: Env) -> Desk
        ensures { result ≡ with_env_of self env }
    {
        let mut after = self;
        after.env = env;
        after
    }
}
