// Why a call is refused at the door, and why an opcode is: the rules' numbers by name.
ghost use Rattle.std.specs.Prelude.{◌≡◌};
ghost use Rattle.player.specs.Refusals.{number_of, unfit_number};

// At the door: a width or a height; the screen's bytes; the pane or another field of the environment; the list's length; the budget.
#[derive(Clone, Copy)]
pub enum Unfit {
    Size,
    Screen,
    Field,
    List,
    Budget,
}

// Of an opcode: there is none, as the list ends before it; it is unknown; the list ends inside it; a variable above 63; a mode, type,
// condition or count that is not allowed; a coordinate outside; a divisor of zero; a target that is not allowed; 16 returns stacked
// or eight repeats open; none stacked or open.
#[derive(Clone, Copy)]
pub enum Refusal {
    PastEnd,
    Unknown,
    Cut,
    Misnamed,
    NotAllowed,
    Outside,
    ByZero,
    NoTarget,
    TooDeep,
    NoneOpen,
}

impl Unfit {
    #[inline(always)]
    pub fn number(self) -> u8
        ensures { result ≡ unfit_number self }
    {
        match self {
            Unfit::Size => 10,
            Unfit::Screen => 11,
            Unfit::Field => 12,
            Unfit::List => 13,
            Unfit::Budget => 14,
        }
    }
}

impl Refusal {
    #[inline(always)]
    pub fn number(self) -> u8
        ensures { result ≡ number_of self }
    {
        match self {
            Refusal::PastEnd => 20,
            Refusal::Unknown => 21,
            Refusal::Cut => 22,
            Refusal::Misnamed => 23,
            Refusal::NotAllowed => 24,
            Refusal::Outside => 25,
            Refusal::ByZero => 26,
            Refusal::NoTarget => 27,
            Refusal::TooDeep => 28,
            Refusal::NoneOpen => 29,
        }
    }
}
