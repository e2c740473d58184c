// Steps, kept within 32 bits while the reading goes on.
ghost use Rattle.std.specs.Prelude.{◌≡◌};
ghost use Rattle.checker.specs.Sums.{cap as cap_of};

// More than 1,000,000 steps are 1,000,001.
pub fn cap(steps: u32) -> u32
    ensures { result ≡ cap_of steps }
{
    steps.min(1000001)
}
