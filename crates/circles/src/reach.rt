// How far a circle reaches in a row: the first column, counted from its centre, that is outside it. `Reaching` is no type, since the
// reach of one row is asked in the next, of whose distance it says something too.
ghost use Rattle.std.specs.Prelude.{◌+◌, ◌-◌, ◌*◌, ◌<◌, ◌≤◌};
ghost use Rattle.circles.specs.Reaches.{Past, Reaching};

// The first number whose square is above n, from a number that is not past it: by at most sixteen steps, as from one row to the
// next, else by the root. Inlined, as a call for each row costs a quarter of an outline's time.
#[inline(always)]
fn past_root(n: u32, from: u32) -> u32
    requires { (n < 32768 * 32768) × (from ≤ 32768) × ((from - 1) * (from - 1) ≤ n) }
    ensures { Past n result }
{
    let last = from + 16;
    if n < last * last {
        for e in from..last + 1 {
            if n < e * e {
                return e;
            }
        }
    }
    n.isqrt() + 1
}

// In the rows d from the centre, where the rows one further out reach as far as g.
#[inline(always)]
pub fn reach_from(q: u32, d: u32, g: u32) -> u32
    requires { (q < 32768) × (d ≤ q) × Reaching q (d + 1) g }
    ensures { Reaching q d result × (1 ≤ result) }
{
    past_root(q * q - d * d, g)
}

// In any rows: nowhere in those further from the centre than the radius.
pub fn reach_at(q: u32, d: u32) -> u32
    requires { (q < 32768) × (d ≤ 32768) }
    ensures { Reaching q d result }
{
    if q < d {
        return 0;
    }
    past_root(q * q - d * d, 0)
}
