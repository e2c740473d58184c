// Which dots of the screen a dot of the picture shows, along one side.
ghost use Rattle.std.specs.Prelude.{◌≡◌, ◌≤◌, ◌<◌};
ghost use Rattle.terminal.specs.Spans.{span_of, Inside};

// Where something begins, and how far it goes.
#[derive(Clone, Copy)]
pub struct Span {
    pub from: usize,
    pub count: usize,
}

// The dots of `size` that dot i of `count` shows: at least one.
pub fn share(i: usize, count: usize, size: usize) -> Span
    requires i_lt_count { i < count }
    requires count_bound { count ≤ 2000 }
    requires le_size { (1 ≤ size) × (size ≤ 2048) }
    ensures value { result ≡ span_of i count size }
    ensures inside { Inside result size }
{
    let from = i * size / count;
    let to = (i + 1) * size / count;
    Span {
        from,
        count: (to - from).max(1),
    }
}
