// A column of the grid further on, found by halves.
ghost use Rattle.std.specs.Prelude.{◌≡◌, ℕ, Bool};
ghost use Rattle.std.specs.List.{find};
ghost use Rattle.points.specs.Columns.{columns_ahead};

// What is asked of the grid's columns.
pub trait ColumnTest: Copy {
    ghost holds: { Self → ℕ → Bool };

    fn holds_at(self, m: u32) -> bool
        ensures { result ≡ holds self m };
}

// The first column at which the test holds, of the last one and those that are sixteen, eight, four, two and one
// further than i, as far as the last. (A closure in the test's place would have to be one that may be called, which
// every caller would owe.)
pub fn column_ahead<T: ColumnTest>(i: u32, test: T) -> Option<u32>
    ensures { result ≡ find (T.holds test) (columns_ahead i) }
{
    let last = 31u32.saturating_sub(i);
    for step in [last, 16, 8, 4, 2, 1] {
        if step <= last {
            let m = i + step;
            if test.holds_at(m) {
                return Some(m);
            }
        }
    }
    None
}
