// The turns of rule 7 along the grid's columns. They go down as the columns go up, so what they give is the
// same between two columns where they are equal. They are worked out once and serve up to a column that was
// asked. Where the period is at least 1, as on every sheet, they change at one column at most.
ghost use Rattle.std.specs.Prelude.{◌≡◌, ◌≤◌};
ghost use Rattle.std.specs.Float.Ieee.{eq};
ghost use Rattle.coverage.specs.Lines.{turn_at, Turning};

use points::{ColumnTest, column_ahead, keeps_order, part, whole_turns};

// The turns of a segment with the middle mid, at the columns from one up to another.
#[derive(Clone, Copy)]
pub(crate) struct ColumnTurns {
    pub period: f64,
    pub mid: f64,
    pub by: f64,
    pub from: u32,
    pub until: u32,
    ghost serving: { Turning period mid from until by },
}

impl ColumnTurns {
    // Before any column: `until` is 0, and columns count from 1, so that `until < i` asks for both at once.
    pub(crate) fn new(period: f64, mid: f64) -> ColumnTurns
        ensures { (result.period ≡ period) × (result.mid ≡ mid) × (result.from ≡ 1) }
    {
        ColumnTurns {
            period,
            mid,
            by: 0.0,
            from: 1,
            until: 0,
        }
    }

    // A column from theirs on up to which they serve: the last one, or one that is found by halves.
    fn reach(self) -> u32
        requires { self.by ≡ turn_at self.period self.mid self.from }
        ensures { (self.from ≤ result) × Turning self.period self.mid self.from result self.by }
    {
        if !keeps_order(self.period, self.mid) {
            return self.from;
        }
        column_ahead(self.from, self).unwrap_or(self.from)
    }

    // Those at column i: they stay where they still serve, else they are worked out.
    pub(crate) fn bring_to(&mut self, i: u32)
        requires { self.old.from ≤ i }
        ensures { (self.new.period ≡ self.old.period) × (self.new.mid ≡ self.old.mid) × (self.new.from ≤ i) × (i ≤ self.new.until) }
    {
        if self.until < i {
            *self = ColumnTurns {
                period: self.period,
                mid: self.mid,
                by: turn_at(self.period, self.mid, i),
                from: i,
                until: i,
            };
            self.until = self.reach();
        }
    }
}

// Whether the turns at column m are the same.
impl ColumnTest for ColumnTurns {
    ghost holds = { λ turns m. eq turns.by (turn_at turns.period turns.mid m) };

    fn holds_at(self, m: u32) -> bool {
        self.by == turn_at(self.period, self.mid, m)
    }
}

// The turns at column i of a segment with the middle mid.
fn turn_at(period: f64, mid: f64, i: u32) -> f64
    ensures { result ≡ turn_at period mid i }
{
    whole_turns(mid - part(i), period)
}
