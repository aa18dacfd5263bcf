// Rule 6: the grid's lines.
ghost use Rattle.std.specs.Prelude.{◌≡◌};
ghost use Rattle.points.specs.Grid.{part as part_of};

// i/32.
#[tactic(auto, unfolding(crate::specs::Grid::part))]
pub fn part(i: u32) -> f64
    ensures { result ≡ part_of i }
{
    (i as f64) / 32.0
}
