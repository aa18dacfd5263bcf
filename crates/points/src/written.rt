// The points written to the output list.
ghost use Rattle.std.specs.Prelude.{◌≡◌, map};
ghost use Rattle.answers.specs.Lists.{over};
ghost use Rattle.sheet.specs.Content.{flat};
ghost use Rattle.points.specs.Written.{phase_angle, written_point};

use crate::phase::Phase;
use leaves::constants::PI;
use sheet::Point;

// The angle of the phase: 0 or PI.
#[tactic(auto, unfolding(crate::specs::Written::phase_angle))]
pub fn phase_angle(phase: Phase) -> f64
    ensures { result ≡ phase_angle phase }
{
    if phase.is_second() { PI } else { 0.0 }
}

// Each moved point (u, v - phase) over the front of `out`, whose tail keeps its contents; a list that is too
// short for them stays as it is. (Indices, and no zip with `chunks_exact_mut`: of what is written through a zip, no
// clause of it speaks.)
pub fn write(phase: Phase, points: &[Point], out: &mut [f64])
    ensures { out.new ≡ over (flat (map (written_point phase) points.now)) out.old }
{
    if out.len() / 2 < points.len() {
        return;
    }
    let angle = phase_angle(phase);
    for (k, p) in points.iter().enumerate() {
        out[2 * k] = p.u;
        out[2 * k + 1] = p.v - angle;
    }
}
