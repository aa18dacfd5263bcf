// Checks 1 to 8, and how many points there are.
ghost use Rattle.std.specs.Prelude.{◌≡◌};
ghost use Rattle.answers.specs.Outcome.{first, status_of};
ghost use Rattle.sheet.specs.Layout.{sheet_of};
ghost use Rattle.frame.specs.Framing.{phase_wrong, point_count};
ghost use Rattle.frame.specs.Seam.{phase_checks};

use answers::Refusal;
use points::Phase;

// 8: a phase that is neither 0 nor 1, or 1 off a torus.
#[tactic(auto, unfolding(crate::specs::Framing::phase_wrong, sheet::specs::Layout::sheet_of))]
fn phase_wrong(s: &[u8], phase: Phase) -> bool
    ensures { result ≡ phase_wrong (sheet_of s.now) phase }
{
    phase.is_unknown() || phase.is_second() && !sheet::kind_of(s).is_torus()
}

// The first check of 1 to 8 that fails.
pub fn check(s: &[u8], phase: Phase) -> Result<(), Refusal>
    ensures { status_of result ≡ first (phase_checks s.now phase) }
{
    sheet::check(s)?;
    if phase_wrong(s, phase) {
        return Err(Refusal::Phase);
    }
    Ok(())
}

// How many points the rings have: at most 255 rings, of at most 65025 points each.
pub fn point_count(s: &[u8]) -> usize
    ensures { result ≡ point_count (sheet_of s.now) }
{
    sheet::rings(s).map(|ring| ring.point_count()).sum()
}
