// The calls over the C convention: exported functions and nothing else. The archive for Rust or C is
// crates/capi/out/libcapi.a (`rt lib` here). Names carry the prefix facepoint_, since `round`
// and `hypot` alone would clash with the C library's. A slice goes as a pointer and the number of its
// elements. Phase, sense, n and the status are numbers, since C gives and reads them.
#![tactic(auto)]

ghost use Rattle.std.specs.Prelude.{◌≡◌};
ghost use Rattle.answers.specs.Returned.{returned, returned_of};
ghost use Rattle.leaves.specs.Root.{root_of};
ghost use Rattle.leaves.specs.Round.{round_of};
ghost use Rattle.round_fallback.specs.Cylinder.{cylinder_point_of};
ghost use Rattle.steps.specs.Direction.{direction_of};
ghost use Rattle.steps.specs.Placed.{placed_of};
ghost use Rattle.steps.specs.Sample.{sample_parameter_of};
ghost use Rattle.vertex_fallback.specs.Vertices.{point_on_of};
ghost use Rattle.triangle.specs.Lists.{triangle_lists_of};
ghost use Rattle.capi.specs.Convention.{seen, chart_seen, image_pick_returned, plane_pick_returned};

use answers::{RESULT_LENGTH, put};
use chart::Phase;

// The chart call: the status returned, the five numbers in `list`, the moved points in `points`.
#[unsafe(no_mangle)]
pub extern "C" fn facepoint_chart(
    sheet: &[u8],
    phase: u32,
    points: &mut [f64],
    list: &mut [f64],
) -> u32
    ensures { seen (returned result list.new) points.new ≡ chart_seen sheet.now phase points.old list.old }
{
    if list.len() != RESULT_LENGTH {
        return 1;
    }
    put(chart::chart(sheet, Phase::from(phase), points), list)
}

// The image pick: the status returned, the five numbers in `list`.
#[unsafe(no_mangle)]
pub extern "C" fn facepoint_image_pick(
    sheet: &[u8],
    phase: u32,
    images: &[f64],
    list: &mut [f64],
) -> u32
    ensures { returned result list.new ≡ image_pick_returned sheet.now phase images.now list.old }
{
    put(picker::image_pick(sheet, Phase::from(phase), images), list)
}

// The plane pick: the status returned, the five numbers in `list`.
#[unsafe(no_mangle)]
pub extern "C" fn facepoint_plane_pick(sheet: &[u8], list: &mut [f64]) -> u32
    ensures { returned result list.new ≡ plane_pick_returned sheet.now list.old }
{
    put(picker::plane_pick(sheet), list)
}

// A curve's nth parameter of 0 to 16 between a and b: the parameter.
#[unsafe(no_mangle)]
pub extern "C" fn facepoint_sample_parameter(a: f64, b: f64, n: u32, list: &mut [f64]) -> u32
    ensures { returned result list.new ≡ returned_of (sample_parameter_of a b n) list.old }
{
    put(steps::sample_parameter(a, b, n), list)
}

// The direction test of twelve numbers, first image, last image, start, end: reverse, keep.
#[unsafe(no_mangle)]
pub extern "C" fn facepoint_direction(points: &[f64], list: &mut [f64]) -> u32
    ensures { returned result list.new ≡ returned_of (direction_of points.now) list.old }
{
    put(steps::edge_direction(points), list)
}

// The triangle on a sphere, of three numbers and of nineteen a side: x, y, z.
#[unsafe(no_mangle)]
pub extern "C" fn facepoint_spherical_triangle(
    centre: &[f64],
    radius: f64,
    sense: u32,
    sides: &[f64],
    list: &mut [f64],
) -> u32
    ensures { returned result list.new ≡ returned_of (triangle_lists_of centre.now radius sense sides.now) list.old }
{
    put(
        triangle::spherical_triangle_of(centre, radius, sense, sides),
        list,
    )
}

// The vertex fallback, of three numbers, three numbers and three a corner: x, y, z.
#[unsafe(no_mangle)]
pub extern "C" fn facepoint_point_on(
    u_axis: &[f64],
    normal: &[f64],
    corners: &[f64],
    list: &mut [f64],
) -> u32
    ensures { returned result list.new ≡ returned_of (point_on_of u_axis.now normal.now corners.now) list.old }
{
    put(vertex_fallback::point_on(u_axis, normal, corners), list)
}

// The round fallback: the middle angle, the middle height.
#[unsafe(no_mangle)]
pub extern "C" fn facepoint_cylinder_point(heights: &[f64], angles: &[f64], list: &mut [f64]) -> u32
    ensures { returned result list.new ≡ returned_of (cylinder_point_of heights.now angles.now) list.old }
{
    put(round_fallback::cylinder_point(heights, angles), list)
}

// A point by a transform of twelve numbers, row by row: x, y, z.
#[unsafe(no_mangle)]
pub extern "C" fn facepoint_placed(transform: &[f64], point: &[f64], list: &mut [f64]) -> u32
    ensures { returned result list.new ≡ returned_of (placed_of transform.now point.now) list.old }
{
    put(steps::placed(transform, point), list)
}

// The IEEE 754 square root: double facepoint_root(double).
#[unsafe(no_mangle)]
pub extern "C" fn facepoint_root(x: f64) -> f64
    ensures { result ≡ root_of x }
{
    leaves::root(x)
}

// The nearest whole number, halves away from zero: double facepoint_round(double).
#[unsafe(no_mangle)]
pub extern "C" fn facepoint_round(x: f64) -> f64
    ensures { result ≡ round_of x }
{
    leaves::round(x)
}
