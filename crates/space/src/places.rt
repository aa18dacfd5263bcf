// Places in a list of numbers: x, y, z of the first, x, y, z of the next, and so on.
ghost use Rattle.std.specs.Prelude.{◌≡◌, get_or};
ghost use Rattle.std.specs.Float.{nan};
ghost use Rattle.std.specs.Iterator.{YieldsFirst, item_count};
ghost use Rattle.space.specs.Places.{place_at, places_left};

use crate::vectors::Place;

// The number at `at`, or a NaN past the list's end.
#[tactic(auto, using(crate::proofs::Triples::past_end))]
fn number_at(list: &[f64], at: usize) -> f64
    ensures { result ≡ get_or list.now at nan }
{
    if at < list.len() { list[at] } else { f64::NAN }
}

// The place whose three numbers begin at `at`; a number past the list's end is a NaN.
#[tactic(auto, using(crate::proofs::Triples::past_end))]
pub fn place_at(list: &[f64], at: usize) -> Place
    ensures { result ≡ place_at list.now at }
{
    if at < list.len() {
        Place {
            x: list[at],
            y: number_at(list, at + 1),
            z: number_at(list, at + 2),
        }
    } else {
        Place {
            x: f64::NAN,
            y: f64::NAN,
            z: f64::NAN,
        }
    }
}

// The places that are left in a list, three numbers each; one or two last numbers are no place.
#[derive(Clone, Copy)]
pub struct Places<'a> {
    pub list: &'a [f64],
}

impl<'a> Iterator for Places<'a> {
    type Item = Place;

    ghost next_gives = { YieldsFirst places_left };

    ghost remaining = { item_count places_left };

    #[tactic(auto, unfolding(crate::specs::Places::triples))]
    fn next(&mut self) -> Option<Place> {
        let [x, y, z, rest @ ..] = self.list else {
            return None;
        };
        self.list = rest;
        Some(Place {
            x: *x,
            y: *y,
            z: *z,
        })
    }
}
