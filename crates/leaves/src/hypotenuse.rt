// The hypotenuse of document 01's stand-in, and the key by which hypotenuses are compared: keys order
// as hypotenuses do, so the least of many hypotenuses takes one root (proofs/Hypotenuses.antt).
ghost use Rattle.std.specs.Prelude.{◌≡◌};
ghost use Rattle.leaves.specs.Hypot.{key_of, hypot_of_key, hypot_of, hypot3_of};

use crate::square_root::root;

// The key of a pair of differences: a x a + b x b, each operation rounded.
#[tactic(auto, unfolding(crate::specs::Hypot::key_of))]
pub fn key(a: f64, b: f64) -> f64
    ensures { result ≡ key_of a b }
{
    a * a + b * b
}

// The hypotenuse of the pair that has the key k.
#[tactic(auto, unfolding(crate::specs::Hypot::hypot_of_key))]
pub fn hypot_of_key(k: f64) -> f64
    ensures { result ≡ hypot_of_key k }
{
    root(k)
}

// The root of a x a + b x b, each operation rounded.
#[tactic(auto, unfolding(crate::specs::Hypot::hypot_of))]
pub fn hypot(a: f64, b: f64) -> f64
    ensures { result ≡ hypot_of a b }
{
    hypot_of_key(key(a, b))
}

// Three terms: hypot(hypot(a, b), c).
#[tactic(auto, unfolding(crate::specs::Hypot::hypot3_of))]
pub fn hypot3(a: f64, b: f64, c: f64) -> f64
    ensures { result ≡ hypot3_of a b c }
{
    hypot(hypot(a, b), c)
}
