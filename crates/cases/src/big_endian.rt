// Numbers in bytes, the first byte weighing most. A byte past the end counts as 0.
ghost use Rattle.std.specs.Prelude.{◌≡◌, ◌+◌, ◌^◌, ◌<◌, ◌≤◌, slice_index};
ghost use Rattle.cases.specs.BigEndian.{big};

// The byte i places behind `at`.
fn byte_behind(s: &[u8], at: usize, i: usize) -> u8
    ensures { result ≡ slice_index s.now (at + i) }
{
    let behind = s.get(at..).unwrap_or(&[]);
    behind.get(i).copied().unwrap_or(0)
}

// The number of the k bytes from `at` on.
#[tactic(auto, using(crate::proofs::Bytes::one_byte_more), unfolding(crate::specs::BigEndian::big))]
fn number(s: &[u8], at: usize, k: usize) -> u64
    requires { k ≤ 8 }
    ensures value { result ≡ big s.now at k }
    ensures upper_bound { result < 256 ^ k }
{
    let mut n = 0;
    for i in 0..k {
        n = n * 256 + u64::from(byte_behind(s, at, i));
    }
    n
}

// The same number in each of the two types that a record has.
pub fn u32_at(s: &[u8], at: usize) -> u32
    ensures { result ≡ big s.now at 4 }
{
    number(s, at, 4) as u32
}

pub fn u64_at(s: &[u8], at: usize) -> u64
    ensures { result ≡ big s.now at 8 }
{
    number(s, at, 8)
}
