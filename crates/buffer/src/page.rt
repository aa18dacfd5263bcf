// Bytes laid into a page.
ghost use Rattle.std.specs.Prelude.{◌≡◌};
ghost use Rattle.buffer.specs.Page.{laid, behind};

// Puts the bytes in their order, the first of them at `at`. A place goes in and a place is answered, here and in the
// other writers, so that a caller lays texts one behind the other in one page.
#[tactic(auto, unfolding(crate::specs::Page::behind, crate::specs::Page::laid))]
pub fn put_bytes(bytes: &[u8], at: usize, page: &mut [u8]) -> usize
    ensures value { result ≡ behind at bytes.now page.old }
    ensures page_after { page.new ≡ laid at bytes.now page.old }
{
    match at.checked_add(bytes.len()) {
        Some(end) if end <= page.len() => {
            page[at..end].copy_from_slice(bytes);
            end
        }
        _ => at,
    }
}
