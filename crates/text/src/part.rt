//! Parts of a text.
ghost use Rattle.std.specs.Prelude.{◌≡◌, ◌≢◌, ◌<◌, length, take, slice_index, All, MatchOption};

/// A part of a text, and the place where it begins there.
#[derive(Clone, Copy, Debug, PartialEq, Eq)]
pub struct Part<'a> {
    pub bytes: &'a [u8],
    pub at: usize,
}

/// The place of the first byte that is `mark`, if there is one.
pub fn find(bytes: &[u8], mark: u8) -> Option<usize>
    ensures { MatchOption result (All (λ b. b ≢ mark) bytes.now) (λ n. (n < length bytes.now) × All (λ b. b ≢ mark) (take n bytes.now) × (slice_index bytes.now n ≡ mark)) }
{
    bytes.iter().position(|b| *b == mark)
}
