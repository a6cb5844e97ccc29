//! Links, and lists with links.

use crate::MaybeIndex;

/// The link of an entry that matches: the number of earlier entries that match, the index of the
/// last of them, and the index of one further back. The first entry that matches jumps to itself.
#[derive(Clone, Copy)]
pub struct Link {
    pub number: u32,
    pub earlier: MaybeIndex,
    pub jump: u32,
}

/// A list of which some entries pass a test. Each of these has a link.
pub trait Linked {
    ghost use Rattle.std.specs.Prelude.{◌≡◌, ◌<◌, ℕ, Bool, true};
    ghost use Rattle.segments.specs.Linking.{IsLink};

    /// The test that entries pass.
    ghost matches: { Self → ℕ → Bool };

    /// The number of entries.
    ghost size: { Self → ℕ };

    /// Returns the link of an entry that matches.
    fn link_at(&self, index: u32) -> Link
        requires within { index < size self.now }
        requires passing { matches self.now index ≡ true }
        ensures { IsLink (matches self.now) index result };
}
