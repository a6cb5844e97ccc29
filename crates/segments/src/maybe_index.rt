//! Optional indices in four bytes.

use std::marker::Model;

/// An optional index in four bytes, as links store it. Contracts see an `Option`.
#[derive(Clone, Copy)]
pub struct MaybeIndex(u32);

impl Model for MaybeIndex {
    ghost use Rattle.std.specs.Prelude.{Option, ℕ};
    ghost use Rattle.segments.specs.Links.{index_of, code_of_index};

    ghost Value = { Option ℕ };

    ghost view = { λ e. index_of e.0 };

    ghost inverse = { λ o. record { 0 = code_of_index o } };
}

impl MaybeIndex {
    ghost use Rattle.std.specs.Prelude.{◌≡◌, ◌<◌, None, Some};

    /// Returns no index.
    pub fn none() -> MaybeIndex
        ensures { result ≡ None }
    {
        MaybeIndex(0)
    }

    /// Returns this index, which must be below 4,294,967,295.
    pub fn at(index: u32) -> MaybeIndex
        requires { index < 4294967295 }
        ensures { result ≡ Some index }
    {
        MaybeIndex(index + 1)
    }

    /// Returns the index, or `None`.
    pub fn get(self) -> Option<u32>
        ensures { result ≡ self }
    {
        if self.0 == 0 { None } else { Some(self.0 - 1) }
    }
}
