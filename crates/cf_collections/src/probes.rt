//! What a search in a list looks for.

ghost use Rattle.std.specs.Prelude.{◌≡◌, Bool};

/// A place in a list in order: which items come before it.
pub trait Probe<T> {
    ghost is_behind: { Self → T → Bool };

    /// Whether the item comes before the place.
    fn is_behind(&self, item: &T) -> bool
        ensures { result ≡ is_behind self.now item.now };
}
