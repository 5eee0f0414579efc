//! Laws.

ghost use Rattle.std.specs.Prelude.{◌≡◌, List, ℕ};
ghost use Rattle.cf_journal.specs.Content.{Content, Stands};

/// A law: a disk stands for at most one content.
pub fn one_content()
    ensures { (disk : List ℕ) (x y : Content) → Stands disk x → Stands disk y → x ≡ y }
{}
