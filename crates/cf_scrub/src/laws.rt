//! Laws of damages.

ghost use Rattle.std.specs.Prelude.{◌≡◌, ℕ, []};
ghost use Rattle.cf_codec.specs.declared.formats.Format.{Format};
ghost use Rattle.cf_scrub.specs.States.{damages};
ghost use Rattle.cf_table.specs.Tables.{AreTableRows, RisesFrom};
ghost use Rattle.cf_volume_image.specs.Contents.{image_of};
ghost use Rattle.cf_volume_image.specs.Sound.{IsSoundIn};
ghost use Rattle.cf_volume_image.specs.declared.contents.Contents.{Contents};

/// A law: contents have no damage just where they are those of a volume.
pub fn no_damage_is_a_volume()
    ensures sound { (f : Format) (clusters : ℕ) (c : Contents) → RisesFrom 0 c.rows.rows → AreTableRows c.rows.rows → damages f clusters (image_of c) ≡ [] → IsSoundIn f clusters (image_of c) }
    ensures none { (f : Format) (clusters : ℕ) (c : Contents) → RisesFrom 0 c.rows.rows → AreTableRows c.rows.rows → IsSoundIn f clusters (image_of c) → damages f clusters (image_of c) ≡ [] }
{}
