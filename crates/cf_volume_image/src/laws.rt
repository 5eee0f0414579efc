//! Laws of images and payloads, for the crates above.

ghost use Rattle.std.specs.Prelude.{◌≡◌, ℕ, List, None};
ghost use Rattle.cf_base.specs.declared.ids.ItemId.{ItemId};
ghost use Rattle.cf_codec.specs.declared.formats.Format.{Format};
ghost use Rattle.cf_model.specs.Formats.{Image, Payload, after_payload};
ghost use Rattle.cf_table.specs.Tables.{RisesFrom};
ghost use Rattle.cf_volume_image.specs.Contents.{image_of, payload_of};
ghost use Rattle.cf_volume_image.specs.Enough.{NamesAll};
ghost use Rattle.cf_volume_image.specs.Sound.{IsSound, IsSoundIn};
ghost use Rattle.cf_volume_image.specs.Spelled.{AreRecordsFrom, IsImage, IsImageIn, IsPayloadIn, spell_image_in, spell_payload_in};
ghost use Rattle.cf_volume_image.specs.States.{TellsIn};
ghost use Rattle.cf_volume_image.specs.declared.contents.Contents.{Contents};

/// In either format a text spells one image, or one payload; so what was spelled is what is read. Texts tell one state.
pub fn one_value_of_a_text()
    ensures image { (f : Format) (i j : Image) → IsImageIn f i → IsImageIn f j → spell_image_in f i ≡ spell_image_in f j → i ≡ j }
    ensures payload { (f : Format) (p q : Payload) → IsPayloadIn f p → IsPayloadIn f q → spell_payload_in f p ≡ spell_payload_in f q → p ≡ q }
    ensures state { (f : Format) (image : List ℕ) (payloads : List (List ℕ)) (s t : Image) → TellsIn f image payloads s → TellsIn f image payloads t → s ≡ t }
{}

/// A payload that names all rows and records that differ makes the contents of before those of now.
pub fn a_payload_is_enough()
    ensures { (old new : Contents) (removed changed : List ItemId) (removed_keys changed_keys : List (List ℕ)) → RisesFrom 0 old.rows.rows → RisesFrom 0 new.rows.rows → AreRecordsFrom None old.records → AreRecordsFrom None new.records → NamesAll old new removed changed removed_keys changed_keys → after_payload (image_of old) (payload_of new removed changed removed_keys changed_keys) ≡ image_of new }
{}

/// An image that format 1 spells has a spelling in format 2 too, and one that is sound in format 1 is sound in format 2: it is
/// longer there by its clock and the last accesses of at most 10,000 rows, and the limit of format 2 is higher by more.
pub fn format_2_takes_all()
    ensures image { (f : Format) (i : Image) → IsImageIn f i → IsImage i }
    ensures sound { (f : Format) (clusters : ℕ) (i : Image) → IsSoundIn f clusters i → IsSound clusters i }
{}
