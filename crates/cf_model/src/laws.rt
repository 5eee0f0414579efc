//! What the definitions come to, as laws.

ghost use Rattle.std.specs.Prelude.{◌≡◌, ℕ, List, [], ◌∷◌, ◌+◌, decimal, length, false};
ghost use Rattle.std.specs.List.{flat_map};
ghost use Rattle.cf_base.specs.declared.answers.AuxRecord.{AuxRecord};
ghost use Rattle.cf_model.specs.Words as words;
ghost use Rattle.cf_base.specs.declared.messages.Request.{Request};
ghost use Rattle.cf_base.specs.declared.changes.Change.{Change};
ghost use Rattle.cf_base.specs.declared.ids.Usn.{Usn};
ghost use Rattle.cf_model.specs.Blocks.{blocks_holding};
ghost use Rattle.cf_model.specs.Effects.{effect};
ghost use Rattle.cf_model.specs.Numbers.{is_no_usn};
ghost use Rattle.cf_model.specs.Soundness.{AllLater, AllSound, Needs};
ghost use Rattle.cf_model.specs.Books.{Book, no_book};
ghost use Rattle.cf_model.specs.Formats.{Image, spell_image, spell_record};
ghost use Rattle.cf_model.specs.Growth.{Extends, IsCounted};
ghost use Rattle.cf_model.specs.Images.{aux_len, image_len, row_len};
ghost use Rattle.cf_model.specs.Items.{Item, root};
ghost use Rattle.cf_model.specs.Rows.{Extent, row_of, spell_row};
ghost use Rattle.cf_model.specs.Store.{Held, remote_step};
ghost use Rattle.cf_model.specs.Texts as texts;
ghost use Rattle.cf_base.specs.Names as names;

/// The test of a name that computes is the one by which names are read.
#[tactic(auto, using(crate::proofs::NameLaws::name_is))]
pub fn one_test_of_names()
    ensures { (name : List ℕ) → texts.is_name name ≡ names.is_name name }
{}

/// The digits of a conflict name are those that a number prints as.
#[tactic(auto, using(crate::proofs::DecimalLaws::decimal_is))]
pub fn one_spelling_of_numbers()
    ensures { (n : ℕ) → words.decimal n ≡ decimal n }
{}

/// No request takes anything from the remote: each version that was made keeps its bytes, and each token what became of
/// it. Rids are given in order, without gaps.
#[tactic(auto, using(crate::proofs::StoreLaws::step_extends, crate::proofs::StoreLaws::step_counts))]
pub fn the_remote_only_grows()
    ensures versions { (held : Held) (q : Request) → Extends held (remote_step held q).1 }
    ensures rids { (held : Held) (q : Request) → IsCounted held → IsCounted (remote_step held q).1 }
{}

/// A request that comes twice changes nothing the second time.
#[tactic(auto, using(crate::proofs::StoreLaws::step_again))]
pub fn a_request_is_done_once()
    ensures { (held : Held) (q : Request) → (remote_step (remote_step held q).1 q).1 ≡ (remote_step held q).1 }
{}

/// The lengths by which a table is full are those of the bytes that are spelled.
#[tactic(auto, using(crate::proofs::LengthLaws::row_length, crate::proofs::LengthLaws::record_length, crate::proofs::LengthLaws::image_length))]
pub fn lengths_are_those_of_the_bytes()
    ensures row { (b : Book) (es : List Extent) (i : Item) → length es ≡ length (blocks_holding i.held) → length (spell_row (row_of b es i)) ≡ row_len b i }
    ensures auxiliary { (r : AuxRecord) → length (spell_record r) ≡ aux_len r }
    ensures image { (image : Image) → length (spell_image image) ≡ 41 + length (flat_map spell_row image.rows) + length (flat_map spell_record image.records) }
{}

/// The table of a new volume has the root alone: 41 bytes and a row of 74.
pub fn a_new_table_has_115_bytes()
    ensures { image_len (root ∷ []) no_book ≡ 115 }
{}

/// A change under a new number keeps every item sound, where it has what it needs. The root of a new volume is sound.
#[tactic(auto, using(crate::proofs::SoundEffects::effect_sound, crate::proofs::SoundEffects::root_sound))]
pub fn items_stay_sound()
    ensures first { AllSound (root ∷ []) }
    ensures next { (items : List Item) (c : Change) (n : Usn) → is_no_usn n ≡ false → AllLater n items → Needs c items → AllSound items → AllSound (effect items c n) }
{}
