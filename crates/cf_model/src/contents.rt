//! Laws of right bytes: what is held of a file is its content, the base's bytes under the local writes.

ghost use Rattle.std.specs.Prelude.{◌≡◌, ◌<◌, ℕ, List, [], None, is_some, map, true, unwrap_or};
ghost use Rattle.std.specs.List.{list_all};
ghost use Rattle.cf_base.specs.declared.changes.Change.{Change};
ghost use Rattle.cf_base.specs.declared.ids.Key.{Key};
ghost use Rattle.cf_base.specs.declared.ids.Rid.{Rid};
ghost use Rattle.cf_base.specs.declared.ids.Token.{Token};
ghost use Rattle.cf_base.specs.declared.ids.Usn.{Usn};
ghost use Rattle.cf_base.specs.declared.ids.Version.{Version};
ghost use Rattle.cf_base.specs.declared.messages.Request.TheVariants as request;
ghost use Rattle.cf_model.specs.Contents.{AllTrueTo, RisesFrom, StaysBy, Suits, base_named, up_to};
ghost use Rattle.cf_model.specs.Effects.{effect, later_than};
ghost use Rattle.cf_model.specs.Growth.{AreOf, IsCounted, NamesBytes};
ghost use Rattle.cf_model.specs.Identities.{identity_of};
ghost use Rattle.cf_model.specs.Items.{Item};
ghost use Rattle.cf_model.specs.Numbers.{no_usn};
ghost use Rattle.cf_model.specs.Overlay.{over};
ghost use Rattle.cf_model.specs.Store.{Held, bytes_of, recorded_at, remote_step};

/// A change keeps every content what is held over the base, where it suits the items: bytes that come are the base's, none
/// leaves a file with local writes, and another base has the same bytes or takes the place of all.
#[tactic(auto, using(crate::proofs::ContentItems::effect_true))]
pub fn changes_keep_contents()
    ensures { (r : Held) (items : List Item) (c : Change) (n : Usn) → AllTrueTo r items → Suits r c items → AllTrueTo r (effect items c n) }
{}

/// A Rebase leaves the content of a file: to a version that the writes up to its number made of the old base, where all
/// bytes are here; and at 0.0 to the same bytes.
#[tactic(auto, using(crate::proofs::Rebasing::rebase_stays, crate::proofs::Rebasing::rebase_same))]
pub fn a_rebase_leaves_the_content()
    ensures done { (old new : List ℕ) (at low : Usn) (i : Item) → RisesFrom low i.writes → list_all is_some i.held ≡ true → new ≡ over old (map (λ w. w.write) (up_to at i.writes)) → StaysBy old new (later_than at i.writes) i }
    ensures named { (base : List ℕ) (i : Item) → RisesFrom no_usn i.writes → StaysBy base base (later_than no_usn i.writes) i }
{}

/// The bytes of a fetch are those of the version that was asked for. A Put that comes for the first time and is done
/// names a version with its bytes. An identity below 2^64 is read back.
#[tactic(auto, using(crate::proofs::ReplyLaws::fetched, crate::proofs::ReplyLaws::put_names, crate::proofs::ReplyLaws::base_read))]
pub fn replies_tell_right_bytes()
    ensures fetch { (held : Held) (key : Key) (rid : Rid) (version : Version) (start len : ℕ) → AreOf (unwrap_or (bytes_of held rid version) []) (remote_step held (request.Fetch key rid version start len)).0 }
    ensures put { (held : Held) (token : Token) (rid : Rid) (expect : Version) (parent : Rid) (name bytes : List ℕ) → IsCounted held → recorded_at held.tokens token ≡ None → NamesBytes (remote_step held (request.Put token rid expect parent name bytes)).1 bytes (remote_step held (request.Put token rid expect parent name bytes)).0 }
    ensures identity { (r : Held) (target rid : Rid) (version : Version) → rid.0 < 18446744073709551616 → version.0 < 18446744073709551616 → base_named r (identity_of target rid version) ≡ unwrap_or (bytes_of r rid version) [] }
{}
