//! Laws of auxiliary records.

ghost use Rattle.std.specs.Prelude.{◌≡◌, ◌<◌, ◌^◌, ◌++◌, ℕ, None, codes};
ghost use Rattle.cf_base.specs.declared.answers.AuxRecord.{AuxRecord};
ghost use Rattle.cf_base.specs.declared.changes.Change.{Change};
ghost use Rattle.cf_base.specs.declared.ids.ItemId.{ItemId};
ghost use Rattle.cf_base.specs.declared.ids.Token.{Token};
ghost use Rattle.cf_base.specs.declared.ids.Usn.{Usn};
ghost use Rattle.cf_base.specs.declared.items.SeenPath.{SeenPath};
ghost use Rattle.cf_model.specs.Books as model;
ghost use Rattle.cf_model.specs.Books.{Book, aux_records, book_after, entry_record, key_bytes, no_book, seen_record, tombstone_of, tombstone_record, usn_bytes, with_access, with_anchor, with_cursor, with_entry, with_seen, with_ticks, with_tombstone, without_entry, without_seen, without_tombstone};
ghost use Rattle.cf_model.specs.Formats.{with_record, without_record};
ghost use Rattle.cf_model.specs.Words.{in_bytes};
ghost use Rattle.cf_engine_queue.specs.Records.{FitsEntry, FitsKey, FitsSeen, FitsTombstone, FitsUsn, IsCursor, IsEntry, IsKeepable, IsSeen, IsTombstone, cursor_record};
ghost use Rattle.cf_engine_queue.specs.Steps.{AreShortIds, AreShortNumbers, AreShortTokens, IsNewest};

/// A law: of each kind, a record says one thing at most. So what was spelled is read again as it was.
#[tactic(auto, using(crate::proofs::OneMeaning::one_cursor, crate::proofs::OneMeaning::one_entry, crate::proofs::OneMeaning::one_seen, crate::proofs::OneMeaning::one_tombstone))]
pub fn one_value_a_record()
    ensures cursors { (r : AuxRecord) (m n : ℕ) → IsCursor r m → IsCursor r n → m ≡ n }
    ensures entries { (r : AuxRecord) (d e : model.QueueEntry) → IsEntry r d → IsEntry r e → d ≡ e }
    ensures paths { (r : AuxRecord) (p q : SeenPath) → IsSeen r p → IsSeen r q → p ≡ q }
    ensures tombstones { (r : AuxRecord) (t u : model.Tombstone) → IsTombstone r t → IsTombstone r u → t ≡ u }
{}

/// A law: each step of a book is one auxiliary record that is put, or taken away by its key; steps of anchors and accesses
/// change none. A cursor of 0 has no record. A tombstone has a number that none has yet.
#[tactic(auto, using(crate::proofs::Steps::cursor_step, crate::proofs::Steps::no_cursor_step, crate::proofs::Steps::entry_step, crate::proofs::Steps::no_entry_step, crate::proofs::Steps::seen_step, crate::proofs::Steps::no_seen_step, crate::proofs::Steps::tombstone_step, crate::proofs::Steps::no_tombstone_step))]
pub fn one_record_a_step()
    ensures cursor { (b : Book) (clock : ℕ) → 0 < clock → aux_records (with_cursor clock b) ≡ with_record (cursor_record clock) (aux_records b) }
    ensures no_cursor { (b : Book) → aux_records (with_cursor 0 b) ≡ without_record (codes "c") (aux_records b) }
    ensures entry { (b : Book) (e : model.QueueEntry) → AreShortTokens b.entries → FitsKey e.token.0 → IsNewest e b → aux_records (with_entry e b) ≡ with_record (entry_record e) (aux_records b) }
    ensures no_entry { (b : Book) (token : Token) → AreShortTokens b.entries → FitsKey token.0 → aux_records (without_entry token b) ≡ without_record (codes "q" ++ key_bytes token.0) (aux_records b) }
    ensures seen { (b : Book) (p : SeenPath) → AreShortIds b.seen → p.item.0 < 2 ^ 64 → aux_records (with_seen p b) ≡ with_record (seen_record p) (aux_records b) }
    ensures no_seen { (b : Book) (item : ItemId) → AreShortIds b.seen → item.0 < 2 ^ 64 → aux_records (record b { seen = without_seen item b.seen }) ≡ without_record (codes "s" ++ in_bytes 8 item.0) (aux_records b) }
    ensures tombstone { (b : Book) (t : model.Tombstone) → AreShortNumbers b.tombstones → FitsUsn t.number → tombstone_of b t.number ≡ None → aux_records (with_tombstone t b) ≡ with_record (tombstone_record t) (aux_records b) }
    ensures no_tombstone { (b : Book) (number : Usn) → AreShortNumbers b.tombstones → FitsUsn number → aux_records (without_tombstone number b) ≡ without_record (codes "t" ++ usn_bytes number) (aux_records b) }
    ensures others { (b : Book) (item : ItemId) (number : Usn) (ticks : ℕ) → (aux_records (with_anchor item number b) ≡ aux_records b) × (aux_records (with_ticks ticks b) ≡ aux_records b) × (aux_records (with_access item b) ≡ aux_records b) }
{}

/// A law: a book that fits its records, in order, still does after each step that brings what fits, and so meets what the
/// steps ask of it. An empty one does.
#[tactic(auto, using(crate::proofs::StaysKeepable::none_kept, crate::proofs::StaysKeepable::short_tokens, crate::proofs::StaysKeepable::short_ids, crate::proofs::StaysKeepable::short_numbers, crate::proofs::StaysKeepable::cursor_kept, crate::proofs::StaysKeepable::entry_kept, crate::proofs::StaysKeepable::no_entry_kept, crate::proofs::StaysKeepable::seen_kept, crate::proofs::StaysKeepable::no_seen_kept, crate::proofs::StaysKeepable::tombstone_kept, crate::proofs::StaysKeepable::no_tombstone_kept, crate::proofs::StaysKeepable::anchor_kept, crate::proofs::StaysKeepable::ticks_kept, crate::proofs::StaysKeepable::access_kept, crate::proofs::StaysKeepable::change_kept))]
pub fn keepable_after_each_step()
    ensures none { IsKeepable no_book }
    ensures tokens { (b : Book) → IsKeepable b → AreShortTokens b.entries }
    ensures ids { (b : Book) → IsKeepable b → AreShortIds b.seen }
    ensures numbers { (b : Book) → IsKeepable b → AreShortNumbers b.tombstones }
    ensures cursor { (b : Book) (clock : ℕ) → IsKeepable b → clock < 2 ^ 64 → IsKeepable (with_cursor clock b) }
    ensures entry { (b : Book) (e : model.QueueEntry) → IsKeepable b → FitsEntry e → IsNewest e b → IsKeepable (with_entry e b) }
    ensures no_entry { (b : Book) (token : Token) → IsKeepable b → IsKeepable (without_entry token b) }
    ensures seen { (b : Book) (p : SeenPath) → IsKeepable b → FitsSeen p → IsKeepable (with_seen p b) }
    ensures no_seen { (b : Book) (item : ItemId) → IsKeepable b → IsKeepable (record b { seen = without_seen item b.seen }) }
    ensures tombstone { (b : Book) (t : model.Tombstone) → IsKeepable b → FitsTombstone t → tombstone_of b t.number ≡ None → IsKeepable (with_tombstone t b) }
    ensures no_tombstone { (b : Book) (number : Usn) → IsKeepable b → IsKeepable (without_tombstone number b) }
    ensures anchor { (b : Book) (item : ItemId) (number : Usn) → IsKeepable b → IsKeepable (with_anchor item number b) }
    ensures ticks { (b : Book) (ticks : ℕ) → IsKeepable b → IsKeepable (with_ticks ticks b) }
    ensures access { (b : Book) (item : ItemId) → IsKeepable b → IsKeepable (with_access item b) }
    ensures change { (b : Book) (c : Change) → IsKeepable b → IsKeepable (book_after c b) }
{}
