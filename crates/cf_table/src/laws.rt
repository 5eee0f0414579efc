//! Laws of rows, for the crates above.

ghost use Rattle.std.specs.Prelude.{◌≡◌, ◌∷◌, [], ◌+◌, ◌<◌, ◌^◌, ℕ, false, true, List, All, filter, find, is_some, length, map, MatchOption, None, Option, option_map, Some, sum_by};
ghost use Rattle.cf_base.specs.declared.changes.Change.{Change};
ghost use Rattle.cf_base.specs.declared.ids.ItemId.{ItemId};
ghost use Rattle.cf_base.specs.declared.ids.Usn.{Usn};
ghost use Rattle.cf_model.specs.Blocks.{block_has_byte, blocks_holding};
ghost use Rattle.cf_model.specs.Books.{Book, access_of, anchor_of, no_book};
ghost use Rattle.cf_model.specs.Rows.{row_of as model_row};
ghost use Rattle.cf_model.specs.Formats.{spell_rows};
ghost use Rattle.cf_model.specs.Images.{row_len as item_len};
ghost use Rattle.cf_model.specs.Items.{Item, item_of, root};
ghost use Rattle.cf_model.specs.LookUp.{by_name, child_of, children};
ghost use Rattle.cf_model.specs.Numbers.{above};
ghost use Rattle.cf_ranges.specs.Pairs.{cluster_at, IsRising};
ghost use Rattle.cf_table.specs.Booked.{AreRowsOf};
ghost use Rattle.cf_table.specs.Changing.{Fits, IsNext, ItemsFit};
ghost use Rattle.cf_table.specs.Means.{IsFresh, Means};
ghost use Rattle.cf_table.specs.Spelling.{extent_of, HasRoom, row_value};
ghost use Rattle.cf_table.specs.Tables.{AreTableRows, child_rows, id_of, ids_of, is_child_row, IsStored, IsTableRow, MeansAll, row_of, rows_by_name, rows_len};
ghost use Rattle.cf_table.specs.declared.rows.Row.{Row};

/// The row with an id means the item with that id, and where there is no such row there is no such item.
#[tactic(auto, using(crate::proofs::Lengths::rows_are_items))]
pub fn rows_are_items()
    ensures { (rows : List Row) (items : List Item) (id : ItemId) → MeansAll rows items → MatchOption (row_of rows id) (item_of items id ≡ None) (λ r. (i : Item) × (item_of items id ≡ Some i) × Means r i) }
{}

/// The length that the rows keep is that of their spelling, after the four bytes of their count.
#[tactic(auto, using(crate::proofs::Lengths::spelled_length))]
pub fn image_len_is_length()
    ensures { (rows : List Row) → length (spell_rows (map row_value rows)) ≡ 4 + rows_len rows }
{}

/// A row in the form of a table is the row that the definitions make of its item under the book.
#[tactic(auto, using(crate::proofs::RowOfItem::row_is_of_item))]
pub fn row_is_of_item()
    ensures { (b : Book) (r : Row) (i : Item) → IsStored r → Means r i → r.anchor ≡ anchor_of b i.id → r.last ≡ access_of b i.id → row_value r ≡ model_row b (map extent_of r.extents) i }
{}

/// Rows of items are as long as the definitions say, so that a table is full where theirs is.
#[tactic(auto, using(crate::proofs::RowOfItem::rows_len_is))]
pub fn rows_are_as_long_as_items()
    ensures { (b : Book) (rows : List Row) (items : List Item) → AreTableRows rows → AreRowsOf b rows items → rows_len rows ≡ sum_by (item_len b) items }
{}

/// The rows of a new table are those of the root under the empty book.
#[tactic(auto, using(crate::proofs::RowOfItem::new_rows_are_of_items))]
pub fn new_rows_are_of_the_root()
    ensures { (rows : List Row) → MeansAll rows (root ∷ []) → All IsFresh rows → AreRowsOf no_book rows (root ∷ []) }
{}

/// Rows of items have room in their spelling, so that they can be spelled.
#[tactic(auto, using(crate::proofs::RowOfItem::rows_have_room, crate::proofs::RowOfItem::has_room))]
pub fn rows_have_room()
    ensures row { (r : Row) (i : Item) → IsTableRow r → Means r i → length r.extents < 2 ^ 32 → HasRoom r }
    ensures all { (b : Book) (rows : List Row) (items : List Item) → AreTableRows rows → AreRowsOf b rows items → All HasRoom rows }
{}

/// What is found by parent and name, by parent, and by number are the items that the definitions find.
#[tactic(auto, using(crate::proofs::ChildrenOf::child_means, crate::proofs::ChildrenOf::children_mean, crate::proofs::ChildrenOf::since_means))]
pub fn look_ups_find_items()
    ensures child { (rows : List Row) (items : List Item) (parent : ItemId) (name : List ℕ) → MeansAll rows items → id_of (find (is_child_row parent name) rows) ≡ option_map (λ i. i.id) (child_of items parent name) }
    ensures children { (rows : List Row) (items : List Item) (parent : ItemId) → MeansAll rows items → ids_of (rows_by_name (child_rows rows parent)) ≡ map (λ i. i.id) (by_name (children items parent)) }
    ensures since { (rows : List Row) (items : List Item) (number : Usn) → MeansAll rows items → ids_of (filter (λ r. above r.number number) rows) ≡ map (λ i. i.id) (filter (λ i. above i.number number) items) }
{}

/// A change fits the rows where it fits their items, which is what a caller knows of it.
#[tactic(auto, using(crate::proofs::NextChange::items_fit))]
pub fn a_change_fits_rows_by_items()
    ensures { (c : Change) (b : Book) (rows : List Row) (items : List Item) → AreRowsOf b rows items → ItemsFit c b items → Fits c rows }
{}

/// A number after the last one of a volume comes after all numbers and anchors of its rows.
#[tactic(auto, using(crate::proofs::NextChange::next_after_last))]
pub fn a_number_after_the_last_is_next()
    ensures { (last n : Usn) (rows : List Row) → above n last ≡ true → All (λ r. (above r.number last ≡ false) × (above r.anchor last ≡ false)) rows → IsNext n rows }
{}

/// Extents that have a cluster just for the blocks that hold a byte are the blocks that the definitions list.
#[tactic(auto, using(crate::proofs::HeldBlocks::blocks_are_held))]
pub fn extents_are_blocks()
    ensures { (pairs : List (ℕ × ℕ)) (held : List (Option ℕ)) → IsRising pairs → ((k : ℕ) → is_some (cluster_at pairs k) ≡ block_has_byte held k) → map (λ (p : ℕ × ℕ). p.0) pairs ≡ blocks_holding held }
{}
