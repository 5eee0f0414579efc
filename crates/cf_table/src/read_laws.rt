//! Laws of spelled rows, for the crates above.

ghost use Rattle.std.specs.Prelude.{◌≡◌, ◌++◌, ℕ, List, Option};
ghost use Rattle.cf_codec.specs.declared.formats.Format.{Format};
ghost use Rattle.cf_model.specs.Rows.{Row};
ghost use Rattle.cf_table.specs.Faults.{AreTable};
ghost use Rattle.cf_table.specs.Reading.{AreRows, AreRowsIn, IsRow, IsRowIn};
ghost use Rattle.cf_table.specs.Spelling.{spell_row_in, spell_rows_in};

/// In either format a text begins with the spelling of one row at most, and of one list of rows.
#[tactic(auto, using(crate::proofs::OneRow::one_row, crate::proofs::OneRow::one_table))]
pub fn one_row_in_a_text()
    ensures row { (f : Format) (before : Option ℕ) (r s : Row) (a b : List ℕ) → IsRowIn f before r → IsRowIn f before s → spell_row_in f r ++ a ≡ spell_row_in f s ++ b → (r ≡ s) × (a ≡ b) }
    ensures rows { (f : Format) (rs ss : List Row) (a b : List ℕ) → AreTable f rs → AreTable f ss → spell_rows_in f rs ++ a ≡ spell_rows_in f ss ++ b → (rs ≡ ss) × (a ≡ b) }
{}

/// What format 1 spells, format 2 spells too.
pub fn format_2_spells_all()
    ensures row { (f : Format) (before : Option ℕ) (r : Row) → IsRowIn f before r → IsRow before r }
    ensures rows { (f : Format) (before : Option ℕ) (rs : List Row) → AreRowsIn f before rs → AreRows before rs }
{}
