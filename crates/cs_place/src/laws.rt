ghost use Rattle.std.specs.Prelude.{◌≡◌, ◌↔◌, ℕ, List, Contains};
ghost use Rattle.std.specs.Ordering.{nat_cmp, is_lt};
ghost use Rattle.std.specs.Cmp.Lexicographic.{slice_cmp};
ghost use Rattle.cs_types.specs.declared.change.RowName.{RowName};
ghost use Rattle.cs_types.specs.Database.{IsName, HaveOneLayout, AreOfOneDatabase};
ghost use Rattle.cs_types.specs.Row.{row_cmp};
ghost use Rattle.cs_place.specs.declared.part.Part.{Part};
ghost use Rattle.cs_place.specs.Layout.{IsSoundLayout};
ghost use Rattle.cs_place.specs.Place.{place_bytes, table_place};

/// A law: byte order of places is the order of their rows, by table, then by the key, cell by cell.
/// One layout is enough; a column may have values of two types.
pub fn places_in_order()
    ensures layout { (a b : RowName) → HaveOneLayout a b → slice_cmp nat_cmp (place_bytes a) (place_bytes b) ≡ row_cmp a b }
    ensures database { (a b : RowName) → AreOfOneDatabase a b → slice_cmp nat_cmp (place_bytes a) (place_bytes b) ≡ row_cmp a b }
{}

/// A law: places are equal exactly for equal rows. One layout is enough.
pub fn places_are_apart()
    ensures layout { (a b : RowName) → HaveOneLayout a b → (place_bytes a ≡ place_bytes b) ↔ (a ≡ b) }
    ensures database { (a b : RowName) → AreOfOneDatabase a b → (place_bytes a ≡ place_bytes b) ↔ (a ≡ b) }
{}

/// A law: a row is below the place of a table exactly where the table's name is above its own, so
/// that place is below the table's rows and above those of the tables before it.
pub fn table_below_its_rows()
    ensures { (row : RowName) (table : List ℕ) → IsName row.table → IsName table → is_lt (slice_cmp nat_cmp (place_bytes row) (table_place table)) ≡ is_lt (slice_cmp nat_cmp row.table table) }
{}

/// A law: the parts of a sound layout are told apart by their tokens.
pub fn tokens_name_parts()
    ensures { (created : ℕ) (parts : List Part) → IsSoundLayout created parts → (a b : Part) → Contains parts a → Contains parts b → a.token ≡ b.token → a ≡ b }
{}
