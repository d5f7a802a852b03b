ghost use Rattle.std.specs.Prelude.{◌≡◌, ◌≢◌, ◌++◌, ◌↔◌, ◌⊎◌, ◌&&◌, [], ℕ, List, None, Some, All, AllPairs, Contains, map, true, false};
ghost use Rattle.std.specs.List.Sorted.{IsStrictlyIncreasing};
ghost use Rattle.cs_types.specs.declared.cells.Cell.{Cell};
ghost use Rattle.cs_types.specs.declared.change.Change.{Change};
ghost use Rattle.cs_types.specs.declared.change.Kind.TheVariants.{Insert, Update, Delete};
ghost use Rattle.cs_types.specs.declared.names.CaptureType.TheVariants.{NewRow};
ghost use Rattle.cs_records.specs.declared.captured.Captured.{Captured};
ghost use Rattle.cs_records.specs.declared.captured.ColumnInfo.{ColumnInfo};
ghost use Rattle.cs_types.specs.Change.{wanted_changes};
ghost use Rattle.cs_types.specs.Database.{AreChangesOfOneDatabase};
ghost use Rattle.cs_types.specs.Names.{is_among};
ghost use Rattle.cs_types.specs.Stamp.{IsStamp};
ghost use Rattle.cs_records.specs.Group.{Agree, HasItsColumns};
ghost use Rattle.cs_schema.specs.Sound.{IsSoundCatalog};
ghost use Rattle.cs_schema.specs.Tables.{table_named};
ghost use Rattle.cs_schema.specs.declared.types.Column.{Column};
ghost use Rattle.cs_schema.specs.declared.types.Table.{Table};
ghost use Rattle.cs_schema.specs.declared.types.Stream.{Stream};
ghost use Rattle.cs_schema.specs.Watching.{key_of, watches_table};
ghost use Rattle.cs_txn.specs.declared.txn.Modification.{Modification};
ghost use Rattle.cs_txn.specs.Fits.{HaveNames, FitsCatalog, IsHistoryOf};
ghost use Rattle.cs_txn.specs.History.{IsHistory};
ghost use Rattle.cs_capture.specs.Captured.{captured, columns_in, is_watched_in, told_columns};
ghost use Rattle.cs_capture.specs.Types.{AreOfTheirTypes};
ghost use Rattle.cs_capture.specs.Wanted.{captured_changes};

/// A law: nothing is captured exactly where the stream does not watch the table, or where an UPDATE
/// names no watched column of its row.
pub fn captures_nothing()
    ensures { (tables : List Table) (stream : Stream) (m : Modification) → (captured tables stream m ≡ None) ↔ ((watches_table stream.watch m.row.table ≡ false) ⊎ ((m.kind ≡ Update) × All (λ (cell : Cell). is_watched_in tables stream m cell.column ≡ true → is_among cell.column m.named ≡ false) (m.after ++ m.before))) }
{}

/// A law: the captured change of a DELETE has no new cells.
pub fn a_delete_has_no_new_cells()
    ensures { (tables : List Table) (stream : Stream) (m : Modification) (c : Captured) → captured tables stream m ≡ Some c → m.kind ≡ Delete → c.change.new ≡ [] }
{}

/// A law: the captured change of an INSERT has no old cells.
pub fn an_insert_has_no_old_cells()
    ensures { (tables : List Table) (stream : Stream) (m : Modification) (c : Captured) → captured tables stream m ≡ Some c → m.kind ≡ Insert → c.change.old ≡ [] }
{}

/// A law: each cell of a captured change is of a watched column that is no key column.
pub fn cells_are_of_watched_columns()
    ensures { (tables : List Table) (stream : Stream) (m : Modification) (c : Captured) → captured tables stream m ≡ Some c → All (λ (cell : Cell). is_watched_in tables stream m cell.column ≡ true) (c.change.new ++ c.change.old) }
{}

/// A law: with NEW_ROW the captured change of an UPDATE has each watched cell of the row as it is.
pub fn a_new_row_is_whole()
    ensures { (tables : List Table) (stream : Stream) (m : Modification) (c : Captured) → captured tables stream m ≡ Some c → stream.capture ≡ NewRow → m.kind ≡ Update → All (λ (cell : Cell). is_watched_in tables stream m cell.column ≡ true → Contains c.change.new cell) m.after }
{}

/// A law: a column list has just the columns of the table that are key columns or that have a cell
/// in the change.
pub fn told_columns_are_listed()
    ensures { (tables : List Table) (stream : Stream) (m : Modification) (c : Captured) (name : List ℕ) → captured tables stream m ≡ Some c → is_among name (map (λ (i : ColumnInfo). i.name) c.columns) ≡ (is_among name (told_columns (key_of (table_named m.row.table tables)) c.change) && is_among name (map (λ (d : Column). d.name) (columns_in (table_named m.row.table tables)))) }
{}

/// A law: the ordinals of a column list rise.
pub fn ordinals_rise()
    ensures { (tables : List Table) (stream : Stream) (m : Modification) (c : Captured) → captured tables stream m ≡ Some c → IsStrictlyIncreasing (map (λ (i : ColumnInfo). i.ordinal) c.columns) }
{}

/// A law: what is captured of a modification that fits its catalog can be grouped and written. It
/// has the columns that its change tells of, and each value is NULL or of the type that is told of
/// its column, of which no two have one name. What is captured of one transaction agrees, also
/// where the modifications are any two of one stamp, id and tag that fit.
pub fn captured_changes_can_be_grouped()
    ensures columns { (tables : List Table) (streams : List Stream) (stream : Stream) (m : Modification) (c : Captured) → IsSoundCatalog tables streams → FitsCatalog tables m → captured tables stream m ≡ Some c → HasItsColumns c }
    ensures types { (tables : List Table) (streams : List Stream) (stream : Stream) (m : Modification) (c : Captured) → IsSoundCatalog tables streams → FitsCatalog tables m → captured tables stream m ≡ Some c → AreOfTheirTypes c }
    ensures transaction { (tables : List Table) (streams : List Stream) (stream : Stream) (ms : List Modification) (m n : Modification) (c d : Captured) → IsSoundCatalog tables streams → IsHistoryOf tables ms → IsHistory ms → Contains ms m → Contains ms n → m.tx ≡ n.tx → captured tables stream m ≡ Some c → captured tables stream n ≡ Some d → Agree c d }
    ensures agree { (tables : List Table) (streams : List Stream) (stream : Stream) (m n : Modification) (c d : Captured) → IsSoundCatalog tables streams → FitsCatalog tables m → FitsCatalog tables n → m.stamp ≡ n.stamp → m.tx ≡ n.tx → m.tag ≡ n.tag → captured tables stream m ≡ Some c → captured tables stream n ≡ Some d → Agree c d }
{}

/// A law: the changes that are wanted of a history which fits its catalog, whose tables have names
/// without a byte 00, are of one database, and no two of them agree in both transaction and row.
pub fn changes_are_of_one_database()
    ensures changes { (tables : List Table) (streams : List Stream) (stream : Stream) (ms : List Modification) (start end : ℕ) → IsSoundCatalog tables streams → HaveNames tables → IsHistoryOf tables ms → IsStamp start → IsStamp end → AllPairs AreChangesOfOneDatabase (wanted_changes start end (captured_changes tables stream ms)) }
    ensures apart { (tables : List Table) (stream : Stream) (ms : List Modification) (start end : ℕ) → IsHistory ms → AllPairs (λ (c d : Change). c.row ≡ d.row → c.tx ≢ d.tx) (wanted_changes start end (captured_changes tables stream ms)) }
{}
