ghost use Rattle.std.specs.Prelude.{◌≡◌, List, Contains};
ghost use Rattle.cs_types.specs.Database.{AreOfOneDatabase};
ghost use Rattle.cs_schema.specs.declared.types.Table.{Table};
ghost use Rattle.cs_schema.specs.Growing.{Grows};
ghost use Rattle.cs_txn.specs.declared.txn.Modification.{Modification};
ghost use Rattle.cs_txn.specs.History.{IsHistory};
ghost use Rattle.cs_txn.specs.Fits.{HaveNames, TypesAgree, FitsCatalog, IsHistoryOf};

/// A law: the modifications of one transaction of a history have one stamp and one tag.
pub fn a_transaction_has_one_stamp_and_tag()
    ensures { (ms : List Modification) → IsHistory ms → (a b : Modification) → Contains ms a → Contains ms b → a.tx ≡ b.tx → (a.stamp ≡ b.stamp) × (a.tag ≡ b.tag) }
{}

/// A law: what fits a catalog fits it when it has grown.
pub fn what_fits_lasts()
    ensures one { (old new : List Table) (m : Modification) → Grows old new → FitsCatalog old m → FitsCatalog new m }
    ensures history { (old new : List Table) (ms : List Modification) → Grows old new → IsHistoryOf old ms → IsHistoryOf new ms }
{}

/// A law: modifications that fit one catalog are of rows of one database, and in modifications of
/// one table a column has values of one type.
pub fn what_fits_is_of_one_database()
    ensures rows { (tables : List Table) (a b : Modification) → HaveNames tables → FitsCatalog tables a → FitsCatalog tables b → AreOfOneDatabase a.row b.row }
    ensures types { (tables : List Table) (a b : Modification) → FitsCatalog tables a → FitsCatalog tables b → a.row.table ≡ b.row.table → TypesAgree a b }
{}
