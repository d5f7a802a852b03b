ghost use Rattle.std.specs.Prelude.{◌≡◌, ◌↔◌, ℕ, List, Some, All, Contains};
ghost use Rattle.cs_schema.specs.declared.types.Table.{Table};
ghost use Rattle.cs_schema.specs.declared.types.Stream.{Stream};
ghost use Rattle.cs_schema.specs.Tables.{table_named};
ghost use Rattle.cs_schema.specs.Options.{retention_from, IsRetention};
ghost use Rattle.cs_schema.specs.Sound.{IsSoundTable, IsSoundCatalog};

/// A law: what is found by a name is one of the tables and has the name; in a sound catalog it is
/// sound, and each table is found by its own name.
pub fn tables_are_found()
    ensures each { (tables : List Table) (streams : List Stream) → IsSoundCatalog tables streams → All (λ (t : Table). table_named t.name tables ≡ Some t) tables }
    ensures found { (tables : List Table) (name : List ℕ) (t : Table) → table_named name tables ≡ Some t → Contains tables t × (t.name ≡ name) }
    ensures sound { (tables : List Table) (streams : List Stream) → IsSoundCatalog tables streams → (name : List ℕ) (t : Table) → table_named name tables ≡ Some t → IsSoundTable t }
{}

/// A law: a text is read as a retention exactly where it is `Nh` from 24 to 168 or `Nd` from 1 to 7.
pub fn retentions_are_read()
    ensures { (text : List ℕ) (us : ℕ) → (retention_from 0 text ≡ Some us) ↔ IsRetention text us }
{}
