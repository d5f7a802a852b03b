ghost use Rattle.std.specs.Prelude.{◌≡◌, [], ◌∷◌, ◌++◌, Some, None, false, MatchResult, IfOk, OnOk, OnErr};
ghost use Rattle.std.specs.Str.Lossy.{utf8_lossy};
ghost use Rattle.cs_schema.specs.Faults.{not_memory};
ghost use Rattle.cs_schema.specs.Tables.{with_column};
ghost use Rattle.cs_schema.specs.Lengths.{column_made};
ghost use Rattle.cs_schema.specs.Making.{table_made, table_fault, column_fault};
ghost use Rattle.cs_schema.specs.Streaming.{watch_made, stream_made, stream_fault};
ghost use Rattle.cs_schema.specs.Watching.{watches_in, watches_change};
ghost use Rattle.cs_schema.specs.Applying.{first_fault, applied};
ghost use Rattle.cs_schema.specs.Growing.{Grows};
ghost use Rattle.cs_schema.specs.Sound.{IsSoundCatalog};

use crate::lengths::{column, columns};
use crate::making::{check_column, check_table};
use crate::names::{text, texts};
use crate::streaming::{check_stream, stream};
use crate::watching::named_watched;
use crate::{SchemaFault, Stream, Table, Tables, Watch};
use cs_ddl::{ColumnTree, OptionTree, Statement, TypeTree, WatchTree, Word};
use cs_types::{Items, Memory, Stamp, Text};
use std::alloc::Global;
use std::marker::Model;

/// The tables and the change streams of a database, each in the order of their making. Tables and
/// streams have names of their own: a table and a stream may have the same. What it holds is sound:
/// each statement that would break this is refused.
#[derive(Drop)]
pub struct Catalog {
    tables: Tables,
    streams: Items<Stream>,
}

impl Model for Catalog {
    ghost use Rattle.cs_schema.specs.Schema.{Schema};
    ghost use Rattle.cs_schema.specs.Sound.{IsSoundCatalog};

    ghost Value = { Schema };

    ghost view = { λ c. record { tables = c.tables; streams = c.streams } };

    ghost invariant = { λ c. IsSoundCatalog c.tables c.streams };
}

impl Catalog {
    /// No table and no stream. It takes no memory.
    pub fn new(alloc: Global) -> Catalog
        ensures tables { result.tables ≡ [] }
        ensures streams { result.streams ≡ [] }
    {
        Catalog {
            tables: Tables::new(alloc),
            streams: Items::new(alloc),
        }
    }

    /// The tables in the order of their making.
    pub fn tables(&self) -> &Tables
        ensures value { result.now ≡ self.now.tables }
        ensures sound { IsSoundCatalog self.now.tables self.now.streams }
    {
        &self.tables
    }

    /// The streams in the order of their making.
    pub fn streams(&self) -> &[Stream]
        ensures value { result.now ≡ self.now.streams }
        ensures sound { IsSoundCatalog self.now.tables self.now.streams }
    {
        self.streams.as_slice()
    }

    /// Does what a statement says, at a moment, or refuses it: with the first fault that holds in
    /// the order of `SchemaFault`, or with `Memory`, which may come before any other. A catalog
    /// that refuses a statement is what it was.
    pub fn apply(&mut self, at: Stamp, statement: &Statement) -> Result<(), SchemaFault>
        ensures refused { MatchResult result (λ _. first_fault self.old statement.now ≡ None) (λ e. not_memory e → first_fault self.old statement.now ≡ Some e) }
        ensures ok { OnOk result (self.new ≡ applied self.old at statement.now) }
        ensures err { OnErr result (self.new ≡ self.old) }
        ensures grows { OnOk result (Grows self.old.tables self.new.tables) }
    {
        match statement {
            Statement::CreateTable { name, columns, key } => {
                self.create_table(name, columns.as_slice(), key.as_slice())
            }
            Statement::AddColumn { table, name, ty } => self.add_column(table, name, ty),
            Statement::CreateStream {
                name,
                watch,
                options,
            } => self.create_stream(at, name, watch, options.as_slice()),
            _ => Err(SchemaFault::NotBuilt),
        }
    }

    fn create_table(
        &mut self,
        name: &Word,
        trees: &[ColumnTree],
        key: &[Word],
    ) -> Result<(), SchemaFault>
        ensures refused { MatchResult result (λ _. table_fault self.old.tables self.old.streams (table_made name.now trees.now key.now) trees.now ≡ None) (λ e. not_memory e → table_fault self.old.tables self.old.streams (table_made name.now trees.now key.now) trees.now ≡ Some e) }
        ensures ok { OnOk result (self.new.tables ≡ self.old.tables ++ table_made name.now trees.now key.now ∷ []) }
        ensures err { OnErr result (self.new.tables ≡ self.old.tables) }
        ensures streams { self.new.streams ≡ self.old.streams }
    {
        let alloc = self.tables.allocator();
        let table = Table {
            name: text(alloc, name)?,
            columns: columns(alloc, trees)?,
            key: texts(alloc, key)?,
        };
        check_table(alloc, &self.tables, self.streams.as_slice(), &table, trees)?;
        self.tables.push(table)?;
        Ok(())
    }

    fn add_column(&mut self, table: &Word, name: &Word, ty: &TypeTree) -> Result<(), SchemaFault>
        ensures refused { MatchResult result (λ _. column_fault self.old.tables self.old.streams (utf8_lossy table.now) (utf8_lossy name.now) ty.now ≡ None) (λ e. not_memory e → column_fault self.old.tables self.old.streams (utf8_lossy table.now) (utf8_lossy name.now) ty.now ≡ Some e) }
        ensures ok { OnOk result (self.new.tables ≡ with_column (utf8_lossy table.now) (column_made name.now ty.now false) self.old.tables) }
        ensures err { OnErr result (self.new.tables ≡ self.old.tables) }
        ensures streams { self.new.streams ≡ self.old.streams }
    {
        let alloc = self.tables.allocator();
        let table = text(alloc, table)?;
        let made = column(alloc, name, ty, false)?;
        check_column(
            alloc,
            &self.tables,
            self.streams.as_slice(),
            &table,
            &made.name,
            ty,
        )?;
        self.tables.add_column(&table, made)?;
        Ok(())
    }

    fn create_stream(
        &mut self,
        at: Stamp,
        name: &Word,
        watch: &Option<WatchTree>,
        options: &[OptionTree],
    ) -> Result<(), SchemaFault>
        ensures refused { MatchResult result (λ _. stream_fault self.old.tables self.old.streams (utf8_lossy name.now) (watch_made watch.now) options.now ≡ None) (λ e. not_memory e → stream_fault self.old.tables self.old.streams (utf8_lossy name.now) (watch_made watch.now) options.now ≡ Some e) }
        ensures ok { OnOk result (self.new.streams ≡ self.old.streams ++ stream_made at name.now watch.now options.now ∷ []) }
        ensures err { OnErr result (self.new.streams ≡ self.old.streams) }
        ensures tables { self.new.tables ≡ self.old.tables }
    {
        let alloc = self.tables.allocator();
        let made = stream(alloc, at, name, watch, options)?;
        check_stream(
            alloc,
            &self.tables,
            self.streams.as_slice(),
            &made.name,
            &made.watch,
            options,
        )?;
        self.streams.push(made)?;
        Ok(())
    }
}

impl Stream {
    /// Whether the stream watches a change of a table that names these columns: the table is there
    /// and watched, and either no column is named or a watched one of the table that is no key
    /// column. It takes no memory.
    pub fn watches(&self, catalog: &Catalog, table: &Text, columns: &[Text]) -> bool
        ensures { result ≡ watches_change catalog.now.tables self.now.watch table.now columns.now }
    {
        match catalog.tables.find(table) {
            None => false,
            Some(found) => change_watched(&self.watch, found, columns),
        }
    }
}

fn change_watched(watch: &Watch, table: &Table, columns: &[Text]) -> bool
    ensures { result ≡ watches_in watch.now (Some table.now) columns.now }
{
    if watch.has_table(&table.name) {
        return named_watched(watch, table, columns);
    }
    false
}
