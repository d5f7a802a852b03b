ghost use Rattle.std.specs.Prelude.{◌≡◌, ◌≤◌, ◌++◌, ◌∷◌, false, true, Ok, Err, Some, None, OnOk, OnErr, IfErr};
ghost use Rattle.cs_tree.specs.View.{view};
ghost use Rattle.cs_schema.specs.declared.fault.SchemaFault.{SchemaFault};
ghost use Rattle.cs_schema.specs.Applying.{first_fault as schema_fault, applied};
ghost use Rattle.cs_schema.specs.Growing.{Grows};
ghost use Rattle.cs_txn.specs.declared.fault.TxnFault.{TxnFault};
ghost use Rattle.cs_txn.specs.Fits.{IsHistoryOf};
ghost use Rattle.cs_txn.specs.History.{modifications_of};
ghost use Rattle.cs_txn.specs.Sizes.{first_fault as txn_fault};
ghost use Rattle.cs_partitions.specs.declared.fault.LayoutFault.{LayoutFault};
ghost use Rattle.cs_partitions.specs.Fault.{first_fault as layout_fault};
ghost use Rattle.cs_partitions.specs.Reshape.{reshaped};
ghost use Rattle.cs_script.specs.declared.action.Action.TheVariants.{Ddl};
ghost use Rattle.cs_script.specs.declared.fault.LineCause.TheVariants.{Schema, Txn as TxnCause, Layout as LayoutCause};
ghost use Rattle.cs_script.specs.Borders.{stream_place};
ghost use Rattle.cs_script.specs.Database.{no_database, writes_at};
ghost use Rattle.cs_script.specs.Kept.{IsKept};
ghost use Rattle.cs_script.specs.Line.{is_back};
ghost use Rattle.cs_script.specs.Members.{is_id};
ghost use Rattle.cs_script.specs.Named.{HasId};
ghost use Rattle.cs_script.specs.Readings.{not_memory};
ghost use Rattle.cs_script.specs.Takes.{Takes, IsTakenTree, IsDone, HasNames, schema_of, applied_unless, committed, reshaped_in, txn_of};

use crate::LineCause;
use crate::action::{Action, Commit, Reshape};
use crate::line::{object_of, told_of, tree_of};
use crate::reshape::stream_place;
use crate::statement::layouts_made;
use cs_ddl::{Statement, SyntaxFault, parse_ddl};
use cs_partitions::{Layout, LayoutFault, names_make_tokens};
use cs_schema::{Catalog, SchemaFault};
use cs_tree::Tree;
use cs_txn::{History, Txn, TxnFault, what_fits_lasts};
use cs_types::{Duplicate, Stamp, Text};
use json::Scratch;
use std::alloc::Global;
use std::marker::Model;

/// What the lines of a script have made: a catalog, a history, a layout for each stream in the
/// order of the streams, and the moment of the last line. It is changed by `line` alone.
#[derive(Drop)]
pub struct ServerState {
    catalog: Catalog,
    history: History,
    layouts: Vec<Layout>,
    last: Option<Stamp>,
    /// How many writes the commits of `last` have.
    writes: usize,
}

impl Model for ServerState {
    ghost use Rattle.std.specs.Prelude.{◌≡◌};
    ghost use Rattle.cs_script.specs.Database.{Database};
    ghost use Rattle.cs_script.specs.Kept.{IsKept, writes_by};

    ghost Value = { Database };

    ghost view = { λ s. record { tables = s.catalog.tables; streams = s.catalog.streams; modifications = s.history; layouts = s.layouts.items; last = s.last } };

    ghost invariant = { λ s. IsKept (record { tables = s.catalog.tables; streams = s.catalog.streams; modifications = s.history; layouts = s.layouts.items; last = s.last }) × (s.writes ≡ writes_by s.last s.history) };
}

impl ServerState {
    /// The state of no line. It takes no memory.
    pub fn new(alloc: Global) -> ServerState
        ensures { result ≡ no_database }
    {
        ServerState {
            catalog: Catalog::new(alloc),
            history: History::new(alloc),
            layouts: Vec::new(alloc),
            last: None,
            writes: 0,
        }
    }

    /// The tables and the streams.
    pub fn catalog(&self) -> &Catalog
        ensures tables { result.now.tables ≡ self.now.tables }
        ensures streams { result.now.streams ≡ self.now.streams }
        ensures kept { IsKept self.now }
    {
        &self.catalog
    }

    /// What was committed.
    pub fn history(&self) -> &History
        ensures value { result.now ≡ self.now.modifications }
        ensures kept { IsKept self.now }
    {
        &self.history
    }

    /// A layout for each stream, in the order of the streams.
    pub fn layouts(&self) -> &[Layout]
        ensures value { result.now ≡ self.now.layouts }
        ensures kept { IsKept self.now }
    {
        self.layouts.as_slice()
    }

    /// The moment of the last line that was taken; none before the first.
    pub fn last(&self) -> Option<Stamp>
        ensures { result ≡ self.now.last }
    {
        self.last
    }

    /// Takes one line of a script, without its end. An empty line and one that begins with `#` are
    /// passed over. A refused line, also one refused for want of memory, leaves the state as it was.
    pub fn line(&mut self, line: &[u8]) -> Result<(), LineCause>
        ensures taken { OnOk result (Takes self.old line.now (Ok self.new)) }
        ensures refused { IfErr result (λ e. not_memory e → Takes self.old line.now (Err e)) }
        ensures err { OnErr result (self.new ≡ self.old) }
    {
        let mut scratch = Scratch::new(*self.layouts.allocator());
        self.take_line(line, &mut scratch)
    }

    /// The like, in room that is kept from line to line.
    pub(crate) fn take_line<'a>(
        &mut self,
        line: &'a [u8],
        scratch: &'a mut Scratch,
    ) -> Result<(), LineCause>
        ensures taken { OnOk result (Takes self.old line.now (Ok self.new)) }
        ensures refused { IfErr result (λ e. not_memory e → Takes self.old line.now (Err e)) }
        ensures err { OnErr result (self.new ≡ self.old) }
    {
        let alloc = *self.layouts.allocator();
        match line {
            [] => return Ok(()),
            [b'#', ..] => return Ok(()),
            _ => {}
        }
        match tree_of(alloc, line, scratch)? {
            Some(tree) => self.take(alloc, &tree),
            None => Err(LineCause::NotJson),
        }
    }

    /// Takes the object that a line is.
    fn take(&mut self, alloc: Global, tree: &Tree<'_>) -> Result<(), LineCause>
        ensures taken { OnOk result (IsTakenTree self.old (view tree.now) (Ok self.new)) }
        ensures refused { IfErr result (λ e. not_memory e → IsTakenTree self.old (view tree.now) (Err e)) }
        ensures err { OnErr result (self.new ≡ self.old) }
    {
        let told = told_of(tree);
        let (at, action) = object_of(alloc, self, told, tree)?;
        self.act(alloc, at, action)
    }

    /// Does what a line says at a moment that may follow.
    fn act(&mut self, alloc: Global, at: Stamp, action: Action) -> Result<(), LineCause>
        requires order { is_back self.old.last at ≡ false }
        requires id { HasId action }
        ensures done { OnOk result (IsDone self.old at action (Ok self.new)) }
        ensures refused { IfErr result (λ e. not_memory e → IsDone self.old at action (Err e)) }
        ensures err { OnErr result (self.new ≡ self.old) }
    {
        match action {
            Action::Ddl(text) => self.state(alloc, at, &text),
            Action::Commit(commit) => self.commit(at, commit),
            Action::Reshape(reshape) => self.reshape(at, &reshape),
        }
    }

    /// Does what the text of a statement says.
    fn state(&mut self, alloc: Global, at: Stamp, text: &Text) -> Result<(), LineCause>
        requires { is_back self.old.last at ≡ false }
        ensures done { OnOk result (IsDone self.old at (Ddl text.now) (Ok self.new)) }
        ensures refused { IfErr result (λ e. not_memory e → IsDone self.old at (Ddl text.now) (Err e)) }
        ensures err { OnErr result (self.new ≡ self.old) }
    {
        names_make_tokens();
        match parse_ddl(alloc, text.as_str().as_bytes()) {
            Ok(statement) => self.apply(alloc, at, &statement),
            Err(SyntaxFault::Memory) => Err(LineCause::Memory),
            Err(SyntaxFault::At(place)) => Err(LineCause::Syntax(SyntaxFault::At(place))),
        }
    }

    /// How many writes the commits of a moment have, which is not below that of the last line.
    fn writes_at(&self, at: Stamp) -> usize
        requires { is_back self.now.last at ≡ false }
        ensures writes { result ≡ writes_at at self.now.modifications }
        ensures few { result ≤ 1024 }
    {
        match self.last {
            Some(last) => if last == at { self.writes } else { 0 },
            None => 0,
        }
    }

    /// Does what a statement says.
    fn apply(&mut self, alloc: Global, at: Stamp, statement: &Statement) -> Result<(), LineCause>
        requires order { is_back self.old.last at ≡ false }
        requires names { HasNames statement.now }
        ensures done { OnOk result (applied_unless self.old at statement.now (schema_fault (schema_of self.old) statement.now) ≡ Ok self.new) }
        ensures refused { IfErr result (λ e. not_memory e → applied_unless self.old at statement.now (schema_fault (schema_of self.old) statement.now) ≡ Err e) }
        ensures err { OnErr result (self.new ≡ self.old) }
    {
        what_fits_lasts();
        let writes = self.writes_at(at);
        let mut made = layouts_made(alloc, at, statement)?;
        self.layouts.reserve(made.len())?;
        apply_to(&mut self.catalog, at, statement)?;
        match self.layouts.append(&mut made) {
            Ok(()) => {}
            Err(_) => unreachable!(),
        }
        self.last = Some(at);
        self.writes = writes;
        Ok(())
    }

    /// Commits a transaction.
    fn commit(&mut self, at: Stamp, commit: Commit) -> Result<(), LineCause>
        requires order { is_back self.old.last at ≡ false }
        requires id { is_id commit.id ≡ true }
        ensures done { OnOk result (committed self.old (txn_of at commit) ≡ Ok self.new) }
        ensures refused { IfErr result (λ e. not_memory e → committed self.old (txn_of at commit) ≡ Err e) }
        ensures err { OnErr result (self.new ≡ self.old) }
    {
        let writes = self.writes_at(at);
        let Commit {
            id,
            tag,
            writes: list,
        } = commit;
        let count = list.as_slice().len();
        if count > MOST_WRITES - writes {
            return Err(LineCause::TooManyAtStamp);
        }
        let txn = Txn {
            stamp: at,
            tx: id,
            tag,
            writes: list,
        };
        commit_to(&mut self.history, &self.catalog, &txn)?;
        self.last = Some(at);
        self.writes = writes + count;
        Ok(())
    }

    /// Reshapes the layout of a stream.
    fn reshape(&mut self, at: Stamp, reshape: &Reshape) -> Result<(), LineCause>
        requires { is_back self.old.last at ≡ false }
        ensures done { OnOk result (reshaped_in self.old at reshape.now (stream_place reshape.now.stream self.old.streams) ≡ Ok self.new) }
        ensures refused { IfErr result (λ e. not_memory e → reshaped_in self.old at reshape.now (stream_place reshape.now.stream self.old.streams) ≡ Err e) }
        ensures err { OnErr result (self.new ≡ self.old) }
    {
        let writes = self.writes_at(at);
        let Some(place) = stream_place(&reshape.stream, self.catalog.streams()) else {
            return Err(LineCause::NoTable(reshape.stream.copy()?));
        };
        match self.layouts.get_mut(place) {
            Some(layout) => reshape_of(layout, at, reshape)?,
            None => return Err(LineCause::NoTable(reshape.stream.copy()?)),
        }
        self.last = Some(at);
        self.writes = writes;
        Ok(())
    }
}

/// The most writes of a stamp.
const MOST_WRITES: usize = 1024;

fn apply_to(catalog: &mut Catalog, at: Stamp, statement: &Statement) -> Result<(), LineCause>
    ensures done { OnOk result ((schema_fault catalog.old statement.now ≡ None) × (catalog.new ≡ applied catalog.old at statement.now)) }
    ensures refused { IfErr result (λ e. not_memory e → (f : SchemaFault) × (e ≡ Schema f) × (schema_fault catalog.old statement.now ≡ Some f)) }
    ensures err { OnErr result (catalog.new ≡ catalog.old) }
    ensures grows { OnOk result (Grows catalog.old.tables catalog.new.tables) }
{
    match catalog.apply(at, statement) {
        Ok(()) => Ok(()),
        Err(SchemaFault::Memory) => Err(LineCause::Memory),
        Err(fault) => Err(LineCause::Schema(fault)),
    }
}

fn commit_to(history: &mut History, catalog: &Catalog, txn: &Txn) -> Result<(), LineCause>
    ensures done { OnOk result ((txn_fault catalog.now.tables history.old txn.now ≡ None) × (history.new ≡ history.old ++ modifications_of catalog.now.tables history.old txn.now)) }
    ensures refused { IfErr result (λ e. not_memory e → (f : TxnFault) × (e ≡ TxnCause f) × (txn_fault catalog.now.tables history.old txn.now ≡ Some f)) }
    ensures err { OnErr result (history.new ≡ history.old) }
    ensures fits { IsHistoryOf catalog.now.tables history.old → OnOk result (IsHistoryOf catalog.now.tables history.new) }
{
    match history.commit(catalog, txn) {
        Ok(()) => Ok(()),
        Err(TxnFault::Memory) => Err(LineCause::Memory),
        Err(fault) => Err(LineCause::Txn(fault)),
    }
}

fn reshape_of(layout: &mut Layout, at: Stamp, reshape: &Reshape) -> Result<(), LineCause>
    ensures done { OnOk result ((layout_fault layout.old.parts at reshape.now.parts reshape.now.borders ≡ None) × (layout.new ≡ reshaped layout.old at reshape.now.parts reshape.now.borders)) }
    ensures refused { IfErr result (λ e. not_memory e → (f : LayoutFault) × (e ≡ LayoutCause f) × (layout_fault layout.old.parts at reshape.now.parts reshape.now.borders ≡ Some f)) }
    ensures err { OnErr result (layout.new ≡ layout.old) }
{
    match layout.reshape(at, reshape.parts.as_slice(), reshape.borders.as_slice()) {
        Ok(()) => Ok(()),
        Err(LayoutFault::Memory) => Err(LineCause::Memory),
        Err(fault) => Err(LineCause::Layout(fault)),
    }
}
