// The names of what is wrong with a line of a script, and of a refused READ, as the console has them.
ghost use Rattle.std.specs.Prelude.{◌≡◌, ◌++◌, IfOk, string_bytes};
ghost use Rattle.cs_tool.specs.Causes.{stamp_fault_name, syntax_fault_name, schema_fault_name, value_fault_name, txn_fault_name, layout_fault_name, refusal_name, cause_name};

use cs_ddl::SyntaxFault;
use cs_link::ReadRefusal;
use cs_partitions::LayoutFault;
use cs_schema::SchemaFault;
use cs_script::LineCause;
use cs_txn::TxnFault;
use cs_types::{Memory, StampFault, ValueFault};
use std::alloc::Global;

fn stamp_fault_name(fault: &StampFault) -> &'static str
    ensures { result.now ≡ stamp_fault_name fault.now }
{
    match fault {
        StampFault::Shape(_) => "Shape",
        StampFault::Range => "Range",
        StampFault::TooFine => "TooFine",
    }
}

fn syntax_fault_name(fault: &SyntaxFault) -> &'static str
    ensures { result.now ≡ syntax_fault_name fault.now }
{
    match fault {
        SyntaxFault::At(_) => "At",
        SyntaxFault::Memory => "Memory",
    }
}

fn schema_fault_name(fault: &SchemaFault) -> &'static str
    ensures { result.now ≡ schema_fault_name fault.now }
{
    match fault {
        SchemaFault::TableThere => "TableThere",
        SchemaFault::NoTable(_) => "NoTable",
        SchemaFault::NoColumn(_) => "NoColumn",
        SchemaFault::KeyListed(_) => "KeyListed",
        SchemaFault::ColumnTwice(_) => "ColumnTwice",
        SchemaFault::StreamThere => "StreamThere",
        SchemaFault::NoStream => "NoStream",
        SchemaFault::TooManyStreams(_) => "TooManyStreams",
        SchemaFault::ColumnWatched(_, _) => "ColumnWatched",
        SchemaFault::BadOption(_) => "BadOption",
        SchemaFault::BadRetention => "BadRetention",
        SchemaFault::NotBuilt => "NotBuilt",
        SchemaFault::ItemTwice(_) => "ItemTwice",
        SchemaFault::TooManyColumns(_) => "TooManyColumns",
        SchemaFault::BadLength => "BadLength",
        SchemaFault::Memory => "Memory",
    }
}

fn value_fault_name(fault: &ValueFault) -> &'static str
    ensures { result.now ≡ value_fault_name fault.now }
{
    match fault {
        ValueFault::WrongKind => "WrongKind",
        ValueFault::Range => "Range",
        ValueFault::BadText => "BadText",
        ValueFault::Memory => "Memory",
    }
}

fn txn_fault_name(fault: &TxnFault) -> &'static str
    ensures { result.now ≡ txn_fault_name fault.now }
{
    match fault {
        TxnFault::IdUsed => "IdUsed",
        TxnFault::StampBack => "StampBack",
        TxnFault::RowTwice(_) => "RowTwice",
        TxnFault::RowThere(_) => "RowThere",
        TxnFault::NoRow(_) => "NoRow",
        TxnFault::BadValue(_) => "BadValue",
        TxnFault::KeyColumnSet(_) => "KeyColumnSet",
        TxnFault::SharedStampRow(_) => "SharedStampRow",
        TxnFault::NoTable(_) => "NoTable",
        TxnFault::NoColumn(_) => "NoColumn",
        TxnFault::RowTooLarge(_) => "RowTooLarge",
        TxnFault::HistoryFull => "HistoryFull",
        TxnFault::Memory => "Memory",
    }
}

fn layout_fault_name(fault: &LayoutFault) -> &'static str
    ensures { result.now ≡ layout_fault_name fault.now }
{
    match fault {
        LayoutFault::NoPart(_) => "NoPart",
        LayoutFault::NotLive(_) => "NotLive",
        LayoutFault::NotNeighbours => "NotNeighbours",
        LayoutFault::BorderOutside => "BorderOutside",
        LayoutFault::BordersNotRising => "BordersNotRising",
        LayoutFault::StampNotAfter => "StampNotAfter",
        LayoutFault::TooManyParts(_) => "TooManyParts",
        LayoutFault::TooWide(_) => "TooWide",
        LayoutFault::Memory => "Memory",
    }
}

pub(crate) fn refusal_name(fault: &ReadRefusal) -> &'static str
    ensures { result.now ≡ refusal_name fault.now }
{
    match fault {
        ReadRefusal::UnknownFunction => "UnknownFunction",
        ReadRefusal::ArgumentType(_) => "ArgumentType",
        ReadRefusal::ArgumentMissing(_) => "ArgumentMissing",
        ReadRefusal::ReadOptions => "ReadOptions",
        ReadRefusal::Heartbeat => "Heartbeat",
        ReadRefusal::EndBeforeStart => "EndBeforeStart",
        ReadRefusal::StartBeforeCreation => "StartBeforeCreation",
        ReadRefusal::StartTooOld(_) => "StartTooOld",
        ReadRefusal::StartInFuture(_) => "StartInFuture",
        ReadRefusal::UnknownToken => "UnknownToken",
        ReadRefusal::StartBeforePartition(_) => "StartBeforePartition",
        ReadRefusal::StartPastPartition(_) => "StartPastPartition",
        ReadRefusal::Syntax(_) => "Syntax",
        ReadRefusal::Wire(_) => "Wire",
    }
}

/// The name of a cause, and behind it that of the fault within, where there is one.
pub(crate) fn cause_name(alloc: Global, cause: &LineCause) -> Result<String, Memory>
    ensures { IfOk result (λ s. string_bytes s ≡ cause_name cause.now) }
{
    match cause {
        LineCause::NotJson => named(alloc, "NotJson", ""),
        LineCause::Member(_) => named(alloc, "Member", ""),
        LineCause::Stamp(fault) => named(alloc, "Stamp ", stamp_fault_name(fault)),
        LineCause::Order => named(alloc, "Order", ""),
        LineCause::Syntax(fault) => named(alloc, "Syntax ", syntax_fault_name(fault)),
        LineCause::Schema(fault) => named(alloc, "Schema ", schema_fault_name(fault)),
        LineCause::NoTable(_) => named(alloc, "NoTable", ""),
        LineCause::NoColumn(_) => named(alloc, "NoColumn", ""),
        LineCause::Value(fault) => named(alloc, "Value ", value_fault_name(fault)),
        LineCause::TooManyAtStamp => named(alloc, "TooManyAtStamp", ""),
        LineCause::Txn(fault) => named(alloc, "Txn ", txn_fault_name(fault)),
        LineCause::Layout(fault) => named(alloc, "Layout ", layout_fault_name(fault)),
        LineCause::NotBuilt => named(alloc, "NotBuilt", ""),
        LineCause::Memory => named(alloc, "Memory", ""),
    }
}

fn named(alloc: Global, name: &str, inner: &str) -> Result<String, Memory>
    ensures { IfOk result (λ s. string_bytes s ≡ name.now ++ inner.now) }
{
    let mut text = String::from_str(alloc, name)?;
    text.push_str(inner)?;
    Ok(text)
}
