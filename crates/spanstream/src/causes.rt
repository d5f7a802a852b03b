//! Why a line of a script is bad, in words, and the right form where one helps.

use cs_script::LineCause;
use cs_txn::TxnFault;
use cs_types::{StampFault, ValueFault};

/// Says on standard error why a line is bad.
pub fn say(rt: &HostRuntime, cause: &LineCause) {
    let said = match cause {
        LineCause::Member(name) => eprintln!(rt;
            "spanstream: the member \"{}\" is absent, unknown or of a wrong kind",
            name.as_str()
        ),
        LineCause::Syntax(fault) => eprintln!(rt; "spanstream: {fault}"),
        LineCause::Schema(fault) => eprintln!(rt; "spanstream: {fault}"),
        LineCause::Layout(fault) => eprintln!(rt; "spanstream: {fault}"),
        LineCause::NoTable(name) => eprintln!(rt;
            "spanstream: there is no table, or for a reshape no stream, of the name {}",
            name.as_str()
        ),
        LineCause::NoColumn(name) => eprintln!(rt;
            "spanstream: the column {} is none of the table's, or a key has not just the table's key columns",
            name.as_str()
        ),
        _ => eprintln!(rt; "spanstream: {}", sentence(cause)),
    };
    let _ = said;
    if let Some(form) = right_form(cause) {
        let _ = eprintln!(rt; "spanstream: a right form: {form}");
    }
}

/// A cause without a name of its own in a sentence.
fn sentence(cause: &LineCause) -> &'static str {
    match cause {
        LineCause::NotJson => "the line is no JSON object in UTF-8",
        LineCause::Stamp(fault) => of_stamp(fault),
        LineCause::Order => {
            "the stamp is below that of the line before, or a statement or reshape is not above all commits before it"
        }
        LineCause::Value(fault) => of_value(fault),
        LineCause::TooManyAtStamp => "the commits of this stamp have more than 1,024 writes",
        LineCause::Txn(fault) => of_txn(fault),
        LineCause::NotBuilt => "the members system and excluded are not built",
        _ => "there was not enough memory",
    }
}

fn of_stamp(fault: &StampFault) -> &'static str {
    match fault {
        StampFault::Shape(_) => "the text of at has not the shape of a stamp",
        StampFault::Range => "the text of at is no date and time of the calendar",
        StampFault::TooFine => "the text of at has a fraction finer than a microsecond",
    }
}

fn of_value(fault: &ValueFault) -> &'static str {
    match fault {
        ValueFault::WrongKind => "a cell has a kind of JSON that its column does not take",
        ValueFault::Range => "a cell's value is out of the range of its column's type",
        ValueFault::BadText => "a cell's text is none of its column's type",
        ValueFault::Memory => "there was not enough memory",
    }
}

fn of_txn(fault: &TxnFault) -> &'static str {
    match fault {
        TxnFault::IdUsed => "an earlier commit has this id",
        TxnFault::StampBack => "the stamp is below that of an earlier commit",
        TxnFault::RowTwice(_) => "two writes of the commit name one row",
        TxnFault::RowThere(_) => "an insert of a row that is there",
        TxnFault::NoRow(_) => "an update or delete of a row that is not there",
        TxnFault::BadValue(_) => {
            "a cell does not fit its column's type or length, or is NULL where it may not be"
        }
        TxnFault::KeyColumnSet(_) => "set names a column of the key",
        TxnFault::SharedStampRow(_) => "an earlier commit of the same stamp wrote one of the rows",
        TxnFault::NoTable(_) => "a write names no table",
        TxnFault::NoColumn(_) => "a write names no column of its table",
        TxnFault::RowTooLarge(_) => "a row would have more than 65,536 bytes",
        TxnFault::HistoryFull => "the history would have more than 134,217,728 bytes",
        TxnFault::Memory => "there was not enough memory",
    }
}

fn right_form(cause: &LineCause) -> Option<&'static str> {
    match cause {
        LineCause::NotJson | LineCause::Member(_) => Some(
            "{\"at\":\"2024-05-01T00:00:01Z\",\"commit\":{\"id\":\"t1\",\"writes\":[{\"insert\":\"T\",\"key\":{\"K\":\"1\"},\"set\":{\"A\":\"5\"}}]}}",
        ),
        LineCause::Stamp(_) => Some("2024-05-01T00:00:01.500000Z"),
        LineCause::Syntax(_) => Some(
            "CREATE CHANGE STREAM S FOR T(A, B) OPTIONS (retention_period = '36h')",
        ),
        LineCause::Layout(_) => Some(
            "{\"at\":\"2024-05-01T00:00:05Z\",\"reshape\":{\"borders\":[{\"key\":{\"K\":\"100\"},\"table\":\"T\"}],\"parts\":[\"S-00000\"],\"stream\":\"S\"}}",
        ),
        _ => None,
    }
}
