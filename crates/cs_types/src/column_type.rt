/// The type of a column. A text's and a byte string's length is no part of it.
#[derive(Clone, Copy, Debug, PartialEq, Eq)]
pub enum ColumnType {
    /// BOOL.
    Bool,
    /// INT64.
    Int64,
    /// NUMERIC.
    Numeric,
    /// STRING.
    Text,
    /// BYTES.
    Bytes,
    /// DATE.
    Date,
    /// TIMESTAMP.
    Timestamp,
}
