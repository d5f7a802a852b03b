use cs_types::CaptureType;

/// What an option of a change stream sets.
#[derive(Clone, Copy, Debug, PartialEq, Eq)]
pub enum Setting {
    /// Its name is unknown, or it does not take the value.
    Wrong,
    /// NULL: nothing is set, and the default stands.
    Unset,
    /// What changes give of a row.
    Capture(CaptureType),
    /// How long changes are kept, in microseconds.
    Retention(u64),
    /// A retention out of its range.
    NoRetention,
    /// One of the options that leave changes out, which are not built.
    Exclusion,
}
