use cs_text::Telling;

/// What a journal holds.
#[derive(Debug, Drop)]
pub(crate) enum Found {
    /// No entry.
    Nothing,
    /// Entries that fold.
    Whole(Telling),
    /// Behind the gate at this place stands no entry, or one that does not follow those before it.
    Bad(u64),
}
