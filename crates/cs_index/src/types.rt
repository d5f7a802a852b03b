use cs_steps::RecordPlace;
use cs_types::Items;

/// The index of a part of a stream.
#[derive(Debug, Drop)]
pub struct PartIndex {
    /// The places of the part's changes among the sources of the stream, from the first on.
    pub changes: Items<u32>,
    /// The part's data records, from the first on.
    pub records: Items<RecordPlace>,
}

/// The index of a change stream: places and numbers alone, no cells. It takes 8 bytes for each
/// change that the stream captures and 48 for each data record.
#[derive(Debug, Drop)]
pub struct StreamIndex {
    /// The places in the history of the modifications that the stream captures, from its creation
    /// on.
    pub sources: Items<u32>,
    /// The index of each part, in the order of the parts of the stream's layout.
    pub parts: Items<PartIndex>,
}
