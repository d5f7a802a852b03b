use crate::{Duplicate, Memory, Stamp, Text};

/// What the changes of a stream give of their rows, its option `value_capture_type`.
#[derive(Clone, Copy, Debug, PartialEq, Eq)]
pub enum CaptureType {
    /// OLD_AND_NEW_VALUES.
    OldAndNewValues,
    /// NEW_VALUES.
    NewValues,
    /// NEW_ROW.
    NewRow,
    /// NEW_ROW_AND_OLD_VALUES.
    NewRowAndOldValues,
}

impl Duplicate for CaptureType {
    fn copy(&self) -> Result<CaptureType, Memory> {
        Ok(*self)
    }
}

/// A stream, and the moments from a start to an end, both among them.
#[derive(Debug, Drop)]
pub struct Window {
    /// The stream's name.
    pub stream: Text,
    /// The first moment.
    pub start: Stamp,
    /// The last moment.
    pub end: Stamp,
}

impl Duplicate for Window {
    fn copy(&self) -> Result<Window, Memory> {
        Ok(Window {
            stream: self.stream.copy()?,
            start: self.start,
            end: self.end,
        })
    }
}
