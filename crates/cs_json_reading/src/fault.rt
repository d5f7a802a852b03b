ghost use Rattle.cs_json_reading.specs.Reading.{IsBad, IsMissed};

use cs_records::LineFault;
use cs_types::Text;
use std::alloc::Global;

/// The fault of a member whose value is none that it can have.
pub(crate) fn bad(alloc: Global, name: &str) -> LineFault
    ensures { IsBad name.now result }
{
    match Text::of(alloc, name) {
        Ok(name) => LineFault::BadValue(name),
        Err(_) => LineFault::Memory,
    }
}

/// The fault of a required member that is absent.
pub(crate) fn missed(alloc: Global, name: &str) -> LineFault
    ensures { IsMissed name.now result }
{
    match Text::of(alloc, name) {
        Ok(name) => LineFault::Member(name),
        Err(_) => LineFault::Memory,
    }
}
