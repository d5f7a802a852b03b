//! A script that is loaded from a file.

use crate::trouble::Trouble;
use cs_device::FileSource;
use cs_script::{ScriptFault, ServerState, load};
use std::fs::File;

/// Says how many modifications a script makes.
pub fn loaded(rt: &HostRuntime, path: &str) -> Result<String, Trouble> {
    let state = state_of(rt, path)?;
    let count = state.history().modifications().len();
    Ok(format!(in rt.alloc(); "load: {count} modifications")?)
}

/// The database of a script.
pub fn state_of(rt: &HostRuntime, path: &str) -> Result<ServerState, Trouble> {
    let Ok(file) = File::open(rt, path) else {
        return Err(Trouble::File);
    };
    let mut source = FileSource::new(file);
    match load(rt.alloc(), &mut source) {
        Ok(state) => Ok(state),
        Err(ScriptFault::SourceFault) => Err(Trouble::File),
        Err(ScriptFault::Memory) => Err(Trouble::Memory),
        Err(_) => Err(Trouble::Script),
    }
}
