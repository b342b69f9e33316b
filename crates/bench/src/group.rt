//! The group of all messages.
use crate::stop::Stop;
use std::alloc::Global;
use sync_ids::GroupDef;

/// A group of notes.
pub(crate) fn make_group(alloc: Global) -> Result<GroupDef, Stop> {
    let name = String::from_str(alloc, "note")?;
    GroupDef::new(name, 0, Vec::new(alloc)).map_err(|_| Stop::NoValue)
}
