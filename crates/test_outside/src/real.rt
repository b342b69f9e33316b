// A host of this machine whose drop is written out, so that whoever drops one proves one call.
ghost use Rattle.std.specs.Prelude.{◌≡◌, vec_len, IfOk};

use outside_real::{FileHost, Need};
use std::alloc::AllocError;

/// A host of this machine.
pub(crate) struct RealHost {
    pub(crate) host: FileHost<HostRuntime>,
}

impl Drop for RealHost {
    fn drop(self) {
        let RealHost { host: _ } = self;
    }
}

/// A host without links over the files in this folder.
pub(crate) fn real_host(rt: HostRuntime, folder: &str) -> Result<RealHost, AllocError>
    ensures { IfOk result (λ h. vec_len h.host.links ≡ 0) }
{
    let host = FileHost::new(rt, folder)?;
    Ok(RealHost { host })
}

/// A host without links that reads the files in this folder, and may not write them.
pub(crate) fn reading_host(rt: HostRuntime, folder: &str) -> Result<RealHost, AllocError>
    ensures { IfOk result (λ h. vec_len h.host.links ≡ 0) }
{
    let host = FileHost::with(rt, folder, Need::Read)?;
    Ok(RealHost { host })
}

/// A host without links that has the files in this folder alone.
pub(crate) fn writing_host(rt: HostRuntime, folder: &str) -> Result<RealHost, AllocError>
    ensures { IfOk result (λ h. vec_len h.host.links ≡ 0) }
{
    let host = FileHost::with(rt, folder, Need::Make)?;
    Ok(RealHost { host })
}
