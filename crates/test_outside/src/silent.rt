// An object that tells nothing but its counts: as a real disk and real sockets are seen.
ghost use Rattle.std.specs.Prelude.{◌<◌, ◌≤◌};
ghost use Rattle.outside.specs.declared.limits.TheConstants.{LINKS};

use crate::checks::{holds, same};
use outside::{Disk, Failed, Heard, Host, LINKS, raise_at};

#[derive(Drop)]
pub struct Counts {
    disk_faults: u64,
    dialled: u8,
    faults: [u64; LINKS],
    ghost few: { dialled ≤ LINKS },
}

impl Counts {
    fn fail(&mut self) {
        self.disk_faults = self.disk_faults.saturating_add(1);
    }
}

impl Disk for Counts {
    ghost use Rattle.outside.specs.Silent.{silent};

    ghost tells = { λ c. silent c.disk_faults c.dialled c.faults };

    fn len(&mut self, _file: u8) -> Result<u64, Failed> {
        Ok(0)
    }

    fn read_at(&mut self, _file: u8, _at: u64, _buf: &mut [u8]) -> Result<usize, Failed> {
        Ok(0)
    }

    fn write_at(&mut self, _file: u8, _at: u64, _bytes: &[u8]) -> Result<(), Failed> {
        self.disk_faults = self.disk_faults.saturating_add(1);
        Err(Failed)
    }

    fn cut(&mut self, _file: u8, _len: u64) -> Result<(), Failed> {
        Ok(())
    }

    fn sync(&mut self, _file: u8) -> Result<(), Failed> {
        self.disk_faults = self.disk_faults.saturating_add(1);
        Err(Failed)
    }
}

impl Host for Counts {
    fn dial(&mut self, spec: &str) -> Result<u8, Failed> {
        let link = self.dialled;
        if spec.is_empty() {
            raise_at(&mut self.faults, link as usize);
            return Err(Failed);
        }
        self.dialled = link + 1;
        Ok(link)
    }

    fn nonce(&mut self, link: u8) -> Result<[u8; 16], Failed> {
        raise_at(&mut self.faults, link as usize);
        Err(Failed)
    }

    fn recv(&mut self, link: u8, buf: &mut [u8]) -> Heard {
        if link == 0 {
            raise_at(&mut self.faults, 0);
            return Heard::Failed;
        }
        buf[0] = 7;
        Heard::Got(1)
    }

    fn send(&mut self, link: u8, bytes: &[u8]) -> Result<(), Failed> {
        if bytes.is_empty() {
            return Ok(());
        }
        raise_at(&mut self.faults, link as usize);
        Err(Failed)
    }

    fn hang_up(&mut self, _link: u8) {}

    fn now(&mut self) -> u64 {
        12
    }
}

// A caller that knows its host by the traits alone.
fn use_host<H: Host>(host: &mut H) -> Result<u8, Failed>
    requires { (H.tells host.old).links.dialled < LINKS }
{
    let link = host.dial("std")?;
    let mut buf = [0u8; 4];
    let _ = host.recv(link, &mut buf);
    host.send(link, &buf)?;
    host.hang_up(link);
    host.sync(0)?;
    Ok(link)
}

#[test]
fn silent_objects(rt: HostRuntime) {
    let mut counts = Counts {
        disk_faults: 0,
        dialled: 0,
        faults: [0; LINKS],
    };
    same(&rt, &use_host(&mut counts), &Err(Failed));
    holds(
        &rt,
        "counts",
        counts.disk_faults == 0 && counts.dialled == 1,
    );
}
