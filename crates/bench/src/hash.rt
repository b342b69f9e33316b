//! The BLAKE2b-256 digest of the standard input, in lower-case hexadecimal digits.
ghost use Rattle.std.specs.Prelude.{◌≡◌, ◌+◌, ◌*◌, ◌≤◌, length, IfOk};

use anyhow::{Result, bail};
use bramble_hash::Blake2b;
use std::io::Read;

// One read takes at most so many bytes.
const PIECE_LEN: usize = 65_536;

// So many reads cannot give more bytes than a digest may have, 2^64 - 129.
const MOST_READS: u64 = 0x1_0000_0000_0000 - 1;

// Hands everything that the reader gives to the hasher.
fn absorb(reader: &mut impl Read, piece: &mut [u8], hasher: &mut Blake2b<32>) -> Result<()>
    requires piece { length piece.old ≤ 65536 }
    requires fresh { hasher.old.count ≡ 0 }
{
    'reads: for _ in 0..MOST_READS {
        let len = reader.read(piece)?;
        if len == 0 {
            return Ok(());
        }
        hasher.update(&piece[..len]);
    }
    bail!("the input is too long")
}

/// Prints the digest of the standard input.
pub(crate) fn measure(rt: &HostRuntime) -> Result<()> {
    let mut piece = vec![in rt.alloc(); 0u8; PIECE_LEN]?;
    let mut hasher = Blake2b::<32>::new();
    absorb(&mut rt.reader(), &mut piece, &mut hasher)?;
    let text = hex::encode(rt.alloc(), hasher.finalize())?;
    println!(rt; "{text}")?;
    Ok(())
}
