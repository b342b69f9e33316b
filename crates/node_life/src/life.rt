//! The command `serve std`.
ghost use Rattle.std.specs.Prelude.{◌≡◌, IfErr, IfOk};
ghost use Rattle.outside.specs.Streams.{Stream};
ghost use Rattle.store_commands.specs.Serving.{IsServed};
ghost use Rattle.sync_words.specs.Outcomes.{came_to};
ghost use Rattle.sync_words.specs.declared.outcome.Outcome.TheVariants as outcome;
ghost use Rattle.node_life.specs.Serving.{HasServed};
ghost use Rattle.node_life.specs.Settling.{HasBegun};

use crate::holder::Holder;
use node_service::serve;
use outside::{Host, Sink, Source};
use std::alloc::Global;
use std::hash::RandomState;
use store_commands::{load_store, migrate_and_settle};
use sync_rules::Clients;
use sync_store::Store;
use sync_words::Outcome;

/// Loads the store, migrates its journal and settles it, says that it is ready, and answers the
/// requests of the input over it until that ends, something in it is no request, or the node ends
/// behind one.
///
/// # Errors
/// `NoStore`, `Damaged`, `DiskFault`, `Full` and `Memory` before the input is looked at: then nothing
/// is written to the output. Behind that `NoRequest`, `ReadFault`, `WriteFault`, and `DiskFault`, with
/// which the request that met it is answered.
pub fn serve_requests<H: Host, S: Source, W: Sink, C: Clients>(
    alloc: Global,
    hasher: RandomState,
    host: &mut H,
    input: &mut S,
    out: &mut W,
    clients: &C,
) -> Outcome
    ensures { HasServed H.tells (C.meaning clients.now) host.old host.new (S.tells input.old)
        (S.tells input.new) (W.tells out.old) (W.tells out.new) result }
{
    match begin(alloc, hasher, host, clients) {
        Ok(store) => {
            let mut holder = Holder {
                alloc,
                hasher,
                store,
                clients,
            };
            serve(alloc, &mut holder, host, input, out)
        }
        Err(came) => came,
    }
}

/// Loads the store, and migrates and settles its journal: it is ready for requests. On `Err` the
/// outcome is one of `NoStore`, `Damaged`, `DiskFault`, `Full` and `Memory`.
pub fn begin<H: Host, C: Clients>(
    alloc: Global,
    hasher: RandomState,
    host: &mut H,
    clients: &C,
) -> Result<Store, Outcome>
    ensures begun { (out : Stream) → HasBegun (C.meaning clients.now) (H.tells host.old)
        (H.tells host.new) out (came_to result) }
    ensures served { IfOk result (λ s. IsServed (C.meaning clients.now) s (H.tells host.new)) }
    ensures undone { IfErr result (λ came. came ≡ outcome.Done → ⊥) }
{
    let mut store = load_store(alloc, hasher, host, clients)?;
    migrate_and_settle(&mut store, host, clients)?;
    Ok(store)
}
