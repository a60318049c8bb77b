//! A file of a store, opened and closed.
ghost use Rattle.std.specs.Prelude.{◌≡◌, option_map, IfOk, IsTrue, OnErr};
ghost use Rattle.tap_outside.specs.Seen.{OnlyReads};
ghost use Rattle.tap_running.specs.Files.{IsClosed, IsFetched};

use frame_view::Memory;
use tap_outside::{OutError, Store};

/// A source of what a name holds; none if it can't be fetched. If memory runs out the store is as
/// before: a counted fault isn't reported as running out of memory.
pub fn fetch_file<S: Store>(store: &mut S, name: &[u8]) -> Result<Option<S::Input>, Memory>
    requires { IsTrue ((S.seen store.old).to_read name.now) }
    ensures fetched { IfOk result (λ source. IsFetched (S.seen store.old) (S.seen store.new)
        name.now (option_map S.Input.seen source)) }
    ensures memory { OnErr result (S.seen store.new ≡ S.seen store.old) }
    ensures store { OnlyReads (S.seen store.old) (S.seen store.new) }
{
    match store.fetch(name) {
        Ok(source) => Ok(Some(source)),
        Err(OutError::Failed) => Ok(None),
        Err(OutError::Memory) => Err(Memory),
    }
}

/// Gives a source back to the store, if there is one.
pub fn close_file<S: Store>(store: &mut S, source: Option<S::Input>)
    ensures closed { IsClosed (S.seen store.old) (S.seen store.new)
        (option_map S.Input.seen source) }
    ensures store { OnlyReads (S.seen store.old) (S.seen store.new) }
{
    if let Some(source) = source {
        store.close(source);
    }
}
