//! The sources of a run's captures: fetched before it, and closed after it.
ghost use Rattle.std.specs.Prelude.{◌≡◌, [], ◌∷◌, length, map, option_map, All, IfOk, IfSome};
ghost use Rattle.std.specs.Prelude.{IsTrue, OnErr};
ghost use Rattle.tap_outside.specs.Seen.{NoReadFailed, OnlyReads};
ghost use Rattle.tap_running.specs.Counts.{IsCounted};
ghost use Rattle.tap_engine.specs.Given.{given_entries};
ghost use Rattle.tap_engine.specs.inside.Sources.{AreFetched, Fetches, entries_of, faulty_in};
ghost use Rattle.tap_engine.specs.inside.Sources.{missing_in, with_closed};

use frame_view::Memory;
use setup_text::{CpuSetup, CpuSetupList};
use std::alloc::Global;
use tap_outside::{OutError, Store};

/// Fetches the capture of each CPU, once. One that can't be fetched is missing, and the store
/// records an empty entry for it.
pub(crate) fn fetch_captures<S: Store>(
    alloc: Global,
    store: &mut S,
    cpus: &CpuSetupList,
) -> Result<Vec<Option<S::Input>>, Memory>
    requires { All (λ cpu. IsTrue ((S.seen store.old).to_read cpu.file)) cpus.now }
    ensures fetched { IfOk result (λ sources. AreFetched (S.seen store.old).held cpus.now
        (map (option_map S.Input.seen) sources.items)) }
    ensures faults { IfOk result (λ sources. IsCounted (S.seen store.old) (S.seen store.new)
        (missing_in (map (option_map S.Input.seen) sources.items))) }
    ensures given { IfOk result (λ sources.
        Fetches (S.seen store.old).sources (S.seen store.new).sources cpus.now
        (map (option_map S.Input.seen) sources.items)) }
    ensures store { OnlyReads (S.seen store.old) (S.seen store.new) }
{
    let mut sources = Vec::with_capacity(alloc, cpus.len())?;
    for cpu in cpus.as_slice() {
        let source = fetch_capture(store, cpu)?;
        sources.push(source)?;
    }
    Ok(sources)
}

/// Fetches the capture of a CPU; none if it can't be fetched. If memory runs out the store is as
/// before: a counted fault isn't reported as running out of memory.
#[tactic(auto, using(crate::proofs::Given::fetched_one, crate::proofs::Given::fetched_none))]
pub(crate) fn fetch_capture<S: Store>(
    store: &mut S,
    cpu: &CpuSetup,
) -> Result<Option<S::Input>, Memory>
    requires { IsTrue ((S.seen store.old).to_read cpu.now.file) }
    ensures fetched { IfOk result (λ source. AreFetched (S.seen store.old).held
        (cpu.now ∷ []) (option_map S.Input.seen source ∷ [])) }
    ensures faults { IfOk result (λ source. IsCounted (S.seen store.old) (S.seen store.new)
        (missing_in (option_map S.Input.seen source ∷ []))) }
    ensures given { IfOk result (λ source.
        Fetches (S.seen store.old).sources (S.seen store.new).sources (cpu.now ∷ [])
        (option_map S.Input.seen source ∷ [])) }
    ensures store { OnlyReads (S.seen store.old) (S.seen store.new) }
    ensures faultless { IfOk result (λ source.
        IfSome source (λ _. NoReadFailed (S.seen store.old) (S.seen store.new))) }
    ensures memory { OnErr result (S.seen store.new ≡ S.seen store.old) }
{
    match store.fetch(cpu.file.bytes()) {
        Ok(source) => Ok(Some(source)),
        Err(OutError::Failed) => Ok(None),
        Err(OutError::Memory) => Err(Memory),
    }
}

/// Gives the sources back to the store, which counts their faults and records what they gave.
#[tactic(auto, using(crate::proofs::Given::closes_all))]
pub(crate) fn close_captures<S: Store>(store: &mut S, sources: Vec<Option<S::Input>>)
    ensures faults { IsCounted (S.seen store.old) (S.seen store.new)
        (faulty_in (map (option_map S.Input.seen) sources.items)) }
    ensures given { (S.seen store.new).sources ≡ with_closed (S.seen store.old).sources
        (given_entries (entries_of (map (option_map S.Input.seen) sources.items))) }
    ensures store { OnlyReads (S.seen store.old) (S.seen store.new) }
{
    for source in sources {
        close_capture(store, source);
    }
}

/// Gives a source back to the store, if there is one.
#[tactic(auto, using(crate::proofs::Given::closes_nothing))]
pub(crate) fn close_capture<S: Store>(store: &mut S, source: Option<S::Input>)
    ensures faults { IsCounted (S.seen store.old) (S.seen store.new)
        (faulty_in (option_map S.Input.seen source ∷ [])) }
    ensures given { (S.seen store.new).sources ≡ with_closed (S.seen store.old).sources
        (given_entries (entries_of (option_map S.Input.seen source ∷ []))) }
    ensures store { OnlyReads (S.seen store.old) (S.seen store.new) }
    ensures faultless { IfSome source (λ source. (S.Input.seen source).faults ≡ 0)
        → NoReadFailed (S.seen store.old) (S.seen store.new) }
{
    if let Some(source) = source {
        store.close(source);
    }
}
