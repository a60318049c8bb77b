//! Texts of a store, read and parsed.
ghost use Rattle.std.specs.Prelude.{◌≡◌, None, Ok, IfErr, IfOk, IsTrue};
ghost use Rattle.setup_text.specs.Filters.{filter_of};
ghost use Rattle.setup_text.specs.Moments.{moments_of};
ghost use Rattle.setup_text.specs.Setups.{request_fault};
ghost use Rattle.setup_text.specs.Sound.{AreMoments, IsScheduleFor, IsSetup};
ghost use Rattle.tap_outside.specs.Seen.{OnlyReads};
ghost use Rattle.tap_reading.specs.Readers.{ReadsAs, StopsAtSetup, StopsAtText, schedule_for};
ghost use Rattle.tap_reading.specs.Readers.{setup_for};

use crate::stops::LoadError;
use crate::texts::read_text;
use bpf_filter::Program;
use frame_view::MomentList;
use setup_text::{Command, Schedule, Setup, read_filter, read_schedule, read_setup, read_ticks};
use std::alloc::Global;
use tap_outside::Store;

/// Reads the setup of a name, for a command.
pub fn load_setup<S: Store>(
    alloc: Global,
    store: &mut S,
    name: &[u8],
    command: Command,
) -> Result<Setup, LoadError>
    requires { IsTrue ((S.seen store.old).to_read name.now) }
    ensures setup { IfOk result (λ setup.
        ReadsAs (setup_for command) (S.seen store.old) (S.seen store.new) name.now (Ok setup)) }
    ensures sound { IfOk result IsSetup }
    ensures ring { IfOk result (λ setup. request_fault command setup.request ≡ None) }
    ensures stop { IfErr result
        (StopsAtSetup command (S.seen store.old) (S.seen store.new) name.now) }
    ensures store { OnlyReads (S.seen store.old) (S.seen store.new) }
{
    let text = read_text(alloc, store, name)?;
    Ok(read_setup(alloc, text.as_slice(), command)?)
}

/// Reads the filter of a name.
pub fn load_filter<S: Store>(
    alloc: Global,
    store: &mut S,
    name: &[u8],
) -> Result<Program, LoadError>
    requires { IsTrue ((S.seen store.old).to_read name.now) }
    ensures program { IfOk result (λ program.
        ReadsAs filter_of (S.seen store.old) (S.seen store.new) name.now (Ok program)) }
    ensures stop { IfErr result
        (StopsAtText filter_of (S.seen store.old) (S.seen store.new) name.now) }
    ensures store { OnlyReads (S.seen store.old) (S.seen store.new) }
{
    let text = read_text(alloc, store, name)?;
    Ok(read_filter(alloc, text.as_slice())?)
}

/// Reads the moments of a name.
pub fn load_ticks<S: Store>(
    alloc: Global,
    store: &mut S,
    name: &[u8],
) -> Result<MomentList, LoadError>
    requires { IsTrue ((S.seen store.old).to_read name.now) }
    ensures moments { IfOk result (λ moments.
        ReadsAs moments_of (S.seen store.old) (S.seen store.new) name.now (Ok moments)) }
    ensures sound { IfOk result AreMoments }
    ensures stop { IfErr result
        (StopsAtText moments_of (S.seen store.old) (S.seen store.new) name.now) }
    ensures store { OnlyReads (S.seen store.old) (S.seen store.new) }
{
    let text = read_text(alloc, store, name)?;
    Ok(read_ticks(alloc, text.as_slice())?)
}

/// Reads the schedule of a name, for these numbers of CPUs and members.
pub fn load_schedule<S: Store>(
    alloc: Global,
    store: &mut S,
    name: &[u8],
    cpus: u32,
    members: u32,
) -> Result<Schedule, LoadError>
    requires { IsTrue ((S.seen store.old).to_read name.now) }
    ensures schedule { IfOk result (λ lines. ReadsAs (schedule_for cpus members)
        (S.seen store.old) (S.seen store.new) name.now (Ok lines)) }
    ensures sound { IfOk result (IsScheduleFor cpus members) }
    ensures stop { IfErr result
        (StopsAtText (schedule_for cpus members) (S.seen store.old) (S.seen store.new) name.now) }
    ensures store { OnlyReads (S.seen store.old) (S.seen store.new) }
{
    let text = read_text(alloc, store, name)?;
    Ok(read_schedule(alloc, text.as_slice(), cpus, members)?)
}
