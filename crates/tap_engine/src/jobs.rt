//! What a command needs: its texts, read and accepted.
ghost use Rattle.std.specs.Prelude.{◌≡◌, ◌≤◌, ◌∷◌, [], ℕ, List, None, Ok, IfErr, IfOk, IfSome};
ghost use Rattle.std.specs.Prelude.{IsTrue, length, option_map};
ghost use Rattle.setup_text.specs.TickOrder.{IsSchedule};
ghost use Rattle.setup_text.specs.Setups.{request_fault};
ghost use Rattle.setup_text.specs.Sound.{AreMoments, IsSetup};
ghost use Rattle.setup_text.specs.declared.jobs.Job.{Job};
ghost use Rattle.setup_text.specs.declared.setups.Setup.{Setup};
ghost use Rattle.tap_outside.specs.Seen.{OnlyReads, StoreSeen};
ghost use Rattle.tap_reading.specs.Fronts.{ReadTexts, text_entry};
ghost use Rattle.tap_reading.specs.Readers.{ReadsAs, StopsAtText, schedule_for};
ghost use Rattle.tap_engine.specs.Commands.{Named, named_by};
ghost use Rattle.tap_engine.specs.Given.{Texts};
ghost use Rattle.tap_running.specs.Texts.{HasProgram};
ghost use Rattle.tap_engine.specs.Jobs.{HasSetup, HasTicks, IsLoaded, Stops};
ghost use Rattle.tap_engine.specs.inside.Loads.{ReadsOne};
ghost use Rattle.tap_engine.specs.Names.{AreMeantToRead, filter_for, ticks_for};

use crate::commands::Asked;
use bpf_filter::Program;
use frame_view::MomentList;
use setup_text::{Command, Job, Schedule, Setup, a_setup_with_cpus_can_be_run};
use std::alloc::Global;
use tap_outside::{Store, Word};
use tap_reading::{LoadError, load_filter, load_schedule, load_setup, load_ticks};

/// Reads the setup of a command, and the filter that it names, if the command reads one.
#[tactic(auto, using(crate::proofs::Found::at_setup))]
pub(crate) fn load_job<S: Store>(
    alloc: Global,
    asked: Asked<'_>,
    store: &mut S,
) -> Result<Job, LoadError>
    requires { AreMeantToRead
        (Some (named_by asked.command asked.setup.now asked.schedule.now)) (S.seen store.old) }
    ensures loaded { IfOk result (λ job. (texts : Texts)
        × IsLoaded (S.seen store.old) (S.seen store.new)
        (named_by asked.entry.command asked.entry.setup.now asked.entry.schedule.now) texts job) }
    ensures sound { IfOk result (λ job. IsSetup job.setup) }
    ensures ring { IfOk result (λ job.
        request_fault asked.entry.command job.setup.request ≡ None) }
    ensures stop { IfErr result (Stops (S.seen store.old) (S.seen store.new)
        (named_by asked.entry.command asked.entry.setup.now asked.entry.schedule.now)) }
    ensures store { OnlyReads (S.seen store.old) (S.seen store.new) }
{
    let setup = load_setup(alloc, store, asked.setup, asked.command)?;
    let program = load_program(alloc, store, filter_for(asked.command, &setup))?;
    a_setup_with_cpus_can_be_run(&setup);
    Ok(Job { setup, program })
}

/// The name of the filter that a command reads, if it reads one. `send` reads none.
fn filter_for(command: Command, setup: &Setup) -> Option<&Word>
    ensures { option_map (λ word. word.now) result ≡ filter_for command setup.now }
{
    match command {
        Command::Send => None,
        Command::Check
        | Command::Make
        | Command::Replay
        | Command::Replay2
        | Command::Capture
        | Command::Forward => setup.filter.as_ref(),
    }
}

/// Reads a filter, if one is named.
#[tactic(auto, using(crate::proofs::Found::at_filter, crate::proofs::Names::read_none))]
fn load_program<S: Store>(
    alloc: Global,
    store: &mut S,
    filter: Option<&Word>,
) -> Result<Option<Program>, LoadError>
    requires { IfSome filter (λ name. IsTrue ((S.seen store.old).to_read name.now)) }
    ensures program { IfOk result (λ program. ReadsOne (S.seen store.old) (S.seen store.new)
        (option_map (λ word. word.now) filter.entry)
        (λ text. HasProgram (S.seen store.old).held
        (option_map (λ word. word.now) filter.entry) text program)) }
    ensures stop { IfErr result
        (λ stop. (start : StoreSeen) (named : Named) (text : List ℕ) (setup : Setup)
        → ReadTexts start (S.seen store.old) (text_entry named.setup text ∷ [])
        → HasSetup start.held named text setup
        → filter_for named.command setup ≡ option_map (λ word. word.now) filter.entry
        → Stops start (S.seen store.new) named stop) }
    ensures store { OnlyReads (S.seen store.old) (S.seen store.new) }
{
    match filter {
        None => Ok(None),
        Some(name) => {
            let program = load_filter(alloc, store, name.bytes())?;
            Ok(Some(program))
        }
    }
}

/// Reads the moments that a setup names; none if it names no file.
#[tactic(auto, using(crate::proofs::Names::read_none))]
pub(crate) fn load_moments<S: Store>(
    alloc: Global,
    store: &mut S,
    ticks: &Option<Word>,
) -> Result<MomentList, LoadError>
    requires { IfSome ticks.now (λ name. IsTrue ((S.seen store.old).to_read name)) }
    ensures ticks { IfOk result (λ moments. ReadsOne (S.seen store.old) (S.seen store.new)
        ticks.now (λ text. HasTicks (S.seen store.old).held ticks.now text moments)) }
    ensures sound { IfOk result AreMoments }
    ensures stop { IfErr result
        (λ stop. (start : StoreSeen) (named : Named) (texts : Texts) (job : Job)
        → IsLoaded start (S.seen store.old) named texts job
        → ticks_for named.command job.setup ≡ ticks.now
        → Stops start (S.seen store.new) named stop) }
    ensures store { OnlyReads (S.seen store.old) (S.seen store.new) }
{
    match ticks {
        None => Ok(MomentList::new(alloc)),
        Some(name) => load_ticks(alloc, store, name.bytes()),
    }
}

/// Reads a schedule for the CPUs and the members of a setup.
pub(crate) fn load_lines<S: Store>(
    alloc: Global,
    store: &mut S,
    name: &[u8],
    setup: &Setup,
) -> Result<Schedule, LoadError>
    requires name { IsTrue ((S.seen store.old).to_read name.now) }
    requires few { length setup.now.cpus ≤ 8 }
    ensures schedule { IfOk result (λ lines.
        ReadsAs (schedule_for (length setup.now.cpus) setup.now.plan.members)
        (S.seen store.old) (S.seen store.new) name.now (Ok lines)) }
    ensures ascending { IfOk result IsSchedule }
    ensures few { IfOk result (λ lines. length lines ≤ 1048576) }
    ensures stop { IfErr result
        (StopsAtText (schedule_for (length setup.now.cpus) setup.now.plan.members)
        (S.seen store.old) (S.seen store.new) name.now) }
    ensures store { OnlyReads (S.seen store.old) (S.seen store.new) }
{
    let cpus = setup.cpus.len() as u32;
    load_schedule(alloc, store, name, cpus, setup.plan.members())
}
