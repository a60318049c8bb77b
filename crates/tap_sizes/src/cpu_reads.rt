//! The files of the CPUs, read one after another.
ghost use Rattle.std.specs.Prelude.{◌≡◌, ℕ, ◌<◌, ◌≤◌, List, ◌∷◌, ◌++◌, true, All, IfOk, IsTrue};
ghost use Rattle.std.specs.Prelude.{get_or, length};
ghost use Rattle.frame_deals.specs.Dealings.{IsRoom};
ghost use Rattle.setup_text.specs.declared.cpu_setups.CpuSetup.{CpuSetup};
ghost use Rattle.size_printing.specs.declared.size_reports.ReadFile.{ReadFile};
ghost use Rattle.tap_outside.specs.Seen.{OnlyReads};
ghost use Rattle.slot_layout.specs.SlotShapes.{IsSlotShape};
ghost use Rattle.tap_sizes.specs.Readings.{AreAllRead, IsCpuRead, IsFileTaken};
ghost use Rattle.tap_sizes.specs.RingParts.{parts_for};

use crate::ring_parts::parts_of;
use capture_reading::Buffer;
use cpu_feed::rules_at;
use fanout_group::ArrivalRules;
use frame_deals::CpuDeal;
use frame_view::Memory;
use reader_pace::PacedReader;
use setup_text::Job;
use size_printing::{ReadFile, ReadFiles};
use std::alloc::Global;
use tap_outside::Store;
use tap_running::{close_file, fetch_file};

/// What was read of the CPUs.
#[derive(Drop)]
pub(crate) struct CpuReads {
    /// The files.
    pub files: ReadFiles,
    /// What comes of the frames of each CPU.
    pub deals: Vec<CpuDeal>,
}

/// Reads the files of each CPU of a job, one CPU after another: its capture and then its further
/// files, in the order of their lines.
pub(crate) fn read_cpus<S: Store>(
    alloc: Global,
    job: &Job,
    reader: &PacedReader,
    store: &mut S,
) -> Result<CpuReads, Memory>
    requires few { length job.now.setup.cpus ≤ 8 }
    requires slots { reader.now.slots ≡ true → IsSlotShape job.now.setup.shape }
    requires captures { All (λ cpu. IsTrue ((S.seen store.old).to_read cpu.file))
        job.now.setup.cpus }
    requires more { All (λ file. IsTrue ((S.seen store.old).to_read file.file)) reader.now.more }
    ensures read { IfOk result (λ reads. (all : List (List (List ℕ)))
        × AreAllRead (S.seen store.old) (S.seen store.new) job.now
        (parts_for job.now reader.now).room reader.now.more all reads.files reads.deals.items) }
    ensures store { OnlyReads (S.seen store.old) (S.seen store.new) }
{
    let mut buffer = Buffer::new(alloc)?;
    let mut files = ReadFiles::new(alloc);
    let mut deals = Vec::with_capacity(alloc, job.setup.cpus.len())?;
    let mut cpu = 0;
    while cpu < job.setup.cpus.len() {
        let deal = read_cpu(alloc, job, reader, cpu, &mut buffer, store, &mut files)?;
        deals.push(deal)?;
        cpu += 1;
    }
    Ok(CpuReads { files, deals })
}

/// Reads the capture of a CPU and then its further files, and adds what was read of each.
fn read_cpu<S: Store>(
    alloc: Global,
    job: &Job,
    reader: &PacedReader,
    cpu: usize,
    buffer: &mut Buffer,
    store: &mut S,
    files: &mut ReadFiles,
) -> Result<CpuDeal, Memory>
    requires cpu { cpu < length job.now.setup.cpus }
    requires few { length job.now.setup.cpus ≤ 8 }
    requires slots { reader.now.slots ≡ true → IsSlotShape job.now.setup.shape }
    requires captures { All (λ cpu. IsTrue ((S.seen store.old).to_read cpu.file))
        job.now.setup.cpus }
    requires more { All (λ file. IsTrue ((S.seen store.old).to_read file.file)) reader.now.more }
    ensures read { IfOk result (λ deal. (setup : CpuSetup)
        → setup ≡ get_or job.now.setup.cpus cpu setup
        → (all : List (List ℕ)) × (read : List ReadFile) × (files.new ≡ files.old ++ read)
        × IsCpuRead (S.seen store.old) (S.seen store.new) job.now
        (parts_for job.now reader.now).room reader.now.more cpu setup.file all read deal) }
    ensures store { OnlyReads (S.seen store.old) (S.seen store.new) }
{
    let parts = parts_of(&job.setup.shape, reader.slots);
    let more = reader.more.as_slice();
    let setup = &job.setup.cpus.as_slice()[cpu];
    let mut deal = CpuDeal::new(alloc, cpu as u32, job.setup.plan);
    let capture = read_file(
        alloc,
        job,
        parts.room,
        setup.file.bytes(),
        &mut deal,
        buffer,
        store,
    )?;
    files.push(capture)?;
    for file in more {
        if file.cpu as usize == cpu {
            let name = file.file.bytes();
            let further = read_file(alloc, job, parts.room, name, &mut deal, buffer, store)?;
            files.push(further)?;
        }
    }
    Ok(deal)
}

/// Reads a file of a CPU after those before it, for rings with this room: it is opened, read to its
/// end and closed. One that can't be fetched ends with a fault.
fn read_file<S: Store>(
    alloc: Global,
    job: &Job,
    room: u32,
    name: &[u8],
    deal: &mut CpuDeal,
    buffer: &mut Buffer,
    store: &mut S,
) -> Result<ReadFile, Memory>
    requires shape { deal.old.shape ≡ job.now.setup.plan }
    requires few { deal.old.cpu < 8 }
    requires room { IsRoom room }
    requires name { IsTrue ((S.seen store.old).to_read name.now) }
    ensures read { IfOk result (λ file. (bytes : List ℕ)
        × IsFileTaken (S.seen store.old) (S.seen store.new) job.now room deal.old.cpu name.now bytes
        file deal.old deal.new) }
    ensures same { IfOk result (λ file. (deal.new.cpu ≡ deal.old.cpu)
        × (deal.new.shape ≡ job.now.setup.plan)) }
    ensures store { OnlyReads (S.seen store.old) (S.seen store.new) }
{
    let cpu = deal.number();
    let mut source = fetch_file(store, name)?;
    let rules = ArrivalRules {
        room,
        ..rules_at(job, cpu as usize)
    };
    let reading = deal.read_file(alloc, buffer, &rules, &mut source);
    close_file(store, source);
    let reading = reading?;
    Ok(ReadFile {
        cpu,
        frames: reading.frames,
        arrivals: reading.arrivals,
        end: reading.end,
    })
}
