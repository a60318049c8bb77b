//! What the program finds: its texts, its captures and its answers.
ghost use Rattle.std.specs.Prelude.{◌≡◌, ℕ, true, None, Some, All, IfOk, IsTrue, List};
ghost use Rattle.reader_pace.specs.Answers.{is_reader_want};
ghost use Rattle.reader_pace.specs.ReaderWords.{says_slots};
ghost use Rattle.reader_pace.specs.Sound.{IsReader};
ghost use Rattle.setup_text.specs.Sound.{IsSetup};
ghost use Rattle.slot_layout.specs.SlotShapes.{IsSlotShape};
ghost use Rattle.std.specs.Prelude.{length};
ghost use Rattle.tap_outside.specs.Seen.{StoreSeen};
ghost use Rattle.tap_sizes.specs.Endings.{IsSizeSearched};
ghost use Rattle.tap_sizes.specs.SizeNames.{AreMeantToSize, AreMoreMeant};
ghost use Rattle.tap_sizes.specs.Readings.{AreAllRead};
ghost use Rattle.tap_sizes.specs.RingParts.{parts_for};
ghost use Rattle.tap_sizes.specs.SizeTexts.{IsJobRead, IsSizeAsked};
ghost use Rattle.tap_sizes.specs.SizeWords.{SizeNamed, size_named, size_words};
ghost use Rattle.tap_sizes.specs.Tried.{unanswered_by};
ghost use Rattle.tap_sizes.specs.inside.Measured.{AreSomeRead, IsMeasured};
ghost use Rattle.tap_sizes.specs.inside.Stopped.{finding_of_reader_error, finding_of_stop};
ghost use Rattle.tp_layout.specs.Requests.{time_out_of};

use crate::answers::answers_of;
use crate::asked_sizes::{AskedSizes, size_words};
use crate::cpu_reads::{CpuReads, read_cpus};
use crate::reader_tries::unanswered;
use crate::ring_parts::parts_of;
use crate::size_findings::SizeFinding;
use crate::size_texts::{SizeTexts, accept_reader, load_size_texts};
use frame_deals::{all_files_are_what_arrives, deal};
use frame_view::Memory;
use pace_laws::{
    a_job_has_a_sizing, the_drops_of_courses_are_those_of_replays,
    the_drops_of_slot_courses_are_those_of_replays,
    the_greatest_of_all_passes_is_the_least_ring_of_the_group,
    the_greatest_of_all_slot_passes_is_the_least_number_of_the_group,
    the_greatest_of_the_passes_is_the_least_ring,
    the_greatest_of_the_slot_passes_is_the_least_number,
    the_total_drops_of_courses_are_those_of_replays,
    the_total_drops_of_slot_courses_are_those_of_replays,
};
use reader_pace::{PacedReader, ReaderError, ReaderKind};
use setup_text::Job;
use std::alloc::Global;
use std::thread::Threads;
use tap_outside::{Store, Word};
use tap_reading::LoadError;
use tp_layout::a_shape_is_sound;

/// Finds what the words ask for. The store is only read.
pub(crate) fn search<S: Store, R: Threads + Sync>(
    rt: &R,
    alloc: Global,
    words: &[Word],
    store: &mut S,
) -> Result<SizeFinding, Memory>
    requires { AreMeantToSize (size_words words.now) (S.seen store.old) }
    ensures { IsSizeSearched (size_words words.now) (S.seen store.old) (S.seen store.new) result }
{
    let Some(asked) = size_words(words) else {
        return Ok(SizeFinding::NoNames);
    };
    search_names(rt, alloc, asked, store)
}

/// Finds what is asked for under two names.
fn search_names<S: Store, R: Threads + Sync>(
    rt: &R,
    alloc: Global,
    asked: AskedSizes<'_>,
    store: &mut S,
) -> Result<SizeFinding, Memory>
    requires { AreMeantToSize (Some (size_named asked.setup.now asked.reader.now))
        (S.seen store.old) }
    ensures { IsSizeSearched (Some (size_named asked.entry.setup.now asked.entry.reader.now))
        (S.seen store.old) (S.seen store.new) result }
{
    match load_size_texts(alloc, asked, store) {
        Ok(texts) => search_job(rt, alloc, &texts, store),
        Err(stop) => stopped(stop),
    }
}

/// What is found where there are no setup and filter.
fn stopped(stop: LoadError) -> Result<SizeFinding, Memory>
    ensures { result ≡ finding_of_stop stop }
{
    match stop {
        LoadError::Unread => Ok(SizeFinding::Unread),
        LoadError::Setup(error) => Ok(SizeFinding::BadSetup(error)),
        LoadError::Text(error) => Ok(SizeFinding::BadFilter(error)),
        LoadError::Memory => Err(Memory),
    }
}

/// Finds what is asked for with a setup and its filter, and a reader's text.
fn search_job<S: Store, R: Threads + Sync>(
    rt: &R,
    alloc: Global,
    texts: &SizeTexts,
    store: &mut S,
) -> Result<SizeFinding, Memory>
    requires setup { IsSetup texts.now.job.setup }
    requires slots { says_slots texts.now.reader ≡ true → IsSlotShape texts.now.job.setup.shape }
    requires captures { All (λ cpu. IsTrue ((S.seen store.old).to_read cpu.file))
        texts.now.job.setup.cpus }
    requires more { AreMoreMeant (S.seen store.old) texts.now.reader texts.now.job.setup }
    ensures { (start : StoreSeen) (named : SizeNamed)
        → IsJobRead start (S.seen store.old) named texts.now.reader texts.now.job
        → IsSizeSearched (Some named) start (S.seen store.new) result }
{
    match accept_reader(alloc, texts) {
        Ok(reader) => search_captures(rt, alloc, &texts.job, &reader, store),
        Err(error) => refused(error),
    }
}

/// What is found where there is no reader.
fn refused(error: ReaderError) -> Result<SizeFinding, Memory>
    ensures { result ≡ finding_of_reader_error error }
{
    if is_reader_want(&error) {
        Err(Memory)
    } else {
        Ok(SizeFinding::BadReader(error))
    }
}

/// Whether a reader's text wasn't read because memory ran out.
fn is_reader_want(error: &ReaderError) -> bool
    ensures { result ≡ is_reader_want error.now }
{
    matches!(error.kind, ReaderKind::Memory)
}

/// Finds what is asked for with texts that are accepted.
fn search_captures<S: Store, R: Threads + Sync>(
    rt: &R,
    alloc: Global,
    job: &Job,
    reader: &PacedReader,
    store: &mut S,
) -> Result<SizeFinding, Memory>
    requires setup { IsSetup job.now.setup }
    requires reader { IsReader (length job.now.setup.cpus) (time_out_of job.now.setup.shape)
        reader.now }
    requires slots { reader.now.slots ≡ true → IsSlotShape job.now.setup.shape }
    requires captures { All (λ cpu. IsTrue ((S.seen store.old).to_read cpu.file))
        job.now.setup.cpus }
    requires more { All (λ file. IsTrue ((S.seen store.old).to_read file.file)) reader.now.more }
    ensures { (start : StoreSeen) (named : SizeNamed)
        → IsSizeAsked start (S.seen store.old) named job.now reader.now
        → IsSizeSearched (Some named) start (S.seen store.new) result }
{
    if let Some(why) = unanswered(reader) {
        return Ok(SizeFinding::Unanswered(why));
    }
    let reads = read_cpus(alloc, job, reader, store)?;
    measure(rt, alloc, job, reader, reads)
}

/// Answers what is asked for, from what was read of the captures.
fn measure<R: Threads + Sync>(
    rt: &R,
    alloc: Global,
    job: &Job,
    reader: &PacedReader,
    reads: CpuReads,
) -> Result<SizeFinding, Memory>
    requires setup { IsSetup job.now.setup }
    requires reader { IsReader (length job.now.setup.cpus) (time_out_of job.now.setup.shape)
        reader.now }
    requires answered { unanswered_by reader.now ≡ None }
    requires slots { reader.now.slots ≡ true → IsSlotShape job.now.setup.shape }
    requires read { AreSomeRead job.now (parts_for job.now reader.now).room reader.now.more
        reads.files reads.deals.items }
    ensures { (old new : StoreSeen) (bytes : List (List (List ℕ)))
        → AreAllRead old new job.now (parts_for job.now reader.now).room reader.now.more bytes
        reads.files reads.deals.items
        → IfOk result (IsMeasured job.now reader.now bytes reads.files) }
{
    all_files_are_what_arrives();
    a_job_has_a_sizing();
    the_greatest_of_the_passes_is_the_least_ring();
    the_greatest_of_all_passes_is_the_least_ring_of_the_group();
    the_drops_of_courses_are_those_of_replays();
    the_total_drops_of_courses_are_those_of_replays();
    the_greatest_of_the_slot_passes_is_the_least_number();
    the_greatest_of_all_slot_passes_is_the_least_number_of_the_group();
    the_drops_of_slot_courses_are_those_of_replays();
    the_total_drops_of_slot_courses_are_those_of_replays();
    a_shape_is_sound(&job.setup.shape);
    let _members = job.setup.plan.members();
    let CpuReads { files, deals } = reads;
    let dealt = deal(alloc, &job.setup.plan, deals)?;
    if dealt.lasts_too_long() {
        return Ok(SizeFinding::TooLong(files));
    }
    let report = answers_of(rt, alloc, &job.setup, reader, &dealt, files)?;
    let parts = parts_of(&job.setup.shape, reader.slots);
    Ok(SizeFinding::Sized(parts.kind, parts.size, report))
}
