//! Laws of the sizings of jobs, each the contract of a function that does nothing.
ghost use Rattle.std.specs.Prelude.{◌≡◌, ℕ, List, Some, false, map, true};
ghost use Rattle.capture_file.specs.declared.cpu_end.CpuEnd.{CpuEnd};
ghost use Rattle.frame_view.specs.declared.frames.Frame.{Frame};
ghost use Rattle.pace_laws.specs.JobSizings.{sizing_of, sizing_over, slot_sizing_of};
ghost use Rattle.pace_laws.specs.Paces.{pace_of};
ghost use Rattle.pace_laws.specs.Sizings.{IsSizing, IsSlotSizing, blocks_with, slots_with};
ghost use Rattle.reader_pace.specs.declared.readers.PacedReader.{PacedReader};
ghost use Rattle.receive_ring.specs.Replay.{replayed};
ghost use Rattle.receive_ring.specs.Reports.{notes_of};
ghost use Rattle.replay_laws.specs.LargerJobs.{IsReshaped, block_report, slot_report};
ghost use Rattle.ring_sizes.specs.declared.paces.Timing.{Timing};
ghost use Rattle.setup_text.specs.declared.jobs.Job.{Job};
ghost use Rattle.setup_text.specs.declared.lines.Line.{Line};
ghost use Rattle.tp_layout.specs.Requests.{time_out_of};

/// The sizing of a job over any captures of its CPUs is one: there is a time for each frame with
/// which something may arrive.
pub fn a_job_has_a_sizing()
    ensures blocks { (room : ℕ) (job : Job) (reader : PacedReader) (captures : List (List Frame))
        (pace : Timing)
        → reader.slots ≡ false → pace_of (time_out_of job.setup.shape) reader.pace ≡ Some pace
        → IsSizing (sizing_over room job reader captures) pace }
    ensures slots { (room : ℕ) (job : Job) (reader : PacedReader) (captures : List (List Frame))
        (pace : Timing)
        → reader.slots ≡ true → pace_of (time_out_of job.setup.shape) reader.pace ≡ Some pace
        → IsSlotSizing (sizing_over room job reader captures) pace }
{}

/// The rings of its replays have the notes of the replay report (`report_of`) of the same job with
/// so many blocks, or slots, over sources that gave these bytes.
pub fn the_notes_of_a_report_are_those_of_the_sizing()
    ensures blocks { (job other : Job) (reader : PacedReader) (lines : List Line)
        (all : List (List ℕ)) (ends : List CpuEnd) (blocks frames : ℕ)
        → IsReshaped blocks frames job other
        → let sizing = sizing_of job reader all in
        let steps = blocks_with sizing blocks in
        map (λ member. member.notes) (block_report other lines all ends).members
        ≡ notes_of (replayed sizing.rules steps sizing.arriving lines).members }
    ensures slots { (job other : Job) (reader : PacedReader) (lines : List Line)
        (all : List (List ℕ)) (ends : List CpuEnd) (blocks slots : ℕ)
        → IsReshaped blocks slots job other
        → let sizing = slot_sizing_of job reader all in
        let steps = slots_with sizing slots in
        map (λ member. member.notes) (slot_report other lines all ends).members
        ≡ notes_of (replayed sizing.rules steps sizing.arriving lines).members }
{}
