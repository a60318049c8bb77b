//! Laws of what is kept of frames, each the contract of a function that does nothing.
ghost use Rattle.std.specs.Prelude.{◌≡◌, ℕ, List, ◌∷◌, [], ◌++◌, length, map};
ghost use Rattle.capture_file.specs.Capture.{frames_of};
ghost use Rattle.deal_rules.specs.Files.{arriving_by, captures_by, frames_by, frames_in, numbered};
ghost use Rattle.deal_rules.specs.Files.{times_by};
ghost use Rattle.deal_rules.specs.Times.{times_of};
ghost use Rattle.fanout_group.specs.Arrivals.{arrivals_at, arrivals_of};
ghost use Rattle.fanout_group.specs.Plans.{Shape, has_defrag};
ghost use Rattle.fanout_group.specs.Rules.{Rules};
ghost use Rattle.frame_deals.specs.Dealings.{Dealing, after_frames, first_dealing};
ghost use Rattle.frame_deals.specs.Deals.{AreMarkLists, AllRead, IsMarkList};
ghost use Rattle.frame_view.specs.declared.frames.Frame.{Frame};
ghost use Rattle.run_reports.specs.Jobs.{arriving_of, captures_from, rules_of};
ghost use Rattle.setup_text.specs.declared.jobs.Job.{Job};

use capture_file::frames_are_numbered;

/// What is kept of a CPU's frames is their times, rising, and what comes of what arrives with each.
pub fn what_is_kept_is_what_arrives()
    ensures marks { (rules : Rules) (room cpu : ℕ) (shape : Shape) (frames : List Frame)
        → IsMarkList rules room (times_of (numbered 0 frames))
        (arrivals_at (has_defrag shape.flags) (numbered 0 frames))
        (after_frames rules room frames (first_dealing cpu shape)).marks }
    ensures arrivals { (rules : Rules) (room cpu : ℕ) (shape : Shape) (frames : List Frame)
        → (after_frames rules room frames (first_dealing cpu shape)).arrivals
        ≡ length (arrivals_of (has_defrag shape.flags) (numbered 0 frames)) }
{}

/// A file after some others adds its frames to theirs.
pub fn a_file_adds_its_frames()
    ensures { (rules : Rules) (room cpu : ℕ) (files : List (List ℕ)) (bytes : List ℕ)
        (dealing : Dealing)
        → after_frames rules room (frames_in cpu (files ++ bytes ∷ [])) dealing
        ≡ after_frames rules room (frames_of cpu bytes)
        (after_frames rules room (frames_in cpu files) dealing) }
{}

/// If the files of each CPU were read, what is kept is the times of all frames and what comes of
/// what arrives with each.
pub fn all_files_are_what_arrives()
    ensures { (job : Job) (room : ℕ) (all : List (List (List ℕ))) (dealings : List Dealing)
        → AllRead (rules_of job) room job.setup.plan 0 all dealings
        → AreMarkLists (rules_of job) room (times_by all) (arriving_by job all)
        (map (λ dealing. dealing.marks) dealings) }
{}

/// If each CPU has one file, its frames are those of that file, as a run has them.
pub fn one_file_is_the_capture_of_a_run()
    ensures frames { (cpu : ℕ) (bytes : List ℕ) → frames_by cpu (bytes ∷ []) ≡ frames_of cpu bytes }
    ensures captures { (all : List (List ℕ))
        → captures_by 0 (map (λ bytes. bytes ∷ []) all) ≡ captures_from 0 all }
    ensures arriving { (job : Job) (all : List (List ℕ))
        → arriving_by job (map (λ bytes. bytes ∷ []) all) ≡ arriving_of job all }
{
    frames_are_numbered();
}
