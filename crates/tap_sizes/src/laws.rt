//! A law of the answers, the contract of a function that does nothing.
ghost use Rattle.std.specs.Prelude.{◌≡◌, ℕ, List, ◌∷◌, [], false, map, true};
ghost use Rattle.pace_laws.specs.JobSizings.{sizing_of, slot_sizing_of};
ghost use Rattle.reader_pace.specs.declared.readers.PacedReader.{PacedReader};
ghost use Rattle.setup_text.specs.declared.jobs.Job.{Job};
ghost use Rattle.tap_sizes.specs.Answers.{sizing_by};

use frame_deals::one_file_is_the_capture_of_a_run;

/// If each CPU has one file, its rings are sized over the frames that a run has of these captures.
pub fn one_file_each_is_a_run()
    ensures blocks { (job : Job) (reader : PacedReader) (all : List (List ℕ))
        → reader.slots ≡ false
        → sizing_by job reader (map (λ bytes. bytes ∷ []) all) ≡ sizing_of job reader all }
    ensures slots { (job : Job) (reader : PacedReader) (all : List (List ℕ))
        → reader.slots ≡ true
        → sizing_by job reader (map (λ bytes. bytes ∷ []) all) ≡ slot_sizing_of job reader all }
{
    one_file_is_the_capture_of_a_run();
}
