//! Laws of the texts that are read, each the contract of a function that does nothing.
ghost use Rattle.std.specs.Prelude.{◌≡◌, ◌<◌, ◌+◌, ℕ, List, [], length, Err};
ghost use Rattle.text_lines.specs.Lines.{lines_of};
ghost use Rattle.setup_text.specs.FirstFaults.{HasFirstFault};
ghost use Rattle.setup_text.specs.Moments.{moments_of};
ghost use Rattle.setup_text.specs.Schedules.{schedule_of};
ghost use Rattle.setup_text.specs.declared.text_error.TextError.{TextError};
ghost use Rattle.setup_text.specs.declared.text_error.TextKind.{TextKind};
ghost use Rattle.setup_text.specs.declared.text_error.TextKind.TheVariants.{TooLarge};
ghost use Rattle.setup_text.specs.declared.text_error.Which.{Which};
ghost use Rattle.setup_text.specs.declared.text_error.Which.TheVariants.{Schedule, Ticks};
ghost use Rattle.tap_reading.specs.Steps.{schedule_after, ticks_after};

/// The first fault of the ticks: each line before it is without fault, and it has the fault. With
/// line 0 the text is too large, and nothing else is at fault.
pub fn the_first_fault_of_ticks_answers()
    ensures line { (text : List ℕ) (which : Which) (count : ℕ) (kind : TextKind)
        → moments_of text ≡ Err (record { which = which; line = count + 1; kind = kind })
        → HasFirstFault ticks_after [] (lines_of text) count kind }
    ensures no_line { (text : List ℕ) (which : Which) (kind : TextKind)
        → moments_of text ≡ Err (record { which = which; line = 0; kind = kind })
        → (kind ≡ TooLarge) × (1048576 < length text) }
    ensures which { (text : List ℕ) (error : TextError)
        → moments_of text ≡ Err error → error.which ≡ Ticks }
{}

/// The first fault of a schedule for these numbers of CPUs and members: each line before it is
/// without fault, and it has the fault. With line 0 the text is too large, and nothing else is at
/// fault.
pub fn the_first_fault_of_a_schedule_answers()
    ensures line { (cpus members : ℕ) (text : List ℕ) (which : Which) (count : ℕ) (kind : TextKind)
        → schedule_of cpus members text
        ≡ Err (record { which = which; line = count + 1; kind = kind })
        → HasFirstFault (schedule_after cpus members) [] (lines_of text) count kind }
    ensures no_line { (cpus members : ℕ) (text : List ℕ) (which : Which) (kind : TextKind)
        → schedule_of cpus members text ≡ Err (record { which = which; line = 0; kind = kind })
        → (kind ≡ TooLarge) × (1048576 < length text) }
    ensures which { (cpus members : ℕ) (text : List ℕ) (error : TextError)
        → schedule_of cpus members text ≡ Err error → error.which ≡ Schedule }
{}
