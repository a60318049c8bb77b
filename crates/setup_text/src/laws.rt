//! Laws of the definitions, each the contract of a function that does nothing.
ghost use Rattle.std.specs.Prelude.{◌≡◌, ◌<◌, ◌≤◌, ◌+◌, ◌⊎◌, ℕ, List, length, Err};
ghost use Rattle.text_lines.specs.Lines.{lines_of};
ghost use Rattle.setup_text.specs.Drafts.{line_after, nothing_said};
ghost use Rattle.setup_text.specs.FirstFaults.{HasFirstFault, HaveNoFault};
ghost use Rattle.setup_text.specs.Runnable.{IsRunnable};
ghost use Rattle.setup_text.specs.Setups.{setup_of};
ghost use Rattle.setup_text.specs.declared.commands.Command.{Command};
ghost use Rattle.setup_text.specs.declared.setup_error.SetupKind.{SetupKind};
ghost use Rattle.setup_text.specs.declared.setup_error.SetupKind.TheVariants.{TooLarge};

use crate::Setup;
use tp_layout::a_shape_is_sound;

/// The first fault of a setup: each line before it is without fault, and it has the fault. With
/// line 0 the text is too large, or no line has a fault.
pub fn the_first_fault_answers()
    ensures line { (text : List ℕ) (command : Command) (count : ℕ) (kind : SetupKind)
        → setup_of text command ≡ Err (record { line = count + 1; kind = kind })
        → HasFirstFault line_after nothing_said (lines_of text) count kind }
    ensures no_line { (text : List ℕ) (command : Command) (kind : SetupKind)
        → setup_of text command ≡ Err (record { line = 0; kind = kind })
        → (kind ≡ TooLarge) ⊎ HaveNoFault line_after nothing_said (lines_of text) }
{}

/// A setup with 1 to 8 CPUs can be run: its ring's shape and its group passed their tests when they
/// were made.
pub fn a_setup_with_cpus_can_be_run(setup: &Setup)
    requires some { 0 < length setup.now.cpus }
    requires few { length setup.now.cpus ≤ 8 }
    ensures { IsRunnable setup.now }
{
    a_shape_is_sound(&setup.shape);
    let _members = setup.plan.members();
}
