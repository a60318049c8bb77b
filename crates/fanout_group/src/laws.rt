//! Laws of the definitions, each the contract of a function that does nothing.
ghost use Rattle.std.specs.Prelude.{◌≡◌, ◌<◌, ℕ, Bool, None, List, All};
ghost use Rattle.frame_view.specs.declared.frames.Frame.{Frame};
ghost use Rattle.capture_file.specs.Laws.{IsCaptured};
ghost use Rattle.fanout_group.specs.Arrivals.{IsArrival, arrivals_of};
ghost use Rattle.fanout_group.specs.Joined.{Logged};
ghost use Rattle.fanout_group.specs.Once.{AreOf, EachAppearsOnce, IsGroupReport};
ghost use Rattle.fanout_group.specs.Routes.{AreRefusedBeforeLast, GoesRound, IsBegun, IsRoute};
ghost use Rattle.fanout_group.specs.Rules.{Rules};
ghost use Rattle.fanout_group.specs.declared.logs.Try.{Try};
ghost use Rattle.ring_model.specs.declared.notes.Note.{Note};

/// Where logs are lawful and joined with notes, each arrival that the filter passes appears once
/// among all Kept and Dropped notes of all members, and nothing else appears there.
pub fn each_frame_appears_exactly_once()
    ensures { (rules : Rules) (room : ℕ) (cpus : List Logged) (members : List (List Note))
        → IsGroupReport rules room cpus members → EachAppearsOnce cpus members }
{}

/// The arrivals of a CPU's frames have its number and rising indexes, with and without
/// defragmentation.
pub fn arrivals_rise()
    ensures { (defrag : Bool) (cpu least : ℕ) (frames : List Frame) → AreOf cpu least frames
        → AreOf cpu least (arrivals_of defrag frames) }
{}

/// Every arrival of a capture's frames is sound: untagged, not a runt, with a fraction below a
/// second, and with no more bytes than were on the wire.
pub fn arrivals_are_sound()
    ensures { (defrag : Bool) (frames : List Frame) → All (λ frame. frame.tag ≡ None) frames
        → All IsCaptured frames → All IsArrival (arrivals_of defrag frames) }
{}

/// Try i of an arrival, counted from 0, is at the member i places after the home, round the group,
/// and each try before the last is refused. The same holds of the tries that were made before
/// `Memory`.
pub fn tries_go_round()
    ensures member { (rolls : Bool) (members home : ℕ) (tries : List Try) → home < members
        → IsRoute rolls members home tries → GoesRound members home tries }
    ensures refused { (rolls : Bool) (members home : ℕ) (tries : List Try)
        → IsRoute rolls members home tries → AreRefusedBeforeLast tries }
    ensures begun { (rolls : Bool) (members home : ℕ) (tries : List Try) → home < members
        → IsBegun rolls members home tries → GoesRound members home tries }
{}
