//! Laws of the logs, notes and tickets that threads leave, each the contract of a function that
//! does nothing.
ghost use Rattle.std.specs.Prelude.{◌≡◌, ◌++◌, ◌∷◌, ℕ, List, [], Option, length};
ghost use Rattle.capture_reports.specs.Seats.{IsSeatRun};
ghost use Rattle.capture_reports.specs.Threads.{AreThreads};
ghost use Rattle.capture_reports.specs.Ticks.{NoneCounted, ticks_of};
ghost use Rattle.capture_reports.specs.Tried.{IsDelivered};
ghost use Rattle.fanout_group.specs.Joined.{AreNotesOf, Logged, attempts_at};
ghost use Rattle.fanout_group.specs.Once.{IsGroupReport};
ghost use Rattle.fanout_group.specs.Rules.{Rules};
ghost use Rattle.fanout_group.specs.declared.logs.ArrivalLog.{ArrivalLog};
ghost use Rattle.frame_view.specs.declared.frames.Frame.{Frame};
ghost use Rattle.member_turns.specs.Entries.{may_add};
ghost use Rattle.ring_model.specs.declared.notes.Note.{Note};
ghost use Rattle.ticket_dealer.specs.Seats.{SeatValue};
ghost use Rattle.turn_lock.specs.Histories.{own};

/// What threads leave is the report of a group: if each log is lawful, each seat added one note for
/// each try of its log, and the tickets of the logs are those that the dealer gave, then logs and
/// notes are joined.
pub fn threads_report_a_group()
    ensures { (rules : Rules) (room : ℕ) (cpus : List Logged) (seats : List SeatValue) (number : ℕ)
        (members : List (List Note)) → AreThreads rules room cpus seats number members
        → IsGroupReport rules room cpus members }
{}

/// The ticks among a member's notes are those that the timer added, in order, and no statistics
/// were taken.
pub fn the_timer_s_ticks_are_all()
    ensures ticks { (cpus : ℕ) (notes : List Note) → IsSeatRun cpus notes
        → ticks_of notes ≡ ticks_of (own (may_add cpus) cpus notes) }
    ensures counted { (cpus : ℕ) (notes : List Note) → IsSeatRun cpus notes → NoneCounted notes }
{}

/// A delivery adds to a seat's own notes those of its tries at the seat's member: they are still
/// the notes of the log's attempts there.
pub fn a_delivery_adds_its_notes()
    ensures { (room : ℕ) (address : Option (List ℕ)) (member : ℕ) (arrivals : List Frame)
        (log : List ArrivalLog) (mine : List Note) (arrival : Frame) (entry : ArrivalLog)
        (notes : List Note) → AreNotesOf room address (attempts_at member arrivals log) mine
        → length arrivals ≡ length log → IsDelivered room address member arrival entry notes
        → AreNotesOf room address
        (attempts_at member (arrivals ++ arrival ∷ []) (log ++ entry ∷ [])) (mine ++ notes) }
{}

/// An arrival that made no try adds no note.
pub fn a_skipped_arrival_adds_none()
    ensures { (room : ℕ) (address : Option (List ℕ)) (member : ℕ) (arrivals : List Frame)
        (log : List ArrivalLog) (mine : List Note) (arrival : Frame) (entry : ArrivalLog)
        → AreNotesOf room address (attempts_at member arrivals log) mine
        → length arrivals ≡ length log → entry.tries ≡ []
        → AreNotesOf room address
        (attempts_at member (arrivals ++ arrival ∷ []) (log ++ entry ∷ [])) mine }
{}
