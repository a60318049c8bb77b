//! Laws about the schedule of a reader, each the contract of a function that does nothing.
ghost use Rattle.std.specs.Prelude.{◌≡◌, ◌<◌, ◌≤◌, ◌+◌, ◌*◌, ◌↔◌, ℕ, All, List, Some};
ghost use Rattle.std.specs.List.{filter};
ghost use Rattle.setup_text.specs.TickOrder.{IsSchedule};
ghost use Rattle.setup_text.specs.declared.lines.Line.{Line};
ghost use Rattle.reader_pace.specs.Orders.{ComesBy, IsAwake, RiseFrom, is_feed};
ghost use Rattle.reader_pace.specs.Timelines.{Judged, Timed, block_step, block_steps, end_of};
ghost use Rattle.reader_pace.specs.Timelines.{feeds_of, in_order, pause_step, pause_steps};
ghost use Rattle.reader_pace.specs.Timelines.{schedule_at, steps_of};
ghost use Rattle.reader_pace.specs.Timelines.{tick_at, ticks_by, timeline_of};
ghost use Rattle.reader_pace.specs.declared.readers.PacedReader.{PacedReader};

/// The schedule of a reader is one: its ticks never go back, and no label is above 4,294,967,295,
/// if the phase is below the time-out and the last frame comes no later than such a label can say.
pub fn a_readers_schedule_is_one()
    ensures { (judged : Judged) (reader : PacedReader) (phase from : ℕ) (lines : List Line)
        → phase < judged.tov
        → end_of judged.times + phase * 1000000 ≤ 4294967295 * 1000000
        → schedule_at judged reader phase from ≡ Some lines → IsSchedule lines }
{}

/// Moments never go back along a timeline.
pub fn a_timeline_never_goes_back()
    ensures { (judged : Judged) (reader : PacedReader) (phase from : ℕ) (items : List Timed)
        → timeline_of judged reader phase from ≡ Some items → RiseFrom 0 items }
{}

/// The feeds of a timeline are those of the frames alone, in the order of their moments, and at one
/// moment in the order of their CPUs, whatever the timer and the reader do.
pub fn the_feeds_are_those_of_the_frames()
    ensures { (judged : Judged) (reader : PacedReader) (phase from : ℕ) (items : List Timed)
        → timeline_of judged reader phase from ≡ Some items
        → filter is_feed items ≡ in_order (feeds_of judged.times) }
{}

/// No read is in a stall: at its beginning or after it, and before its end.
pub fn no_read_is_in_a_stall()
    ensures { (judged : Judged) (reader : PacedReader) (phase from : ℕ) (items : List Timed)
        → timeline_of judged reader phase from ≡ Some items → All (IsAwake reader.stalls) items }
{}

/// The ticks and the steps of a timeline are those that come at the last frame's moment or before:
/// none of them is missing, and no other is there.
pub fn the_last_frame_ends_a_timeline()
    ensures ticks { (tov phase number end : ℕ) → phase < tov → 1 ≤ number
        → ComesBy end (tick_at tov phase number) ↔ (number ≤ ticks_by tov phase end) }
    ensures pauses { (period from step end : ℕ) → 0 < period
        → (pause_step period from step ≤ end)
        ↔ (step < steps_of (pause_steps period) from end) }
    ensures blocks { (count from step end : ℕ) → 0 < count
        → (block_step count from step ≤ end) ↔ (step < steps_of (block_steps count) from end) }
{}
