//! A group as the arrivals of a CPU find it: its members, and its tickets.
ghost use Rattle.std.specs.Prelude.{ℕ};
ghost use Rattle.fanout_group.specs.Desks.{TakesTheSame};

use crate::Desk;
use ring_model::Offer;

/// A group as the arrivals of a CPU find it: a desk, and in mode `Lb` the tickets.
pub trait Group: Desk {
    // Whether a ticket may be drawn.
    ghost may_draw: { Self → Type 0 };

    // The draw of this ticket made the second group of the first.
    ghost drew: { ℕ → Self → Self → Type 0 };

    /// Draws the next ticket.
    fn ticket(&mut self) -> u64
        requires may_draw { may_draw self.old }
        ensures drew { drew result self.old self.new }
        ensures room { (n : ℕ) → Self.room self.old n → Self.room self.new n }
        ensures same { TakesTheSame (Self.takes self.old) (Self.takes self.new) };

    /// Is called with each offer right before it is delivered.
    fn announce(&self, offer: &Offer);
}
