//! Where the members of a group are given their packets.
ghost use Rattle.std.specs.Prelude.{◌≡◌, ◌+◌, ◌≤◌, ℕ, List, [], ◌∷◌, ◌++◌, IfErr, IfOk, OnErr};
ghost use Rattle.std.specs.Prelude.{OnOk};
ghost use Rattle.fanout_group.specs.Desks.{HandsBack, TakesTheSame, fate_of_put, fate_of_try};
ghost use Rattle.fanout_group.specs.Routes.{a_try};
ghost use Rattle.fanout_group.specs.declared.logs.Try.{Try};
ghost use Rattle.ring_model.specs.declared.notes.Offer.{Offer};

use ring_model::{Offer, Put, Tried, Unput};

/// The members of a group, as deliveries find them. Contracts see which offers a member takes, for
/// how many tries there is room, and which tries made the one desk of the other.
pub trait Desk {
    // Whether the member of a number takes an offer. No call changes that.
    ghost takes: { Self → ℕ → Offer → Type 0 };

    // Whether there is room for n more tries, whatever their results.
    ghost room: { Self → ℕ → Type 0 };

    // These tries of the offer, in order, made the second desk of the first.
    ghost made: { Offer → List Try → Self → Self → Type 0 };

    /// Offers a packet to a member, which keeps it, or refuses it and is as it was; then the offer
    /// comes back. `Unput` means that memory ran out; it hands the offer back too, and no try was
    /// made. There may be no room for another try then.
    fn try_put(&mut self, member: u32, offer: Offer) -> Result<Tried, Unput>
        requires takes { takes self.old member offer }
        requires room { room self.old 1 }
        ensures made { IfOk result (λ answer.
            made offer (a_try member (fate_of_try answer) ∷ []) self.old self.new) }
        ensures back { IfOk result (λ answer. HandsBack offer answer) }
        ensures room { OnOk result ((n : ℕ) → room self.old (n + 1) → room self.new n) }
        ensures unput { IfErr result (λ unput. unput.offer ≡ offer) }
        ensures err { OnErr result (made offer [] self.old self.new) }
        ensures same { TakesTheSame (takes self.old) (takes self.new) };

    /// Gives a packet to a member, which keeps it or drops it. `Unput` means that memory ran out;
    /// it hands the offer back, and no try was made. There may be no room for another try then.
    fn put(&mut self, member: u32, offer: Offer) -> Result<Put, Unput>
        requires takes { takes self.old member offer }
        requires room { room self.old 1 }
        ensures made { IfOk result (λ answer.
            made offer (a_try member (fate_of_put answer) ∷ []) self.old self.new) }
        ensures room { OnOk result ((n : ℕ) → room self.old (n + 1) → room self.new n) }
        ensures unput { IfErr result (λ unput. unput.offer ≡ offer) }
        ensures err { OnErr result (made offer [] self.old self.new) }
        ensures same { TakesTheSame (takes self.old) (takes self.new) };

    // With no try a desk stays as it is.
    ghost none_made: { (offer : Offer) (desk : Self) → made offer [] desk desk };

    // More tries go on from the desk that the first ones made.
    ghost more_made: { (offer : Offer) (tries more : List Try) (first next last : Self)
        → made offer tries first next → made offer more next last
        → made offer (tries ++ more) first last };

    // If there is room for some tries there is room for fewer.
    ghost less_room: { (desk : Self) (less more : ℕ) → less ≤ more → room desk more
        → room desk less };
}
