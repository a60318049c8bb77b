//! Tickets that seats draw in threads of their own, each number once, and a count of the live
//! feeders.
#![tactic(auto)]

mod closed_dealers;
mod dealer;
mod dealer_seat;
mod knowledge;
mod laws;
mod new_dealers;
mod plays;
mod seat_calls;

pub use dealer::Dealer;
pub use dealer_seat::DealerSeat;
pub use knowledge::Hand;
pub use laws::the_dealing_holds;
pub use plays::EachTicketOnce;
