//! What all threads of a run share.

use fanout_group::Dealer;
use member_turns::Member;
use setup_text::Job;
use std::alloc::Global;

/// What all threads of a run share.
#[derive(Drop)]
pub(crate) struct Shared<'a, G> {
    /// Allocates what the feeders make.
    pub(crate) alloc: Global,
    /// The job that is run.
    pub(crate) job: &'a Job,
    /// The moments, in milliseconds.
    pub(crate) moments: &'a [u64],
    /// The members, from 0 up.
    pub(crate) members: &'a [Member],
    /// Deals tickets, and counts the live feeders.
    pub(crate) dealer: &'a Dealer,
    /// Where a test may hold a thread.
    pub(crate) gate: &'a G,
}
