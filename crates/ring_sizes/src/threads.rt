//! On how many threads phases are tried.
ghost use Rattle.std.specs.Prelude.{◌≤◌};

use std::thread::{Threads, available_parallelism};

/// The most threads that share phases.
const MOST_THREADS: usize = 8;

/// As many threads as there are processors, and at most eight.
pub(crate) fn thread_count<R: Threads>(rt: &R) -> u32
    ensures { result ≤ 8 }
{
    match available_parallelism(rt) {
        Ok(count) => count.get().min(MOST_THREADS) as u32,
        Err(_) => 1,
    }
}
