//! What a run is made of.
ghost use Rattle.setup_text.specs.Runnable.{IsRunnable};

use crate::Setup;
use bpf_filter::Program;

/// A run's setup, and the program of its filter.
#[derive(Drop)]
pub struct Job {
    /// The setup, with 1 to 8 CPUs.
    pub setup: Setup,
    /// The program of the setup's filter, if it names one.
    pub program: Option<Program>,
    // A run has all that it needs of the setup (`a_setup_with_cpus_can_be_run`).
    pub ghost runnable: { IsRunnable setup },
}
