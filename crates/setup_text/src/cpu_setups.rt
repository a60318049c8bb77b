//! The CPUs of a setup.
use frame_view::ItemList;
use tap_outside::Word;

/// What a setup says about a CPU.
#[derive(Debug, Drop)]
pub struct CpuSetup {
    /// The name of its capture file.
    pub file: Word,
    /// The receive queue on which its frames come.
    pub queue: u32,
}

/// CPUs, from 0 up.
pub type CpuSetupList = ItemList<CpuSetup>;
