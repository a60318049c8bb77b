//! Reassembly, frame by frame.
ghost use Rattle.std.specs.Prelude.{◌≡◌, [], IfErr, IfOk, OnErr, OnOk, length, true};
ghost use Rattle.ip_defrag.specs.Fold.{pass};
ghost use Rattle.ip_defrag.specs.Fragments.{takes_part};

use crate::datagrams::Datagram;
use crate::fragments::Fragment;
use crate::passes::pass;
use crate::{NoPush, Step};
use frame_view::Frame;
use history::History;
use std::alloc::Global;
use std::marker::Model;

/// Reassembles IPv4 datagrams (RFC 791) from fragments. Contracts see it as the list of the frames
/// that it holds, in the order in which they were pushed.
#[derive(Drop)]
pub struct Defrag {
    /// The allocator.
    alloc: Global,
    /// The datagrams with held fragments, in the order in which they were opened.
    datagrams: Vec<Datagram>,
    /// The number of those fragments.
    pending: u32,
    /// The same fragments as one list.
    trace: History<Frame>,
}

impl Model for Defrag {
    ghost use Rattle.std.specs.Prelude.{List};
    ghost use Rattle.frame_view.specs.declared.frames.Frame.{Frame};

    ghost Value = { List Frame };

    ghost use Rattle.ip_defrag.specs.Grouped.{AreGroups};

    ghost view = { λ defrag. defrag.trace.items };

    ghost invariant = { λ defrag.
        AreGroups defrag.datagrams.items defrag.trace.items defrag.pending };
}

impl Defrag {
    /// Without a fragment. It takes no memory.
    #[tactic(auto, unfolding(crate::specs::Grouped::groups))]
    pub fn new(alloc: Global) -> Defrag
        ensures { result ≡ [] }
    {
        Defrag {
            alloc,
            datagrams: Vec::new(alloc),
            pending: 0,
            trace: History::new(),
        }
    }

    /// Pushes a frame: one step of the pass over the held frames. One that takes no part in
    /// reassembly comes out as it is. A fragment is held, or given up, or completes its datagram,
    /// which comes out with the CPU, the index and the time of this frame.
    ///
    /// What names a datagram and when it is whole is RFC 791. This project's own choices are that a
    /// datagram of 30 seconds is given up, that at most 64 are held, and what copies, overlaps and
    /// ends that contradict each other do. After `NoPush` the frame is handed back and nothing has
    /// changed; a frame that takes no part never runs out of memory.
    pub fn push(&mut self, frame: Frame) -> Result<Step, NoPush>
        ensures held { OnOk result (self.new ≡ (pass self.old frame).held) }
        ensures whole { IfOk result (λ step. step.whole ≡ (pass self.old frame).whole) }
        ensures discarded { IfOk result (λ step. step.discarded ≡ (pass self.old frame).discarded) }
        ensures unchanged { OnErr result (self.new ≡ self.old) }
        ensures handed_back { IfErr result (λ no. no.frame ≡ frame) }
        ensures only_fragments { IfErr result (λ no. takes_part frame ≡ true) }
    {
        let fragment = match Fragment::read(frame) {
            Ok(fragment) => fragment,
            Err(frame) => {
                return Ok(Step {
                    whole: Some(frame),
                    discarded: 0,
                });
            }
        };
        let trace = History::of(&self.trace, fragment.frame());
        let step = pass(
            self.alloc,
            &self.trace,
            &mut self.datagrams,
            &mut self.pending,
            fragment,
        )?;
        self.trace = trace;
        Ok(step)
    }

    /// The number of fragments that are held.
    pub fn pending(&self) -> u32
        ensures { result ≡ length self.now }
    {
        self.pending
    }
}
