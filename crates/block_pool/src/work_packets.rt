//! How a work is decoded.
ghost use Rattle.std.specs.Prelude.{◌≡◌, IfOk};
ghost use Rattle.tp_layout.specs.Layouts.{taken_in};
ghost use Rattle.tp_layout.specs.Readers.{IsTextOf};
ghost use Rattle.work_queue.specs.Works.{IsLawfulWork};

use frame_view::{Memory, Packets};
use reader_walk::a_text_is_read_as_it_was_written;
use std::alloc::Global;
use tp_layout::{a_shape_is_sound, packets_of};
use work_queue::Work;

/// The packets of a work, copied. The only error is that an allocation fails.
pub fn decode(alloc: Global, work: &Work) -> Result<Packets, Memory>
    requires lawful { IsLawfulWork work.now }
    ensures packets { IfOk result (IsTextOf work.now.shape work.now.text) }
    ensures taken { IfOk result (λ packets.
        packets ≡ (taken_in work.now.shape work.now.text).packets) }
{
    a_text_is_read_as_it_was_written();
    a_shape_is_sound(&work.shape);
    let mut packets = Vec::new(alloc);
    packets_of(work.text.as_slice(), &work.shape).push_copies(alloc, &mut packets)?;
    Ok(Packets::from_vec(packets))
}
