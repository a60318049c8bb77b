//! The file of what was sent.
ghost use Rattle.std.specs.Prelude.{◌≡◌, [], ◌∷◌, IfOk, IsTrue, OnErr};
ghost use Rattle.tap_saving.specs.Files.{CanBeOutput, sent_file, sent_name};
ghost use Rattle.tap_saving.specs.Saves.{Saved, Touches};

use crate::names::sent_name;
use crate::planned_file::PlannedFile;
use frame_view::{Memory, Packets};
use setup_text::Setup;
use std::alloc::Global;
use tap_outside::Store;

/// Saves the packets that were sent, as a capture file whose name is the setup's prefix and
/// `.tx.pcap`. It returns whether the file was saved. If memory runs out the store is as before.
/// The name is this project's own choice.
pub fn save_sent<S: Store>(
    alloc: Global,
    setup: &Setup,
    packets: &Packets,
    store: &mut S,
) -> Result<bool, Memory>
    requires meant { IsTrue ((S.seen store.old).to_save (sent_name setup.now)) }
    requires short { CanBeOutput packets.now }
    ensures touches { Touches (S.seen store.old) (S.seen store.new) (sent_name setup.now ∷ []) }
    ensures saved { IfOk result (λ all. Saved (S.seen store.old) (S.seen store.new)
        (sent_file setup.now packets.now ∷ []) all) }
    ensures memory { OnErr result (S.seen store.new ≡ S.seen store.old) }
{
    let file = PlannedFile::capture(sent_name(alloc, &setup.prefix)?, packets);
    file.save(alloc, store)
}
