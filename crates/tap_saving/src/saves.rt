//! Planned files, saved one after another.
ghost use Rattle.std.specs.Prelude.{IfOk, IsTrue, OnErr};
ghost use Rattle.std.specs.List.{AllByRecursion};
ghost use Rattle.tap_saving.specs.Saves.{Saved, SavedSome, Touches};
ghost use Rattle.tap_saving.specs.inside.Plans.{HaveOwnNames, names_of};

use crate::planned_file::PlannedFile;
use frame_view::Memory;
use std::alloc::Global;
use tap_outside::Store;

/// Saves files, each even if one before it failed, and returns whether all were saved.
pub(crate) fn save_files<S: Store>(
    alloc: Global,
    files: &[PlannedFile],
    store: &mut S,
) -> Result<bool, Memory>
    requires meant { AllByRecursion (λ file. IsTrue ((S.seen store.old).to_save file.name))
        files.now }
    requires own { HaveOwnNames files.now }
    ensures touches { Touches (S.seen store.old) (S.seen store.new) (names_of files.now) }
    ensures saved { IfOk result (λ all.
        Saved (S.seen store.old) (S.seen store.new) files.now all) }
    ensures early { OnErr result
        (SavedSome (S.seen store.old) (S.seen store.new) files.now) }
{
    let mut all = true;
    for file in files {
        let saved = file.save(alloc, store)?;
        all &= saved;
    }
    Ok(all)
}
