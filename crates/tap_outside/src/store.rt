//! Stores of named files.
ghost use Rattle.std.specs.Prelude.{◌≡◌, ◌<◌, [], ℕ, List, None, IsTrue, IfOk, OnOk};
ghost use Rattle.tap_outside.specs.Counts.{Rose};
ghost use Rattle.tap_outside.specs.Outcomes.{OnFailed, OnMemory};
ghost use Rattle.tap_outside.specs.Contents.{GivesFile, HoldsFile};
ghost use Rattle.tap_outside.specs.Seen.{OnlyReads, OnlySaves, StoreSeen, and_closed, and_opened};
ghost use Rattle.tap_outside.specs.Seen.{entry_of, missed_entry};

use crate::pieces::gathered;
use crate::{OutError, Pieces, Source};
use std::alloc::Global;

/// Files by their names. Contracts see what each name holds, if the store reports it, which names
/// are meant for reading and which for saving, which sources were opened, an entry for each that
/// was closed, with its name, the bytes that it gave and whether a read of it failed, and the
/// numbers of faults of reading and of saving, which never fall and saturate at `u64::MAX`.
/// No call changes what a name is meant for. Code that is generic over the store learns that a name
/// is meant from its own caller, or from a store that doesn't report what it holds.
///
/// A call that fails has raised its count. An exact store counts nothing else; another one may
/// count a fault and still succeed.
pub trait Store {
    /// The source by which a fetched file is read.
    type Input: Source + Send;

    ghost seen: { Self → StoreSeen };

    /// A source of what a name holds, or of nothing if the name isn't held; a store may count such
    /// a name as a fault of reading. It changes nothing except the count, and that of an exact
    /// store only if it fails, and the record: one source more is opened, under this name, or where
    /// it fails there is one entry more, without a byte.
    fn fetch(&mut self, name: &[u8]) -> Result<Self::Input, OutError>
        requires { IsTrue ((seen self.old).to_read name.now) }
        ensures left { IfOk result (λ input.
            GivesFile (seen self.old).held name.now (Self.Input.seen input).left) }
        ensures fresh { IfOk result (λ input. (Self.Input.seen input).faults ≡ 0) }
        ensures unread { IfOk result (λ input. (Self.Input.seen input).given ≡ []) }
        ensures named { IfOk result (λ input. (Self.Input.seen input).name ≡ name.now) }

        ensures only { OnlyReads (seen self.old) (seen self.new) }
        ensures opened { OnOk result
            ((seen self.new).sources ≡ and_opened (seen self.old).sources name.now) }
        ensures missed { OnFailed result ((seen self.new).sources
            ≡ and_closed (seen self.old).sources (missed_entry name.now)) }
        ensures faultless { OnOk result (IsTrue (seen self.old).exact →
            (seen self.new).read_faults ≡ (seen self.old).read_faults) }
        ensures cause { OnFailed result
            (Rose (seen self.old).read_faults (seen self.new).read_faults) }
        ensures memory { OnMemory result (seen self.new ≡ seen self.old) };

    /// Takes a source back, and records its name, what it gave and whether a read of it failed.
    /// The faults of reading rise exactly if the source had one.
    fn close(&mut self, input: Self::Input)
        ensures only { OnlyReads (seen self.old) (seen self.new) }
        ensures closed { (seen self.new).sources
            ≡ and_closed (seen self.old).sources (entry_of (Self.Input.seen input)) }
        ensures faultless { (Self.Input.seen input).faults ≡ 0 →
            (seen self.new).read_faults ≡ (seen self.old).read_faults }
        ensures faulty { 0 < (Self.Input.seen input).faults →
            Rose (seen self.old).read_faults (seen self.new).read_faults };

    /// Makes a name hold these bytes. After `Failed` the name may hold anything. The count of an
    /// exact store rises only then.
    fn save(&mut self, name: &[u8], bytes: &[u8]) -> Result<(), OutError>
        requires { IsTrue ((seen self.old).to_save name.now) }
        ensures saved { OnOk result (HoldsFile (seen self.new).held name.now bytes.now) }

        ensures only { OnlySaves (seen self.old) (seen self.new) name.now }
        ensures faultless { OnOk result (IsTrue (seen self.old).exact →
            (seen self.new).save_faults ≡ (seen self.old).save_faults) }
        ensures cause { OnFailed result
            (Rose (seen self.old).save_faults (seen self.new).save_faults) }
        ensures memory { OnMemory result (seen self.new ≡ seen self.old) };

    /// Makes a name hold the bytes that are left of some pieces, as `save` does with bytes that are
    /// in memory. Unless a store says otherwise it gathers them and saves them; real files are
    /// written a piece at a time.
    fn save_pieces<P: Pieces + Drop>(
        &mut self,
        alloc: Global,
        name: &[u8],
        pieces: P,
    ) -> Result<(), OutError>
        requires { IsTrue ((seen self.old).to_save name.now) }
        ensures saved { OnOk result (HoldsFile (seen self.new).held name.now (P.left pieces)) }

        ensures only { OnlySaves (seen self.old) (seen self.new) name.now }
        ensures faultless { OnOk result (IsTrue (seen self.old).exact →
            (seen self.new).save_faults ≡ (seen self.old).save_faults) }
        ensures cause { OnFailed result
            (Rose (seen self.old).save_faults (seen self.new).save_faults) }
        ensures memory { OnMemory result (seen self.new ≡ seen self.old) }
    {
        let bytes = gathered(alloc, pieces)?;
        self.save(name, bytes.as_slice())
    }

    // If the store doesn't report what it holds, every name is meant for both.
    ghost untold_reads: { (store : Self) (name : List ℕ) →
        (seen store).held ≡ None → IsTrue ((seen store).to_read name) };

    ghost untold_saves: { (store : Self) (name : List ℕ) →
        (seen store).held ≡ None → IsTrue ((seen store).to_save name) };
}
