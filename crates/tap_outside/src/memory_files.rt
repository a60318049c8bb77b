//! Named files in memory, under the stores that keep them there.
ghost use Rattle.std.specs.Prelude.{◌≡◌, ◌≤◌, bytes_eq, option_copied, IfOk, OnOk, OnErr, position};
ghost use Rattle.tap_outside.specs.Stores.{PutsFile, file_of, file_with, source_of};

use crate::MemSource;
use frame_view::{ByteList, Memory, MomentList};
use std::alloc::Global;
use std::marker::Model;

/// A file in memory, and how its reads behave.
#[derive(Debug, Drop)]
pub(crate) struct MemFile {
    name: ByteList,
    /// What the name holds.
    bytes: ByteList,
    /// The most bytes that one read gives, at least 1.
    piece: usize,
    /// The numbers of the reads that fail, from 1.
    failing: MomentList,
}

impl Model for MemFile {
    ghost use Rattle.std.specs.Prelude.{◌≤◌};
    ghost use Rattle.tap_outside.specs.Stores.{HeldFile};

    ghost Value = { HeldFile };

    ghost view = { λ file. record {
      name = file.name;
      bytes = file.bytes;
      piece = file.piece;
      failing = file.failing;
    } };

    ghost invariant = { λ file. 1 ≤ file.piece };
}

impl MemFile {
    /// A file with a copy of a name and of bytes.
    pub(crate) fn new(
        alloc: Global,
        name: &[u8],
        bytes: &[u8],
        piece: usize,
        failing: MomentList,
    ) -> Result<MemFile, Memory>
        requires { 1 ≤ piece }
        ensures { IfOk result (λ file. file ≡ file_with name.now bytes.now piece failing) }
    {
        Ok(MemFile {
            name: ByteList::from_vec(name.to_vec(alloc)?),
            bytes: ByteList::from_vec(bytes.to_vec(alloc)?),
            piece,
            failing,
        })
    }

    /// The name of the file, borrowed.
    fn name(&self) -> &[u8]
        ensures { result.now ≡ self.now.name }
    {
        self.name.as_slice()
    }

    /// The bytes of the file, borrowed.
    pub(crate) fn bytes(&self) -> &[u8]
        ensures { result.now ≡ self.now.bytes }
    {
        self.bytes.as_slice()
    }

    /// A source of a copy of the file.
    pub(crate) fn open(&self, alloc: Global) -> Result<MemSource, Memory>
        ensures { IfOk result (λ input. input ≡ source_of self.now) }
    {
        let bytes = ByteList::from_vec(self.bytes.as_slice().to_vec(alloc)?);
        let failing = MomentList::from_vec(self.failing.as_slice().to_vec(alloc)?);
        let mut source = MemSource::new(bytes, self.piece, failing);
        source.set_name(self.name());
        Ok(source)
    }
}

/// The file of a name.
pub(crate) fn file_named<'a>(files: &'a [MemFile], name: &[u8]) -> Option<&'a MemFile>
    ensures { option_copied result ≡ file_of files.now name.now }
{
    files.iter().find(|file| file.name() == name)
}

/// The place of the file of a name.
fn place_of(files: &[MemFile], name: &[u8]) -> Option<usize>
    ensures { result ≡ position (λ file. bytes_eq file.name name.now) files.now }
{
    files.iter().position(|file| file.name() == name)
}

/// Puts a file under its name, in place of the one that was there. After `Memory` the files are as
/// before.
pub(crate) fn put_file(files: &mut Vec<MemFile>, file: MemFile) -> Result<(), Memory>
    ensures ok { OnOk result (PutsFile files.old.items files.new.items file) }
    ensures err { OnErr result (files.new.items ≡ files.old.items) }
{
    match place_of(files.as_slice(), file.name()) {
        Some(at) => files[at] = file,
        None => files.push(file)?,
    }
    Ok(())
}
