//! The names of the files of a run.
ghost use Rattle.std.specs.Prelude.{◌≡◌, IfOk, ◌++◌, codes};
ghost use Rattle.tap_saving.specs.Files.{file_name};

use frame_view::Memory;
use std::alloc::Global;
use tap_outside::Word;

/// The name of a member's file: the prefix, a dot, the member's number and an ending.
pub(crate) fn file_name(
    alloc: Global,
    prefix: &Word,
    member: usize,
    ending: &str,
) -> Result<Vec<u8>, Memory>
    ensures { IfOk result (λ name. name.items ≡ file_name prefix.now member ending.now) }
{
    let mut name = Vec::new(alloc);
    name.extend_from_slice(prefix.bytes())?;
    let rest = format!(in alloc; ".{member}{ending}")?;
    name.extend_from_slice(rest.as_bytes())?;
    Ok(name)
}

/// The name of the file of what was sent: the prefix and an ending.
pub(crate) fn sent_name(alloc: Global, prefix: &Word) -> Result<Vec<u8>, Memory>
    ensures { IfOk result (λ name. name.items ≡ prefix.now ++ codes ".tx.pcap") }
{
    let mut name = Vec::new(alloc);
    name.extend_from_slice(prefix.bytes())?;
    name.extend_from_slice(b".tx.pcap")?;
    Ok(name)
}
