//! The values that follow a setup word.
ghost use Rattle.std.specs.Prelude.{◌≡◌};
ghost use Rattle.setup_text.specs.Answers.{IsRight, is_want};
ghost use Rattle.setup_text.specs.Values.{any_number, bytes_in, count_to, mode_in, name_in};
ghost use Rattle.setup_text.specs.Values.{number_to};

use crate::SetupKind;
use fanout_group::Mode;
use flow_hash::Key;
use hex::FromHex;
use std::alloc::Global;
use tap_outside::Word;

/// The most bytes that the name of a file may have, by this project's own choice.
const LONGEST_NAME: usize = 255;

/// A number of at most `most`.
#[tactic(auto, unfolding(crate::specs::Values::number_to))]
pub(crate) fn number_to(most: u32, word: &[u8]) -> Result<u32, SetupKind>
    ensures { result ≡ number_to most word.now }
{
    match text_lines::number(word) {
        Some(number) if number <= most => Ok(number),
        _ => Err(SetupKind::BadNumber),
    }
}

/// A number of 32 bits.
pub(crate) fn any_number(word: &[u8]) -> Result<u32, SetupKind>
    ensures { result ≡ any_number word.now }
{
    number_to(u32::MAX, word)
}

/// A number from 1 to `most`.
#[tactic(auto, unfolding(crate::specs::Values::count_to))]
pub(crate) fn count_to(most: u32, word: &[u8]) -> Result<u32, SetupKind>
    ensures { result ≡ count_to most word.now }
{
    match number_to(most, word)? {
        0 => Err(SetupKind::BadNumber),
        number => Ok(number),
    }
}

/// The name of a file, or what the names of files begin with.
#[tactic(auto, unfolding(crate::specs::Values::name_in))]
pub(crate) fn name(alloc: Global, word: &[u8]) -> Result<Word, SetupKind>
    ensures { IsRight is_want result (name_in word.now) }
{
    if word.len() > LONGEST_NAME {
        return Err(SetupKind::BadNumber);
    }
    Ok(Word::from_bytes(alloc, word)?)
}

/// A mode of the group.
#[tactic(auto, unfolding(crate::specs::Values::mode_in))]
pub(crate) fn mode(word: &[u8]) -> Result<Mode, SetupKind>
    ensures { result ≡ mode_in word.now }
{
    if word == b"hash".as_slice() {
        Ok(Mode::Hash)
    } else if word == b"lb".as_slice() {
        Ok(Mode::Lb)
    } else if word == b"cpu".as_slice() {
        Ok(Mode::Cpu)
    } else if word == b"rollover".as_slice() {
        Ok(Mode::Rollover)
    } else if word == b"qm".as_slice() {
        Ok(Mode::Qm)
    } else {
        Err(SetupKind::UnknownWord)
    }
}

/// A key of the flow hash.
#[tactic(auto, unfolding(crate::specs::Values::bytes_in))]
pub(crate) fn key(alloc: Global, word: &[u8]) -> Result<Key, SetupKind>
    ensures { IsRight is_want result (bytes_in 40 word.now) }
{
    Ok(Key::from_hex(alloc, word)?)
}

/// The address of a host on the link.
#[tactic(auto, unfolding(crate::specs::Values::bytes_in))]
pub(crate) fn address(word: &[u8]) -> Result<[u8; 6], SetupKind>
    ensures { result ≡ bytes_in 6 word.now }
{
    match <[u8; 6] as FromHex>::from_hex(word) {
        Ok(address) => Ok(address),
        Err(_) => Err(SetupKind::BadNumber),
    }
}
