//! The captures and the other files that a scenario gives, and files made from their frames.
use crate::cases::Case;
use frame_view::Memory;
use scenario_texts::{MOST, bytes_of, count_of, kept_of, number, parted, word_at};

/// Appends fields of 32 bits, in little-endian order.
pub fn push_fields(bytes: &mut Vec<u8>, fields: &[u32]) -> Result<(), Memory> {
    for field in fields {
        bytes.extend_from_slice(&field.to_le_bytes())?;
    }
    Ok(())
}

impl<'a> Case<'a> {
    /// The frame of an index in a capture's words: its length, after the name of its first bytes if
    /// they have one. Each byte after the first ones is the frame's index.
    fn frame_at(&self, words: &str, index: usize) -> Result<Vec<u8>, Memory> {
        let word = word_at(words, index);
        let (name, length) = word.split_once(':').unwrap_or(("", word));
        let mut bytes = bytes_of(self.alloc, self.scenario.value_named("bytes", name))?;
        let rest = number(length).min(262_144).saturating_sub(bytes.len());
        let filler = vec![in self.alloc; u8::try_from(index).unwrap_or(0); rest]?;
        bytes.extend_from_slice(filler.as_slice())?;
        Ok(bytes)
    }

    /// Appends the record of a frame, with at most `most` of its bytes.
    fn push_frame(
        &self,
        bytes: &mut Vec<u8>,
        (words, index): (&str, usize),
        most: usize,
        time: [u32; 2],
    ) -> Result<(), Memory> {
        let frame = self.frame_at(words, index)?;
        let front = frame.as_slice().get(..most).unwrap_or(frame.as_slice());
        let captured = u32::try_from(front.len()).unwrap_or(0);
        let wire = u32::try_from(frame.len()).unwrap_or(0);
        push_fields(bytes, &[time[0], time[1], captured, wire])?;
        Ok(bytes.extend_from_slice(front)?)
    }

    /// Appends the bytes of a capture of frames, in microseconds and little-endian order, and its
    /// tail.
    fn push_capture(&self, bytes: &mut Vec<u8>, name: &str) -> Result<(), Memory> {
        let words = self.scenario.value_named("pcap", name);
        push_fields(bytes, &[0xa1b2_c3d4, 0x0004_0002, 0, 0, 0xffff, 1])?;
        for index in 0..count_of(words) {
            self.push_frame(bytes, (words, index), usize::MAX, [1, 2])?;
        }
        let tail = bytes_of(self.alloc, self.scenario.value_named("tail", name))?;
        Ok(bytes.extend_from_slice(tail.as_slice())?)
    }

    /// Appends the bytes that the scenario says of a file.
    fn push_raw(&self, bytes: &mut Vec<u8>, name: &str) -> Result<(), Memory> {
        for value in self.scenario.values(self.alloc, "raw")?.as_slice() {
            let (first, words) = parted(value.text);
            if first == name {
                bytes.extend_from_slice(bytes_of(self.alloc, words)?.as_slice())?;
            }
        }
        Ok(())
    }

    /// The bytes of a file that is a capture of frames unless its bytes are said, with its cut.
    pub(crate) fn capture(&self, name: &str) -> Result<Vec<u8>, Memory> {
        let mut bytes = Vec::new(self.alloc);
        if self.scenario.names("raw", name) {
            self.push_raw(&mut bytes, name)?;
        } else {
            self.push_capture(&mut bytes, name)?;
        }
        bytes.truncate(number(self.scenario.value_named("cut", name)));
        Ok(bytes)
    }

    /// Appends the records of the frames that a word says.
    fn push_kept(&self, bytes: &mut Vec<u8>, word: &str, time: [u32; 2]) -> Result<(), Memory> {
        let (capture, first, last, most) = kept_of(word);
        let words = self.scenario.frame_words(capture);
        for index in first..last.min(MOST).saturating_add(1) {
            self.push_frame(bytes, (words, index), most, time)?;
        }
        Ok(())
    }

    /// The file of the frames of these words, each at this second and nanosecond.
    pub(crate) fn output(&self, words: &str, time: [u32; 2]) -> Result<Vec<u8>, Memory> {
        let mut bytes = Vec::new(self.alloc);
        push_fields(&mut bytes, &[0xa1b2_3c4d, 0x0004_0002, 0, 0, 262_144, 1])?;
        for word in words.split_whitespace() {
            self.push_kept(&mut bytes, word, time)?;
        }
        Ok(bytes)
    }
}
