//! The files that a scenario gives, and the stores that have them.
use crate::cases::Case;
use frame_view::{Memory, MomentList};
use scenario_texts::{parted, repeated_line};
use tap_outside::{MemStore, SureStore};

/// Appends a line with its end.
pub(crate) fn push_line(text: &mut String, line: &str) -> Result<(), Memory> {
    text.push_str(line)?;
    Ok(text.push_str("\n")?)
}

/// Appends a line as often as its last word says, if that is `xN`.
fn push_repeated(text: &mut String, line: &str) -> Result<(), Memory> {
    let (front, times) = repeated_line(line);
    for _ in 0..times {
        push_line(text, front)?;
    }
    Ok(())
}

impl<'a> Case<'a> {
    /// The lines that the scenario says by a word.
    pub(crate) fn text(&self, word: &str) -> Result<String, Memory> {
        let mut text = String::new(self.alloc);
        for value in self.scenario.values(self.alloc, word)?.as_slice() {
            push_repeated(&mut text, value.text)?;
        }
        Ok(text)
    }

    /// The text of the setup.
    fn setup(&self) -> Result<String, Memory> {
        let mut text = self.text("conf")?;
        text.push_str(self.text("with")?.as_str())?;
        text.push_str(if self.dump { "dump yes\n" } else { "" })?;
        Ok(text)
    }

    /// Whether the blocks are dumped.
    pub(crate) fn is_dumped(&self) -> Result<bool, Memory> {
        Ok(self.setup()?.contains("dump yes"))
    }

    /// The bytes of the file of a name.
    pub(crate) fn file_bytes(&self, name: &str) -> Result<Vec<u8>, Memory> {
        let text = match name {
            "conf" => self.setup()?,
            "f.ddd" => self.text("filter")?,
            "sched" => self.text("sched")?,
            "t.txt" => self.text("ticks")?,
            _ => return self.capture(name),
        };
        Ok(text.into_bytes())
    }

    /// The names of the files that are there before the command; the moments only where there are
    /// any.
    fn names(&self) -> Result<Vec<&'a str>, Memory> {
        let mut names = Vec::new(self.alloc);
        names.extend_from_slice(&["conf", "f.ddd", "sched"])?;
        if self.scenario.says("ticks") {
            names.push("t.txt")?;
        }
        self.push_names(&mut names, "pcap")?;
        self.push_names(&mut names, "raw")?;
        Ok(names)
    }

    /// Appends the name that each line of a word says.
    fn push_names(&self, names: &mut Vec<&'a str>, word: &str) -> Result<(), Memory> {
        for value in self.scenario.values(self.alloc, word)?.as_slice() {
            names.push(parted(value.text).0)?;
        }
        Ok(())
    }

    /// The files in a store in memory.
    pub(crate) fn memory_store(&self) -> Result<MemStore, Memory> {
        let (fetches, saves) = (MomentList::new(self.alloc), MomentList::new(self.alloc));
        let mut store = MemStore::new(self.alloc, fetches, saves);
        for name in self.names()?.as_slice() {
            let bytes = self.file_bytes(name)?;
            let failing = MomentList::new(self.alloc);
            store.put(name.as_bytes(), bytes.as_slice(), 1, failing)?;
        }
        Ok(store)
    }

    /// The files in a store that has no fault.
    pub(crate) fn sure_store(&self) -> Result<SureStore, Memory> {
        let mut store = SureStore::new(self.alloc);
        for name in self.names()?.as_slice() {
            store.put(name.as_bytes(), self.file_bytes(name)?.as_slice())?;
        }
        Ok(store)
    }
}
