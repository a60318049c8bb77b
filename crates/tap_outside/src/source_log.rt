//! What a store records of its sources.
ghost use Rattle.std.specs.Prelude.{◌≡◌};
ghost use Rattle.tap_outside.specs.Seen.{and_closed, and_opened, entry_of, missed_entry};
ghost use Rattle.tap_outside.specs.Seen.{no_sources};

use crate::{History, Source};
use std::marker::Model;

/// The sources that a store handed out and took back, for contracts alone: it takes no memory, and
/// its calls do nothing when they run. Contracts see the name of each source that was opened, and
/// an entry for each that was closed and for each fetch that failed.
#[derive(Debug, Drop)]
pub struct SourceLog<I: Source> {
    /// The names of the sources that were opened.
    opened: History<History<u8>>,
    /// The sources that were closed, and the name of each fetch that failed.
    closed: History<Result<I, History<u8>>>,
}

impl<I: Source> Model for SourceLog<I> {
    ghost use Rattle.std.specs.Prelude.{map};
    ghost use Rattle.tap_outside.specs.Records.{kept_entry};
    ghost use Rattle.tap_outside.specs.Seen.{SourcesSeen};

    ghost Value = { SourcesSeen };

    ghost view = { λ log. record {
      opened = map (λ name. name.items) log.opened.items;
      closed = map (kept_entry I.seen (λ name. name.items)) log.closed.items;
    } };
}

impl<I: Source> SourceLog<I> {
    /// The record of a store before its first fetch.
    pub fn new() -> SourceLog<I>
        ensures { result ≡ no_sources }
    {
        SourceLog {
            opened: History::new(),
            closed: History::new(),
        }
    }

    /// A fetch of this name succeeded.
    pub fn opened(&mut self, name: &[u8])
        ensures { self.new ≡ and_opened self.old name.now }
    {
        let mut its_name = History::new();
        its_name.extend(name);
        self.opened.push(&its_name);
    }

    /// A fetch of this name failed.
    pub fn missed(&mut self, name: &[u8])
        ensures { self.new ≡ and_closed self.old (missed_entry name.now) }
    {
        let mut its_name = History::new();
        its_name.extend(name);
        self.closed.push(&Err(its_name));
    }

    /// A source came back.
    pub fn closed(&mut self, source: I)
        ensures { self.new ≡ and_closed self.old (entry_of (I.seen source)) }
    {
        self.closed.push(&Ok(source));
    }
}
