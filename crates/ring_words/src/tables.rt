//! A ring between two threads: how it is made, and who owns which block of it.
//!
//! Each place of the ring has a status word and a slot for its block. The feeder looks at the word
//! of the next place. An even word is of its own side: it takes the block out of the slot, fills
//! it, puts it back, and after that stores the block's number and an odd status. From this store on
//! the block is the reader's. The reader looks at the word of the next number. An odd word is of
//! its own side: it takes the block out, reads it, puts it back, and after that stores an even
//! mark. From this store on the block is the feeder's again.
//!
//! A look is one load of one word. Where it finds a word of the other side nothing changes, and the
//! end may look again; the reader may also say that it sleeps, and then sleep on that word until
//! the feeder has stored another and wakes it. So a word is stored only by the side that has the
//! block, and a block is touched by one side only. The feeder may have two blocks in hand, since it
//! opens the next one before it retires the one before; the reader has one.
//!
//! When both threads are done, `finish` joins the two ends, and takes out the blocks that were
//! retired and not taken.
ghost use Rattle.std.specs.Prelude.{◌≡◌, ◌≤◌, ℕ, List, [], length, map, Option, Some, IfOk};
ghost use Rattle.std.specs.List.{AllByRecursion};
ghost use Rattle.ring_words.specs.Knowledge.{all_known};
ghost use Rattle.atomic_table.specs.Table.{State};
ghost use Rattle.ring_words.specs.TableEnds.{fresh_feeder, fresh_walker};
ghost use Rattle.ring_words.specs.Tables.{Course, EachKnows, IsOwnedBy, LooksHold, LooksAreTrue};
ghost use Rattle.ring_words.specs.Tables.{TakesFront, VisitsAreTrue};
ghost use Rattle.ring_words.specs.declared.knowledge.Known.{Known};
ghost use Rattle.std.specs.declared.snapshot.Snapshot.{Snapshot};

use crate::handover::{Handover, RingSeat, RingTable};
use crate::knowledge::{Apart, Known};
use crate::sleepers::Sleeper;
use crate::{Content, TableFeeder, TableWalker};
use atomic_table::{Table, TableRule};
use frame_view::Memory;
use std::alloc::Global;
use std::snapshot::Snapshot;
use std::sync::Arc;

/// The two ends of a ring of these blocks, in the order of its places; each end may go to a thread
/// of its own. The blocks are 2 to 65,536 of one kind.
pub fn table_ring<B: Content + Drop>(
    alloc: Global,
    blocks: Vec<B>,
) -> Result<(TableFeeder<B>, TableWalker<B>), Memory>
    requires some { 2 ≤ length blocks.items }
    requires few { length blocks.items ≤ 65536 }
    requires kind { (kind : List ℕ) × AllByRecursion (λ block. B.kind block ≡ kind) blocks.items }
    ensures feeder { IfOk result (λ ends. ends.0
        ≡ fresh_feeder ends.0.id (length blocks.items) ends.0.kind) }
    ensures walker { IfOk result (λ ends. ends.1
        ≡ fresh_walker ends.0.id (length blocks.items) ends.0.kind) }
    ensures kind { (kind : List ℕ) → AllByRecursion (λ block. B.kind block ≡ kind) blocks.items →
        IfOk result (λ ends. ends.0.kind ≡ kind) }
{
    let places = blocks.len();
    let (table, mut seat) = new_table(alloc, blocks)?;
    let other = table.shared.split_seat::<Apart>(&mut seat);
    let table = Arc::new(alloc, table)?;
    let sleeper = Arc::new(alloc, Sleeper::new())?;
    let feeder = TableFeeder {
        table: Arc::try_clone(&table)?,
        seat,
        places: places as u64,
        given: 0,
        retired: 0,
        sleeper: Arc::try_clone(&sleeper)?,
    };
    let walker = TableWalker {
        table,
        seat: other,
        places: places as u64,
        taken: 0,
        released: 0,
        sleeper,
    };
    Ok((feeder, walker))
}

/// Who owns which block of a ring between two threads, and what its ends know of it. It holds
/// between any two steps on the ring's table: each state of the table meets the rule.
pub fn table_ownership_holds<B: Content + Drop>()
    ensures { (sample : Snapshot B) (state : State (Option B) Known) →
        ⟦<Handover as TableRule<Option<B>, Known, Snapshot<B>>>⟧.holds sample state →
        (course : Course) × IsOwnedBy B.bytes B.kind B.ready (B.kind sample.value) course state
        × EachKnows (B.kind sample.value) course state.views }
{}

/// At each moment the blocks that the reader took are a prefix of those that the feeder retired.
pub fn table_front_holds<B: Content + Drop>()
    ensures { (sample : Snapshot B) (state : State (Option B) Known) →
        ⟦<Handover as TableRule<Option<B>, Known, Snapshot<B>>>⟧.holds sample state →
        TakesFront state.views }
{}

/// A look finds the word that is at the place. So no body is free to answer `Held` or `None`: any
/// step that adds an odd word to what the feeder's end knows, or an even one to what the reader's
/// end knows, is made while that word is at the place of the next block.
pub fn table_looks_hold<B: Content + Drop>()
    ensures looks { (sample : Snapshot B) (before after : State (Option B) Known) →
        ⟦<Handover as TableRule<Option<B>, Known, Snapshot<B>>>⟧.holds sample before →
        ⟦<Handover as TableRule<Option<B>, Known, Snapshot<B>>>⟧.holds sample after →
        LooksAreTrue before after }
    ensures visits { (sample : Snapshot B) (before after : State (Option B) Known) →
        ⟦<Handover as TableRule<Option<B>, Known, Snapshot<B>>>⟧.holds sample before →
        ⟦<Handover as TableRule<Option<B>, Known, Snapshot<B>>>⟧.holds sample after →
        VisitsAreTrue before after }
    ensures seen { (sample : Snapshot B) (state : State (Option B) Known) →
        ⟦<Handover as TableRule<Option<B>, Known, Snapshot<B>>>⟧.holds sample state →
        LooksHold (length state.homes) state.views }
{}

/// A table with these blocks at its places, each with the word 0, and the seat of both ends.
fn new_table<B: Content + Drop>(
    alloc: Global,
    blocks: Vec<B>,
) -> Result<(RingTable<B>, RingSeat<B>), Memory>
    requires some { 2 ≤ length blocks.items }
    requires kind { (kind : List ℕ) × AllByRecursion (λ block. B.kind block ≡ kind) blocks.items }
    ensures words { IfOk result (λ made. made.0.shared.table_id.words ≡ length blocks.items) }
    ensures slots { IfOk result (λ made. made.0.shared.table_id.slots ≡ length blocks.items) }
    ensures seat { IfOk result (λ made. made.1.table_id ≡ made.0.shared.table_id) }
    ensures known { IfOk result (λ made.
        made.1.me ≡ (all_known (B.kind made.0.shared.key.value), [])) }
    ensures kind { (kind : List ℕ) → AllByRecursion (λ block. B.kind block ≡ kind) blocks.items →
        IfOk result (λ made. B.kind made.0.shared.key.value ≡ kind) }
{
    let sample = Snapshot::of(&blocks[0]);
    let words = vec![in alloc; 0u64; blocks.len()]?;
    let homes = at_home(alloc, blocks)?;
    match Table::new(alloc, words.as_slice(), homes, &sample) {
        Ok(made) => Ok(made),
        Err(_) => Err(Memory),
    }
}

/// Each block in a slot.
fn at_home<B: Drop>(alloc: Global, blocks: Vec<B>) -> Result<Vec<Option<B>>, Memory>
    ensures { IfOk result (λ homes. homes.items ≡ map Some blocks.items) }
{
    let homes: Vec<Option<B>> = blocks.into_iter().map(|block| Some(block)).collect(alloc)?;
    Ok(homes)
}
