//! The two ends of a ring: the feeder fills blocks and retires them, the reader takes them and
//! releases them.
//!
//! Each place of a ring has one status word. On the feeder's side it is an even mark below 256, on
//! the reader's side the number of the block times 256 and the odd status that it was retired with
//! (TP_STATUS_KERNEL and TP_STATUS_USER of `linux/if_packet.h` are 0 and 1; that a word has the
//! block's number is this project's own choice).
ghost use Rattle.std.specs.Prelude.{◌≡◌, ◌+◌, ◌<◌, ◌≤◌, ◌^◌, ℕ, true, false, List, [], ◌∷◌, ◌++◌};
ghost use Rattle.std.specs.Prelude.{Some, IfSome, IfNone, OnSome};
ghost use Rattle.ring_words.specs.Counts.{Rose};
ghost use Rattle.ring_words.specs.Looks.{IfFree, IfHeld, OnFree, OnHeld, IsOneRoundBefore};
ghost use Rattle.ring_words.specs.Rings.{Feed, IsMark, IsStatus, LeavesFeeder, Walk, and_found};

use crate::Content;

/// What a look at the status word of the next place found.
#[derive(Debug, Drop)]
pub enum Next<B> {
    /// The block at that place, which is the feeder's from now on.
    Free {
        block: B,
        /// The word, which is even and below 256.
        mark: u32,
    },
    /// The block at that place is still the reader's; it has this number.
    Held(u64),
}

/// The feeder's end of a ring.
pub trait FeederEnd<B: Content> {
    // What the end reports of its ring, of the blocks that it was given and retired, and of what it
    // represents.
    ghost feed: { Self → Feed };

    // A look between the two states, the earlier one first, found a block of this content at the
    // next place, and this mark as the word there.
    ghost found_free: { Self → Self → List ℕ → ℕ → Type 0 };

    /// Looks once at the status word of the next place, and takes the block there if it is free.
    /// The next place is that of the number one above the last block's. Where it isn't free nothing
    /// changes, but the look is counted.
    fn next(&mut self) -> Next<B>
        requires hand { (feed self.old).given ≤ (feed self.old).retired + 1 }
        requires room { (feed self.old).given + 1 < (feed self.old).ring.bound }

        ensures block { IfFree result (λ block mark. B.kind block ≡ (feed self.old).ring.kind) }
        ensures mark { IfFree result (λ block mark. IsMark mark) }
        ensures found { IfFree result (λ block mark.
            found_free self.old self.new (B.bytes block) mark) }
        ensures free { OnFree result
            (feed self.new ≡ record (feed self.old) { given = (feed self.old).given + 1 }) }

        ensures number { IfHeld result
            (IsOneRoundBefore (feed self.old).ring.places ((feed self.old).given + 1)) }
        ensures held { OnHeld result
            (feed self.new ≡ record (feed self.old) {
              holds = (feed self.new).holds;
              found = (feed self.new).found;
            }) }
        ensures looked { OnHeld result (Rose (feed self.old).holds (feed self.new).holds) }
        ensures once { OnHeld result ((feed self.new).holds ≤ (feed self.old).holds + 1) }
        ensures later { (feed self.old).holds ≤ (feed self.new).holds }

        // Where the end reports the numbers that its looks found, this one comes last, and the
        // first look finds none.
        ensures told { IfHeld result (λ number.
            (feed self.new).found ≡ and_found number (feed self.old).found) }
        ensures first { (numbers : List ℕ) → (feed self.old).found ≡ Some numbers →
            (feed self.old).given ≡ 0 → numbers ≡ [] }

        // Where the end reports how many blocks were released, each answer is exact.
        ensures exact_free { (released : ℕ) → (feed self.old).freed ≡ Some released →
            OnFree result ((feed self.old).given + 1 ≤ released + (feed self.old).ring.places) }
        ensures exact_held { (released : ℕ) → (feed self.old).freed ≡ Some released →
            OnHeld result (released + (feed self.old).ring.places < (feed self.old).given + 1) };

    /// Hands the older block in hand over to the reader, with this content, its number and a status
    /// that is odd and below 256.
    fn retire(&mut self, block: B, status: u32)
        requires hand { (feed self.old).retired < (feed self.old).given }
        requires status { IsStatus status }
        requires kind { B.kind block ≡ (feed self.old).ring.kind }
        requires ready { B.ready block ((feed self.old).retired + 1) status }

        ensures retired { feed self.new ≡ record (feed self.old) {
          retired = (feed self.old).retired + 1;
          shown = (feed self.old).shown ++ (B.bytes block, status) ∷ [];
        } };

    // A ring goes on for at least this number of blocks.
    ghost far: { (end : Self) → 2 ^ 40 ≤ (feed end).ring.bound };
}

/// The reader's end of a ring.
pub trait WalkerEnd<B: Content> {
    // What the end reports of its ring and of the blocks that it took.
    ghost walk: { Self → Walk };

    // A block of this content was taken between the two states, the earlier one first.
    ghost took: { Self → Self → List ℕ → Type 0 };

    // A block of this content was given back between the two states, the earlier one first, with
    // this word.
    ghost gave_back: { Self → Self → List ℕ → ℕ → Type 0 };

    // All is the same in the two states, except for the count of looks that found nothing.
    ghost stays: { Self → Self → Type 0 };

    /// Looks once at the status word of the next block to be read, and takes the block if it was
    /// retired. Where it wasn't nothing changes, but the look is counted.
    fn take(&mut self) -> Option<B>
        requires hand { (walk self.old).in_hand ≡ false }

        ensures took { IfSome result (λ block. took self.old self.new (B.bytes block)) }
        ensures ready { IfSome result
            (λ block. (number : ℕ) × (status : ℕ) × B.ready block number status) }
        ensures kind { IfSome result (λ block. B.kind block ≡ (walk self.old).ring.kind) }
        ensures some { OnSome result (walk self.new ≡ record (walk self.old) {
          in_hand = true;
          taken = (walk self.old).taken + 1;
          waiting = (walk self.new).waiting;
        }) }
        ensures few { OnSome result ((walk self.new).taken < (walk self.old).ring.bound) }

        ensures stays { IfNone result (stays self.old self.new) }
        ensures none { IfNone result
            (walk self.new ≡ record (walk self.old) { empties = (walk self.new).empties }) }
        ensures looked { IfNone result (Rose (walk self.old).empties (walk self.new).empties) }
        ensures once { IfNone result ((walk self.new).empties ≤ (walk self.old).empties + 1) }
        ensures later { (walk self.old).empties ≤ (walk self.new).empties }

        // Where the end reports how many blocks wait, each answer is exact.
        ensures exact_some { (blocks : ℕ) → (walk self.old).waiting ≡ Some blocks →
            OnSome result (0 < blocks) }
        ensures exact_none { (blocks : ℕ) → (walk self.old).waiting ≡ Some blocks →
            IfNone result (blocks ≡ 0) };

    /// Gives the block in hand back to the feeder's side, with this word, which is even and
    /// below 256.
    fn release(&mut self, block: B, mark: u32)
        requires hand { (walk self.old).in_hand ≡ true }
        requires mark { IsMark mark }
        requires kind { B.kind block ≡ (walk self.old).ring.kind }

        ensures released { walk self.new ≡ record (walk self.old) { in_hand = false } }
        ensures gave_back { gave_back self.old self.new (B.bytes block) mark }
        ensures took { (before : Self) (content : List ℕ) →
            took before self.old content → took before self.new content };
}

/// Both ends of a ring in one value. What the reader's side does leaves the feeder's side as it is.
pub trait BothEnds<B: Content>: FeederEnd<B> + WalkerEnd<B> {
    ghost took_leaves: { (before after : Self) (content : List ℕ) →
        Self.took before after content → LeavesFeeder (Self.feed before) (Self.feed after) };

    ghost gave_back_leaves: { (before after : Self) (content : List ℕ) (mark : ℕ) →
        Self.gave_back before after content mark →
        LeavesFeeder (Self.feed before) (Self.feed after) };

    ghost stays_leaves: { (before after : Self) →
        Self.stays before after → LeavesFeeder (Self.feed before) (Self.feed after) };
}
