//! What the blocks of a ring hold.
ghost use Rattle.std.specs.Prelude.{ℕ, List};

/// A block of a ring. Contracts see its content, its kind and whether it may be retired.
pub trait Content {
    // What a reader of the block sees, as a list of numbers.
    ghost bytes: { Self → List ℕ };

    // What all blocks of one ring have in common, as numbers: the shape of a block of packets.
    ghost kind: { Self → List ℕ };

    // Whether it may be retired with a number and a status.
    ghost ready: { Self → ℕ → ℕ → Type 0 };

    // This is a proposition, so a ring's rule can keep it.
    ghost ready_is_fact: { (it : Self) (number status : ℕ) → IsProp (ready it number status) };
}
