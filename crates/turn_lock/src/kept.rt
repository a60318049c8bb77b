//! What a lock needs of the value that it keeps.
ghost use Rattle.std.specs.Prelude.{◌≡◌, ℕ, List, Bool, true};

/// A value that stores entries, one after another, and that its users change in turns.
pub trait Kept {
    /// What one turn may add.
    type Entry;

    /// What no turn changes.
    type Base;

    // The entries that the value has stored, in their order.
    ghost stored: { Self → List Self.Entry };

    // What no turn changes.
    ghost base: { Self → Self.Base };

    // Whether the seat of this number may add this entry.
    ghost may_add: { Self.Base → ℕ → Self.Entry → Bool };

    // Under one base an entry may be added by at most one seat.
    ghost alone: { (b : Self.Base) (m : ℕ) (n : ℕ) (e : Self.Entry) →
        may_add b m e ≡ true → may_add b n e ≡ true → m ≡ n };
}
