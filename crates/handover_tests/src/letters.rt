//! Blocks of one letter.
use ring_words::Content;

/// A block of one letter.
#[derive(Drop)]
pub(crate) struct Letter(pub(crate) u8);

impl Content for Letter {
    ghost use Rattle.std.specs.Prelude.{[], ◌∷◌};

    ghost bytes = { λ letter. letter.0 ∷ [] };

    ghost kind = { λ letter. [] };

    ghost ready = { λ letter number status. Unit {0} };

    ghost ready_is_fact = { λ letter number status. Prim.hlevel };
}
