//! What the members of a run have in common, known only at run time.
ghost use Rattle.std.specs.Prelude.{Bool, false};
ghost use Rattle.tp_layout.specs.declared.requests.RingRequest.{RingRequest};

use std::marker::Brand;

/// What all members of one run have in common. It is known only at run time; contracts see it at
/// the type of the members.
pub trait Setting {
    // The shape of the rings' blocks.
    ghost shape: { RingRequest };

    // Whether readers keep the texts of their blocks.
    ghost dumps: { Bool };
}

impl Setting for Brand {
    ghost shape = { record {
      block_size = 4096;
      block_nr = 2;
      frame_size = 2048;
      frame_nr = 4;
      tov = 0;
      sizeof_priv = 0;
      features = 0;
    } };

    ghost dumps = { false };
}
