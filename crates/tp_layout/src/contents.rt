//! A block as a ring hands it over: its bytes are what a reader sees, its shape is what all blocks
//! of a ring share.
use crate::Block;
use ring_model::Content;

impl Content for Block {
    ghost use Rattle.tp_layout.specs.Blocks.{BeginsLawfully};
    ghost use Rattle.tp_layout.specs.Requests.{numbers_of};

    ghost bytes = { λ block. block.bytes };

    ghost kind = { λ block. numbers_of block.shape };

    ghost ready = { λ block number status. BeginsLawfully block.shape number status block.bytes };

    ghost ready_is_fact = { λ block number status. Prim.hlevel };
}
