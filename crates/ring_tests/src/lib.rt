//! Tests of rings and of the bytes in them. What threads share: a dealer of tickets, and a diary
//! that seats write in turns. Blocks: texts that another program wrote, the limits of the rules, and
//! receive rings of two blocks of a page, with the notes, the statuses and the ends of blocks that
//! follow from the rules, worked out by hand. Slots: as bytes, in rings of TPACKET_V2 and in transmit
//! rings. Rings on one thread, and between two.
#![tactic(auto)]

#[cfg(test)]
mod acts;
#[cfg(test)]
mod blocks;
#[cfg(test)]
mod changed_bytes;
#[cfg(test)]
mod diaries;
#[cfg(test)]
mod dumps;
#[cfg(test)]
mod faults;
#[cfg(test)]
mod limits;
#[cfg(test)]
mod plain_runs;
#[cfg(test)]
mod producer_calls;
#[cfg(test)]
mod producer_rows;
#[cfg(test)]
mod readers;
#[cfg(test)]
mod ring_calls;
#[cfg(test)]
mod sample_blocks;
#[cfg(test)]
mod sample_slots;
#[cfg(test)]
mod seen_blocks;
#[cfg(test)]
mod sent_frames;
#[cfg(test)]
mod slot_texts;
#[cfg(test)]
mod slot_threads;
#[cfg(test)]
mod slots;
#[cfg(test)]
mod texts;
#[cfg(test)]
mod threads;
#[cfg(test)]
mod tickets;
