//! Tests of captures, from the outside to frames: sources, sinks and stores in memory, real files
//! and standard output; files that another program wrote, and what a decoder makes of them piece by
//! piece; the blocks of pcapng, in either byte order, cut at every place, and damaged; made
//! captures with the schedule that replays them.
#![tactic(auto)]

#[cfg(test)]
mod block_cuts;
#[cfg(test)]
mod block_damages;
#[cfg(test)]
mod block_orders;
#[cfg(test)]
mod block_skips;
#[cfg(test)]
mod block_times;
#[cfg(test)]
mod captures;
#[cfg(test)]
mod damaged_captures;
#[cfg(test)]
mod decoded_blocks;
#[cfg(test)]
mod decoded_captures;
#[cfg(test)]
mod failing_files;
#[cfg(test)]
mod in_memory;
#[cfg(test)]
mod made;
#[cfg(test)]
mod output_files;
#[cfg(test)]
mod pcapng_pieces;
#[cfg(test)]
mod real_files;
#[cfg(test)]
mod saved_pieces;
#[cfg(test)]
mod spellings;
#[cfg(test)]
mod standard_output;
#[cfg(test)]
mod written_blocks;
