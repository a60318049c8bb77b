//! Tests of frames and of what a group makes of them: frames that a Linux kernel sent, with what
//! another program reads in them; made frames; the published suite of receive side scaling;
//! fragments of datagrams; filters, by the documented meaning of each code and by texts at the
//! edges of their form; and deliveries to a desk of lists, with the tries that the rules give,
//! worked out by hand.
#![tactic(auto)]

#[cfg(test)]
mod arrivals;
#[cfg(test)]
mod built_frames;
#[cfg(test)]
mod captured_frames;
#[cfg(test)]
mod datagrams;
#[cfg(test)]
mod deliveries;
#[cfg(test)]
mod documented_codes;
#[cfg(test)]
mod flow_hashes;
#[cfg(test)]
mod fragment_conflicts;
#[cfg(test)]
mod fragments;
#[cfg(test)]
mod header_views;
#[cfg(test)]
mod homes;
#[cfg(test)]
mod list_calls;
#[cfg(test)]
mod list_desk;
#[cfg(test)]
mod listings;
#[cfg(test)]
mod made_frames;
#[cfg(test)]
mod path_parts;
#[cfg(test)]
mod refused_texts;
#[cfg(test)]
mod verdicts;
#[cfg(test)]
mod vlan_tags;
