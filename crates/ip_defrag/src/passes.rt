//! A fragment's pass over the held datagrams, which are in the order in which they were opened.
//!
//! Memory is allocated first, so that nothing has changed if that fails.
ghost use Rattle.std.specs.Prelude.{◌≡◌, ◌≤◌, ◌<◌, IfErr, IfOk, HoldsAt, OnErr, OnOk, true, filter};
ghost use Rattle.std.specs.Prelude.{length, vec_capacity, vec_len};
ghost use Rattle.std.specs.List.{position_from};
ghost use Rattle.ip_defrag.specs.Fold.{pass};
ghost use Rattle.ip_defrag.specs.Fragments.{takes_part};
ghost use Rattle.ip_defrag.specs.Grouped.{FitsIn, IsCount, IsHeld, IsJoined, Passes, after_opening};
ghost use Rattle.ip_defrag.specs.Grouped.{groups, is_fresh, is_live, total};

use crate::datagrams::Datagram;
use crate::fragments::Fragment;
use crate::names::Name;
use crate::rules::Judgement;
use crate::{NoPush, Step};
use frame_view::Frame;
use history::History;
use std::alloc::Global;

/// The most datagrams that are held.
const MOST_NAMES: usize = 64;

/// The result for a fragment.
#[derive(Drop)]
struct FragmentAnswer {
    /// The datagram's frame, if the fragment completed it.
    whole: Option<Frame>,
    /// The number of fragments that are in that frame.
    used: u32,
}

/// The number of fragments that are held.
#[tactic(auto, unfolding(crate::specs::Grouped::total))]
fn pending(datagrams: &[Datagram]) -> u32
    requires { length datagrams.now ≤ 64 }
    ensures count { result ≡ total datagrams.now }
    ensures most { result ≤ 4190400 }
{
    let mut count = 0_u32;
    for datagram in datagrams {
        count += datagram.len();
    }
    count
}

/// The place of a name's datagram, if one is held that isn't stale.
fn place_of(datagrams: &[Datagram], name: Name, now: u32) -> Option<usize>
    ensures { result ≡ position_from (is_live name now) 0 datagrams.now }
{
    datagrams
        .iter()
        .position(|datagram| datagram.is_live(name, now))
}

/// Gives up each datagram whose first fragment is 30 seconds old or more.
fn drop_stale(datagrams: &mut Vec<Datagram>, now: u32)
    ensures fresh { datagrams.new.items ≡ filter (is_fresh now) datagrams.old.items }
    ensures fewer { vec_len datagrams.new ≤ vec_len datagrams.old }
    ensures room { vec_capacity datagrams.new ≡ vec_capacity datagrams.old }
{
    datagrams.retain(|datagram| datagram.is_fresh(now));
}

/// Opens a datagram with its first fragment. The stale ones are given up, and if the maximum is
/// then still held, also the one that was opened first.
#[tactic(auto, unfolding(crate::specs::Grouped::after_opening))]
fn open(alloc: Global, datagrams: &mut Vec<Datagram>, fragment: Fragment) -> Result<(), NoPush>
    ensures left { OnOk result (datagrams.new.items ≡ after_opening fragment datagrams.old.items) }
    ensures unchanged { OnErr result (datagrams.new.items ≡ datagrams.old.items) }
    ensures handed_back { IfErr result (λ no. no.frame ≡ fragment) }
{
    if datagrams.try_reserve(1).is_err() {
        return Err(NoPush {
            frame: fragment.into_frame(),
        });
    }
    let now = fragment.frame().sec;
    let opened = Datagram::open(alloc, fragment)?;
    drop_stale(datagrams, now);
    if datagrams.len() == MOST_NAMES {
        datagrams.remove(0);
    }
    datagrams.push(opened).unwrap();
    Ok(())
}

/// Joins a fragment to the datagram at a place. The datagram leaves if the two conflict, or if it
/// is completed.
#[tactic(auto, unfolding(crate::specs::Grouped::joined))]
fn join(
    alloc: Global,
    datagrams: &mut Vec<Datagram>,
    at: usize,
    fragment: Fragment,
) -> Result<FragmentAnswer, NoPush>
    requires taken { takes_part fragment ≡ true }
    requires below { at < length datagrams.old.items }
    ensures is { IfOk result (λ it.
        IsJoined fragment at datagrams.old.items datagrams.new.items it) }
    ensures unchanged { OnErr result (datagrams.new.items ≡ datagrams.old.items) }
    ensures handed_back { IfErr result (λ no. no.frame ≡ fragment) }
{
    let nothing = FragmentAnswer {
        whole: None,
        used: 0,
    };
    let Ok(judgement) = datagrams[at].judge(&fragment) else {
        return Err(NoPush {
            frame: fragment.into_frame(),
        });
    };
    match judgement {
        Judgement::Copy => Ok(nothing),
        Judgement::Conflict => {
            datagrams.remove(at);
            Ok(nothing)
        }
        Judgement::Fits => hold(alloc, datagrams, at, fragment),
    }
}

/// Adds a fragment that fits to the datagram at a place, which leaves if that completes it.
fn hold(
    alloc: Global,
    datagrams: &mut Vec<Datagram>,
    at: usize,
    fragment: Fragment,
) -> Result<FragmentAnswer, NoPush>
    requires taken { takes_part fragment ≡ true }
    requires below { at < length datagrams.old.items }
    requires fits { HoldsAt (FitsIn fragment) datagrams.old.items at }
    ensures is { IfOk result (λ it. IsHeld fragment at datagrams.old.items datagrams.new.items it) }
    ensures unchanged { OnErr result (datagrams.new.items ≡ datagrams.old.items) }
    ensures handed_back { IfErr result (λ no. no.frame ≡ fragment) }
{
    let whole = datagrams[at].add(alloc, fragment)?;
    if whole.is_none() {
        return Ok(FragmentAnswer { whole, used: 0 });
    }
    let used = datagrams.remove(at).len();
    Ok(FragmentAnswer { whole, used })
}

/// Passes a fragment over the datagrams, and counts what they hold anew. The trace reports which
/// frames these are. After `NoPush` nothing has changed, and the fragment's frame is handed back.
pub(crate) fn pass(
    alloc: Global,
    trace: &History<Frame>,
    datagrams: &mut Vec<Datagram>,
    count: &mut u32,
    fragment: Fragment,
) -> Result<Step, NoPush>
    requires taken { takes_part fragment ≡ true }
    requires held { datagrams.old.items ≡ groups trace.now.items }
    requires few { length datagrams.old.items ≤ 64 }
    requires counted { IsCount count.old trace.now.items }
    ensures held { OnOk result (datagrams.new.items ≡ groups (pass trace.now.items fragment).held) }
    ensures few { length datagrams.new.items ≤ 64 }
    ensures counted { OnOk result (IsCount count.new (pass trace.now.items fragment).held) }
    ensures whole { IfOk result (λ it. it.whole ≡ (pass trace.now.items fragment).whole) }
    ensures discarded { IfOk result (λ it.
        it.discarded ≡ (pass trace.now.items fragment).discarded) }
    ensures unchanged { OnErr result (datagrams.new.items ≡ datagrams.old.items) }
    ensures same_count { OnErr result (count.new ≡ count.old) }
    ensures handed_back { IfErr result (λ no. no.frame ≡ fragment) }
{
    let before = *count;
    let joined = pass_by(alloc, trace, datagrams, fragment)?;
    *count = pending(datagrams);
    // Each frame that was held, and this one, is held still, is in what came out, or was given up.
    Ok(Step {
        whole: joined.whole,
        discarded: before + 1 - *count - joined.used,
    })
}

/// Joins a fragment to its datagram, or opens one.
fn pass_by(
    alloc: Global,
    trace: &History<Frame>,
    datagrams: &mut Vec<Datagram>,
    fragment: Fragment,
) -> Result<FragmentAnswer, NoPush>
    requires taken { takes_part fragment ≡ true }
    requires held { datagrams.old.items ≡ groups trace.now.items }
    requires few { length datagrams.old.items ≤ 64 }
    ensures agrees { IfOk result (λ it. Passes trace.now.items fragment datagrams.new.items it) }
    ensures few { length datagrams.new.items ≤ 64 }
    ensures unchanged { OnErr result (datagrams.new.items ≡ datagrams.old.items) }
    ensures handed_back { IfErr result (λ no. no.frame ≡ fragment) }
{
    let now = fragment.frame().sec;
    match place_of(datagrams, fragment.name(), now) {
        Some(at) => {
            let joined = join(alloc, datagrams, at, fragment)?;
            drop_stale(datagrams, now);
            Ok(joined)
        }
        None => {
            open(alloc, datagrams, fragment)?;
            Ok(FragmentAnswer {
                whole: None,
                used: 0,
            })
        }
    }
}
