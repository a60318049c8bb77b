//! The tries of an arrival.
ghost use Rattle.std.specs.Prelude.{◌≡◌, ◌+◌, ◌<◌, ◌∷◌, ◌++◌, ◌↔◌, ℕ, [], length, option_copied};
ghost use Rattle.std.specs.Prelude.{slice_get, IfOk, IfSome, IsTrue, OnErr, OnOk};
ghost use Rattle.fanout_group.specs.Desks.{TakesTheSame};
ghost use Rattle.fanout_group.specs.inside.TryEffects.{AreListed, IsNone, IsPut, IsTried};
ghost use Rattle.fanout_group.specs.inside.TryForms.{HasRoom, tries_of};

use crate::{Desk, Fate, Try};
use frame_view::Memory;
use ring_model::{Offer, Put, Tried};
use std::alloc::Global;
use std::marker::Model;
use std::slice;

/// Tries, in order. Contracts see their list. Nearly every arrival has one try, which is stored in
/// the list itself: only a second one takes memory.
#[derive(Debug, Drop)]
pub struct TryList {
    alloc: Global,
    tries: TryPlaces,
}

/// Where the tries are. The list is boxed, so that an arrival's tries take 16 bytes of its log.
#[derive(Debug, Drop)]
enum TryPlaces {
    /// There are none.
    None,
    /// There is one, in place.
    One(Try),
    /// They are in memory of their own, however many they are.
    Many(Box<Vec<Try>>),
}

impl Model for TryList {
    ghost use Rattle.std.specs.Prelude.{List};
    ghost use Rattle.fanout_group.specs.declared.logs.Try.{Try};

    ghost Value = { List Try };

    ghost use Rattle.fanout_group.specs.inside.TryForms.{tries_of};

    ghost view = { λ list. tries_of list.tries };
}

impl TryList {
    /// An empty list. It takes no memory.
    pub fn new(alloc: Global) -> TryList
        ensures { result ≡ [] }
    {
        TryList {
            alloc,
            tries: TryPlaces::None,
        }
    }

    /// The number of tries.
    pub fn len(&self) -> usize
        ensures { result ≡ length self.now }
    {
        self.as_slice().len()
    }

    /// Whether the list is empty.
    pub fn is_empty(&self) -> bool
        ensures { IsTrue result ↔ (self.now ≡ []) }
    {
        self.as_slice().is_empty()
    }

    /// The try at a place, counted from 0. `None` exactly if the place isn't below the length.
    pub fn get(&self, at: usize) -> Option<&Try>
        ensures { option_copied result ≡ slice_get self.now at }
    {
        self.as_slice().get(at)
    }

    /// All tries, borrowed, in their order.
    pub fn as_slice(&self) -> &[Try]
        ensures { result.now ≡ self.now }
    {
        match &self.tries {
            TryPlaces::None => &[],
            TryPlaces::One(made) => slice::from_ref(made),
            TryPlaces::Many(tries) => tries.as_slice(),
        }
    }

    /// Puts a try at the end. After `Memory` the list is unchanged.
    pub fn push(&mut self, made: Try) -> Result<(), Memory>
        ensures ok { OnOk result (self.new ≡ self.old ++ made ∷ []) }
        ensures err { OnErr result (self.new ≡ self.old) }
    {
        self.tries.reserve(self.alloc)?;
        self.tries.add(made);
        Ok(())
    }

    /// Reserves memory for n more tries, and for no more than that. After `Memory` the list is
    /// unchanged.
    pub(crate) fn reserve_exact(&mut self, more: usize) -> Result<(), Memory>
        ensures { self.new ≡ self.old }
    {
        self.tries.reserve_exact(self.alloc, more)
    }

    /// Tries to give an offer to a member of a desk; it comes back if the member refuses it. Memory
    /// for the try is reserved first, so that no try is made without being listed.
    pub(crate) fn try_at<D: Desk>(
        &mut self,
        desk: &mut D,
        member: u32,
        offer: Offer,
    ) -> Result<Option<Offer>, Memory>
        requires takes { D.takes desk.old member offer }
        requires room { D.room desk.old 1 }
        ensures tried { IfOk result (λ back. AreListed D.made offer (IsTried member back)
            self.old self.new desk.old desk.new) }
        ensures back { IfOk result (λ back. IfSome back (λ back. back ≡ offer)) }
        ensures room { OnOk result ((n : ℕ) → D.room desk.old (n + 1) → D.room desk.new n) }
        ensures err { OnErr result (AreListed D.made offer IsNone
            self.old self.new desk.old desk.new) }
        ensures same { TakesTheSame (D.takes desk.old) (D.takes desk.new) }
    {
        self.tries.reserve(self.alloc)?;
        let (fate, back) = match desk.try_put(member, offer) {
            Ok(Tried::Kept) => (Fate::Kept, None),
            Ok(Tried::Refused(offer)) => (Fate::Refused, Some(offer)),
            Err(_) => return Err(Memory),
        };
        self.tries.add(Try { member, fate });
        Ok(back)
    }

    /// Gives an offer to a member of a desk, which keeps it or drops it, and lists that one try. It
    /// takes no memory of its own.
    #[inline(always)]
    pub(crate) fn of_put<D: Desk>(
        alloc: Global,
        desk: &mut D,
        member: u32,
        offer: Offer,
    ) -> Result<TryList, Memory>
        requires takes { D.takes desk.old member offer }
        requires room { D.room desk.old 1 }
        ensures put { IfOk result (λ list. IsPut member list) }
        ensures made { IfOk result (λ list. D.made offer list desk.old desk.new) }
        ensures room { OnOk result ((n : ℕ) → D.room desk.old (n + 1) → D.room desk.new n) }
        ensures err { OnErr result (D.made offer [] desk.old desk.new) }
        ensures same { TakesTheSame (D.takes desk.old) (D.takes desk.new) }
    {
        let made = put_once(desk, member, offer)?;
        Ok(TryList {
            alloc,
            tries: TryPlaces::One(made),
        })
    }

    /// Gives an offer to a member of a desk, which keeps it or drops it. Memory for the try is
    /// reserved first.
    #[inline(always)]
    pub(crate) fn put_at<D: Desk>(
        &mut self,
        desk: &mut D,
        member: u32,
        offer: Offer,
    ) -> Result<(), Memory>
        requires takes { D.takes desk.old member offer }
        requires room { D.room desk.old 1 }
        ensures put { OnOk result (AreListed D.made offer (IsPut member)
            self.old self.new desk.old desk.new) }
        ensures room { OnOk result ((n : ℕ) → D.room desk.old (n + 1) → D.room desk.new n) }
        ensures err { OnErr result (AreListed D.made offer IsNone
            self.old self.new desk.old desk.new) }
        ensures same { TakesTheSame (D.takes desk.old) (D.takes desk.new) }
    {
        self.tries.reserve(self.alloc)?;
        self.tries.add(put_once(desk, member, offer)?);
        Ok(())
    }
}

impl TryPlaces {
    ghost use Rattle.fanout_group.specs.inside.TryForms.{HasRoom, tries_of};

    /// Makes room for another try. After `Memory` they are as before.
    #[inline(always)]
    fn reserve(&mut self, alloc: Global) -> Result<(), Memory>
        ensures same { tries_of self.new ≡ tries_of self.old }
        ensures room { OnOk result (HasRoom self.new) }
    {
        match self {
            TryPlaces::None => Ok(()),
            TryPlaces::One(_) => self.reserve_exact(alloc, 1),
            TryPlaces::Many(tries) => {
                tries.reserve(1)?;
                Ok(())
            }
        }
    }

    /// Makes room for n more tries, and for no more than that. After `Memory` they are as before.
    fn reserve_exact(&mut self, alloc: Global, more: usize) -> Result<(), Memory>
        ensures same { tries_of self.new ≡ tries_of self.old }
        ensures room { OnOk result (0 < more → HasRoom self.new) }
    {
        match self {
            TryPlaces::None if more > 1 => *self = listed(alloc, &[], more)?,
            TryPlaces::One(made) if more > 0 => *self = listed(alloc, slice::from_ref(made), more)?,
            TryPlaces::Many(tries) => tries.reserve_exact(more)?,
            TryPlaces::None | TryPlaces::One(_) => {}
        }
        Ok(())
    }

    /// Puts a try at the end, for which there is room.
    #[inline(always)]
    fn add(&mut self, made: Try)
        requires room { HasRoom self.old }
        ensures { tries_of self.new ≡ tries_of self.old ++ made ∷ [] }
    {
        match self {
            TryPlaces::None => *self = TryPlaces::One(made),
            TryPlaces::One(_) => unreachable!(),
            TryPlaces::Many(tries) => tries.push_reserved(made),
        }
    }
}

/// Tries in memory of their own, with room for more.
fn listed(alloc: Global, tries: &[Try], more: usize) -> Result<TryPlaces, Memory>
    ensures same { IfOk result (λ list. tries_of list ≡ tries.now) }
    ensures room { IfOk result (λ list. 0 < more → HasRoom list) }
{
    let mut list = Vec::with_capacity(alloc, tries.len().saturating_add(more))?;
    list.extend_from_slice(tries)?;
    Ok(TryPlaces::Many(Box::new(alloc, list)?))
}

/// Gives an offer to a member of a desk, which keeps it or drops it: one try, which settles where
/// the packet goes.
#[inline(always)]
fn put_once<D: Desk>(desk: &mut D, member: u32, offer: Offer) -> Result<Try, Memory>
    requires takes { D.takes desk.old member offer }
    requires room { D.room desk.old 1 }
    ensures put { IfOk result (λ made. IsPut member (made ∷ [])) }
    ensures made { IfOk result (λ made. D.made offer (made ∷ []) desk.old desk.new) }
    ensures room { OnOk result ((n : ℕ) → D.room desk.old (n + 1) → D.room desk.new n) }
    ensures err { OnErr result (D.made offer [] desk.old desk.new) }
    ensures same { TakesTheSame (D.takes desk.old) (D.takes desk.new) }
{
    let fate = match desk.put(member, offer) {
        Ok(Put::Kept) => Fate::Kept,
        Ok(Put::Dropped(_)) => Fate::Dropped,
        Err(_) => return Err(Memory),
    };
    Ok(Try { member, fate })
}
