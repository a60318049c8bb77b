//! How a new fragment relates to the held ones of its datagram.
ghost use Rattle.std.specs.Prelude.{◌≡◌, if◌then◌else◌};
ghost use Rattle.ip_defrag.specs.Fold.{is_copy};
ghost use Rattle.ip_defrag.specs.declared.rules.Judgement.TheVariants.{Conflict, Copy, Fits};

use crate::fragments::Fragment;

/// How a new fragment relates to the held ones of its datagram.
#[derive(Clone, Copy)]
pub(crate) enum Judgement {
    /// It is a copy of one of them.
    Copy,
    /// It conflicts with one of them.
    Conflict,
    /// It can be held beside them.
    Fits,
}

/// Whether a held fragment has the same place, end, more bit and data as a new one.
#[tactic(auto, unfolding(crate::specs::Fold::is_copy))]
fn is_copy(new: &Fragment, held: &Fragment) -> bool
    ensures { result ≡ is_copy new.now held.now }
{
    new.from() == held.from()
        && new.to() == held.to()
        && new.is_last() == held.is_last()
        && new.data() == held.data()
}

/// How a new fragment that conflicts with a held one relates to it. A copy conflicts only with the
/// one that it is a copy of.
pub(crate) fn beside(new: &Fragment, held: &Fragment) -> Judgement
    ensures { result ≡ (if is_copy new.now held.now then Copy else Conflict) }
{
    if is_copy(new, held) {
        Judgement::Copy
    } else {
        Judgement::Conflict
    }
}

/// How a new fragment that shares no byte place with the held ones relates to them, by whether one
/// contradicts another's end.
pub(crate) fn apart(contradicts: bool) -> Judgement
    ensures { result ≡ (if contradicts then Conflict else Fits) }
{
    if contradicts {
        Judgement::Conflict
    } else {
        Judgement::Fits
    }
}
