//! The statistics of a ring, as far as they depend on what it is made of.
ghost use Rattle.std.specs.Prelude.{◌≡◌};
ghost use Rattle.tap_printing.specs.Statistics.{seen_by};

use ring_model::Stats;
use run_reports::RingKind;

/// The statistics of a ring of this kind, from those that a ring of blocks with its notes has.
pub(crate) fn seen(kind: RingKind, stats: Stats) -> Stats
    ensures { result ≡ seen_by kind stats }
{
    match kind {
        RingKind::Blocks => stats,
        RingKind::Slots => Stats {
            freezes: 0,
            ..stats
        },
    }
}
