//! The mark of a profile. This project's own; the sum is FNV-1a of 64 bits.

ghost use Rattle.std.specs.Prelude.{◌≡◌};
ghost use Rattle.q3_profile.specs.Mark.{mark_of};

/// The mark of a file's bytes.
#[tactic(auto, unfolding(crate::specs::Mark::mark_of), using(std::proofs::lemmas::List::Sums::fold_more))]
pub(crate) fn mark(bytes: &[u8]) -> u64
    ensures { result ≡ mark_of bytes.now }
{
    let mut mark: u64 = 14_695_981_039_346_656_037;
    for byte in bytes {
        mark = (mark ^ u64::from(*byte)).wrapping_mul(1_099_511_628_211);
    }
    mark
}
