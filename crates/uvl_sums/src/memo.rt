//! Partial results that are known: one for all sums so far of an interval.
ghost use Rattle.std.specs.Prelude.{◌≡◌, ◌⊎◌, ℕ, ℤ, Some, IfSome, None};
ghost use Rattle.std.specs.BTreeMap.{get};
ghost use Rattle.uvl_sums.specs.declared.memo.Known.{Known as KnownOf};
ghost use Rattle.uvl_sums.specs.Parts.{key_cmp, part_under};
ghost use Rattle.uvl_sums.specs.Settled.{IsBetween};

use dd_store::OutOfMemory;
use std::alloc::Global;
use std::collections::BTreeMap;

/// A partial result: the place of its handle among those that are held, and the sums so far for which it is the same,
/// from the least to the greatest.
#[derive(Clone, Copy)]
pub(crate) struct Part {
    pub place: usize,
    pub least: i128,
    pub greatest: i128,
}

/// What is known of a part beside its key.
#[derive(Clone, Copy, Drop)]
pub(crate) struct Known {
    pub place: usize,
    pub greatest: i128,
}

/// The parts by the place of the first term that is left and by the least sum so far. The intervals of one place don't
/// overlap, so the last one that begins at a sum or below it is the only one that can have it.
#[derive(Drop)]
pub(crate) struct Memo {
    pub known: BTreeMap<(usize, i128), Known>,
}

impl Memo {
    /// Nothing is known.
    pub(crate) fn new(alloc: Global) -> Memo
        ensures { (key : ℕ × ℤ) → get key_cmp result.known key ≡ None }
    {
        Memo {
            known: BTreeMap::new(alloc),
        }
    }

    /// The part for this place and this sum so far, where one is known.
    pub(crate) fn recall(&self, at: usize, so_far: i128) -> Option<Part>
        ensures between { IfSome result (λ part. IsBetween part.least so_far part.greatest) }
        ensures known { IfSome result (λ part. get key_cmp self.now.known (at, part.least)
            ≡ Some (record { place = part.place; greatest = part.greatest })) }
    {
        let (key, known) = self.known.range(..=(at, so_far)).next_back()?;
        if key.0 == at && key.1 <= so_far && so_far <= known.greatest {
            Some(Part {
                place: known.place,
                least: key.1,
                greatest: known.greatest,
            })
        } else {
            None
        }
    }

    /// Notes a part of the terms from this place on.
    pub(crate) fn remember(&mut self, at: usize, part: Part) -> Result<(), OutOfMemory>
        ensures { (key : ℕ × ℤ) (it : KnownOf) → get key_cmp self.new.known key ≡ Some it →
            (get key_cmp self.old.known key ≡ Some it)
            ⊎ ((key ≡ (at, part.least)) × (it ≡ record { place = part.place; greatest = part.greatest })) }
    {
        let known = Known {
            place: part.place,
            greatest: part.greatest,
        };
        self.known.insert((at, part.least), known)?;
        Ok(())
    }
}
