//! Vectors whose room was reserved.
ghost use Rattle.std.specs.Prelude.{◌≡◌, ℕ, ◌<◌, ◌≤◌, ◌+◌, [], ◌∷◌, ◌++◌, vec_len, vec_capacity};
ghost use Rattle.std.specs.Prelude.{length, slice_index, sum};

/// Puts an item last in a vector that has room for it.
pub(crate) fn push_within_capacity<T: Drop>(items: &mut Vec<T>, item: T)
    requires { vec_len items.old < vec_capacity items.old }
    ensures { items.new.items ≡ items.old.items ++ item ∷ [] }
{
    let _room = items.push(item);
}

/// Counts of handles for this many numbers, of which the last may be new: no handle stands on it.
pub(crate) fn count_up_to(counts: &mut Vec<u32>, numbers: u32)
    requires room { vec_len counts.old < vec_capacity counts.old }
    requires fewer { length counts.old.items ≤ numbers }
    requires next { numbers ≤ length counts.old.items + 1 }
    ensures length { length counts.new.items ≡ numbers }
    ensures same { (n : ℕ) → slice_index counts.new.items n ≡ slice_index counts.old.items n }
    ensures total { sum counts.new.items ≡ sum counts.old.items }
{
    if counts.len() < numbers as usize {
        push_within_capacity(counts, 0);
    }
}
