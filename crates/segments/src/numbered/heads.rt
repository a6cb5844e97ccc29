//! The heads: the last note of each number, from which its linked list goes back.

ghost use Rattle.std.specs.Prelude.{◌≡◌, ◌<◌, ◌≤◌, ◌+◌, ℕ, Some, slice_get, nat_eq, vec_len, vec_capacity, if◌then◌else◌};
ghost use Rattle.std.specs.Option.{option_flatten};

/// Returns the index of the last note of `number`, or `None` if it has none.
pub(crate) fn head(heads: &[Option<u32>], number: u32) -> Option<u32>
    ensures { result ≡ option_flatten (slice_get heads.now number) }
{
    match heads.get(number as usize) {
        Some(head) => *head,
        None => None,
    }
}

/// Sets the last note of `number`, which is a known number or the next one. Does not allocate.
pub(crate) fn set_head(heads: &mut Vec<Option<u32>>, number: u32, index: u32)
    requires number { number ≤ vec_len heads.old }
    requires room { vec_len heads.old < vec_capacity heads.old }
    ensures heads { (m : ℕ) → option_flatten (slice_get heads.new.items m) ≡
        (if nat_eq number m then Some index else option_flatten (slice_get heads.old.items m)) }
    ensures numbers { vec_len heads.new ≡
        (if nat_eq number (vec_len heads.old) then vec_len heads.old + 1 else vec_len heads.old) }
{
    let at = number as usize;
    if at < heads.len() {
        heads[at] = Some(index);
    } else {
        heads.push_reserved(Some(index));
    }
}
