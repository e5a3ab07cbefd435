// Sets of indices, as rising lists.
ghost use Rattle.std.specs.Prelude.{◌≡◌, ◌+◌, ◌<◌, ◌≤◌, IfSome, IfNone, vec_len, vec_capacity};
ghost use Rattle.inc_model.specs.relation.State.{has, with_index, Rise};
ghost use Rattle.inc_model.specs.executed.Places.{IsSlot};

/// Whether a set has an index. It looks at each one of a short list.
pub fn lists_index(indices: &[u32], index: u32) -> bool
    ensures value { result ≡ has index indices.now }
{
    for other in indices {
        if index == *other {
            return true;
        }
    }
    false
}

/// Whether a set has an index. It halves the list at each look.
pub fn holds_index(indices: &[u32], index: u32) -> bool
    requires rise { Rise indices.now }
    ensures value { result ≡ has index indices.now }
{
    indices.binary_search(&index).is_ok()
}

/// The place that an index would have, if it isn't there.
fn slot_of(indices: &[u32], index: u32) -> Option<usize>
    ensures slot { IfSome result (λ at. IsSlot indices.now index at) }
    ensures there { IfNone result (with_index index indices.now ≡ indices.now) }
{
    for (i, other) in indices.iter().enumerate() {
        if index < *other {
            return Some(i);
        }
        if index == *other {
            return None;
        }
    }
    Some(indices.len())
}

/// Adds an index. There is room for one more, so it takes no memory.
pub fn add_in_room(indices: &mut Vec<u32>, index: u32)
    requires room { vec_len indices.old < vec_capacity indices.old }
    ensures set { indices.new.items ≡ with_index index indices.old.items }
    ensures bound { vec_len indices.new ≤ vec_len indices.old + 1 }
    ensures capacity { vec_capacity indices.new ≡ vec_capacity indices.old }
{
    if let Some(at) = slot_of(indices.as_slice(), index) {
        indices.insert(at, index).unwrap();
    }
}
