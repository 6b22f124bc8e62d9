// What an iterator gives, written into a list that the caller lends.
#![tactic(auto)]

ghost use mathlib.Core.List.{flat_map};
ghost use Rattle.std.specs.Prelude.{◌≡◌, ◌≤◌, ◌*◌, List, length};
ghost use Rattle.std.specs.Iterator.{Drains, UpTo, IsFinite, size};
ghost use Rattle.search.specs.Search.{over};
ghost use Rattle.filling.specs.Blocks.{Accepts, Puts};

// Writes all items over the list's front. By places: after a `zip` with the list's `iter_mut` a proof knows nothing of what the list holds (tried).
pub fn fill<T: Copy, I: Iterator<Item = T>>(items: I, list: &mut [T])
    requires can { I.can_next items }
    requires in_room { UpTo (I.remaining items) (length list.old) }
    ensures { (all : List T) × Drains I.next_gives items all × (list.new ≡ over all list.old) }
{
    for (i, item) in items.enumerate() {
        list[i] = item;
    }
}

// Writes a block of `width` elements for each item over the list's front, one behind the other; `put` writes an item's at the front of what it gets.
pub fn fill_blocks<T: Copy, A, I: Iterator<Item = T>, F: Fn(T, &mut [A])>(
    items: I,
    width: usize,
    list: &mut [A],
    put: F,
)
    requires can { I.can_next items }
    requires in_room { IsFinite (I.remaining items) × (size (I.remaining items) * width ≤ length list.old) }
    requires puts { Accepts width (F.pre put) }
    ensures { (blocks : T → List A) → Puts width (F.post put) blocks
        → (all : List T) × Drains I.next_gives items all × (list.new ≡ over (flat_map blocks all) list.old) }
{
    let mut at = 0;
    for item in items {
        put(item, &mut list[at..]);
        at += width;
    }
}
