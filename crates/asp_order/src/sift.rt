//! A binary heap in a slice: the first is at 0, and the children of k at 2 k + 1 and 2 k + 2.
ghost use Rattle.std.specs.Prelude.{◌≡◌, ◌≢◌, ℕ, ◌+◌, ◌-◌, ◌*◌, ◌/◌, ◌^◌, ◌<◌, ◌≤◌, Bool, List, length, slice_index, slice_set, [], ◌∷◌, ◌++◌, true, false, IfSome, IfNone};
ghost use Rattle.std.specs.Vec.{vec_len, vec_capacity};
ghost use Rattle.asp_order.specs.Sifting.{rank, rank_at, parent, IsHeap, MayRise, MaySink, IsPlaced};

// Whether v comes before w.
fn precedes(activities: &[u64], v: u32, w: u32) -> bool
    requires v { v < length activities.now }
    requires w { w < length activities.now }
    ensures yes { result ≡ true → rank activities.now w < rank activities.now v }
    ensures no { result ≡ false → rank activities.now v ≤ rank activities.now w }
{
    let (first, second) = (activities[v as usize], activities[w as usize]);
    first > second || first == second && v < w
}

// Puts the item v at k.
pub fn put(items: &mut [u32], places: &mut [usize], k: usize, v: u32)
    requires k { k < length items.old }
    requires v { v < length places.old }
    ensures item { slice_index items.new k ≡ v }
    ensures items { (j : ℕ) → j ≢ k → slice_index items.new j ≡ slice_index items.old j }
    ensures place { slice_index places.new v ≡ k }
    ensures places { (w : ℕ) → w ≢ v → slice_index places.new w ≡ slice_index places.old w }
{
    items[k] = v;
    places[v as usize] = k;
}

// Exchanges two items.
fn exchange(items: &mut [u32], places: &mut [usize], i: usize, j: usize)
    requires i { i < length items.old }
    requires j { j < length items.old }
    requires apart { i ≢ j }
    requires placed { (members : List Bool) × IsPlaced members items.old places.old }
    ensures placed { (members : List Bool) → IsPlaced members items.old places.old → IsPlaced members items.new places.new }
    ensures here { slice_index items.new i ≡ slice_index items.old j }
    ensures there { slice_index items.new j ≡ slice_index items.old i }
    ensures others { (k : ℕ) → k ≢ i → k ≢ j → slice_index items.new k ≡ slice_index items.old k }
{
    let (v, w) = (items[i], items[j]);
    put(items, places, i, w);
    put(items, places, j, v);
}

/// Lets an item rise among the first n until its parent comes before it.
pub fn rise(items: &mut [u32], places: &mut [usize], activities: &[u64], n: usize, at: usize)
    requires n { n ≤ length items.old }
    requires at { at < n }
    requires sized { length places.old ≡ length activities.now }
    requires placed { (members : List Bool) × IsPlaced members items.old places.old }
    requires may { MayRise (rank_at activities.now items.old) n at }
    ensures placed { (members : List Bool) → IsPlaced members items.old places.old → IsPlaced members items.new places.new }
    ensures heap { IsHeap (rank_at activities.now items.new) n }
{
    if at == 0 {
        return;
    }
    let up = (at - 1) / 2;
    if precedes(activities, items[at], items[up]) {
        exchange(items, places, at, up);
        rise(items, places, activities, n, up);
    }
}

// Which child comes first, if there is one.
fn first_child(items: &[u32], activities: &[u64], at: usize) -> Option<usize>
    requires at { at < length items.now }
    requires small { length items.now < 2 ^ 62 }
    requires known { (k : ℕ) → k < length items.now → slice_index items.now k < length activities.now }
    ensures child { IfSome result (λ c. (0 < c) × (c < length items.now) × (parent c ≡ at)) }
    ensures first { IfSome result (λ c. (k : ℕ) → 0 < k → k < length items.now → parent k ≡ at → rank_at activities.now items.now k ≤ rank_at activities.now items.now c) }
    ensures none { IfNone result ((k : ℕ) → 0 < k → k < length items.now → parent k ≢ at) }
{
    let left = 2 * at + 1;
    let right = left + 1;
    if left >= items.len() {
        None
    } else if right < items.len() && precedes(activities, items[right], items[left]) {
        Some(right)
    } else {
        Some(left)
    }
}

/// Lets an item sink until it comes before its children.
pub fn sink(items: &mut [u32], places: &mut [usize], activities: &[u64], at: usize)
    requires at { at < length items.old }
    requires small { length items.old < 2 ^ 62 }
    requires sized { length places.old ≡ length activities.now }
    requires placed { (members : List Bool) × IsPlaced members items.old places.old }
    requires may { MaySink (rank_at activities.now items.old) (length items.old) at }
    ensures placed { (members : List Bool) → IsPlaced members items.old places.old → IsPlaced members items.new places.new }
    ensures heap { IsHeap (rank_at activities.now items.new) (length items.new) }
{
    if let Some(child) = first_child(items, activities, at) {
        if precedes(activities, items[child], items[at]) {
            exchange(items, places, at, child);
            sink(items, places, activities, child);
        }
    }
}

/// Makes a heap of the items, whatever their order.
pub fn order(items: &mut [u32], places: &mut [usize], activities: &[u64])
    requires sized { length places.old ≡ length activities.now }
    requires placed { (members : List Bool) × IsPlaced members items.old places.old }
    ensures placed { (members : List Bool) → IsPlaced members items.old places.old → IsPlaced members items.new places.new }
    ensures heap { IsHeap (rank_at activities.now items.new) (length items.new) }
{
    for k in 0..items.len() {
        rise(items, places, activities, k + 1, k);
    }
}

// Puts what was the last item in the place of the first.
fn replace_first(items: &mut [u32], places: &mut [usize], activities: &[u64], last: u32)
    requires some { 0 < length items.old }
    requires small { length items.old < 2 ^ 62 }
    requires sized { length places.old ≡ length activities.now }
    requires placed { (members : List Bool) × IsPlaced members (items.old ++ last ∷ []) places.old }
    requires heap { IsHeap (rank_at activities.now items.old) (length items.old) }
    ensures placed { (members : List Bool) → IsPlaced members (items.old ++ last ∷ []) places.old →
        IsPlaced (slice_set members (slice_index items.old 0) false) items.new places.new }
    ensures heap { IsHeap (rank_at activities.now items.new) (length items.new) }
{
    put(items, places, 0, last);
    sink(items, places, activities, 0);
}

/// Takes the first item out.
pub fn take_first(items: &mut Vec<u32>, places: &mut [usize], activities: &[u64]) -> Option<u32>
    requires small { vec_len items.old < 2 ^ 62 }
    requires sized { length places.old ≡ length activities.now }
    requires placed { (members : List Bool) × IsPlaced members items.old.items places.old }
    requires heap { IsHeap (rank_at activities.now items.old.items) (length items.old.items) }
    ensures none { IfNone result ((items.old.items ≡ []) × (items.new.items ≡ []) × (places.new ≡ places.old)) }
    ensures some { IfSome result (λ v. (0 < length items.old.items) × (v ≡ slice_index items.old.items 0)) }
    ensures len { IfSome result (λ v. length items.new.items + 1 ≡ length items.old.items) }
    ensures placed { IfSome result (λ v. (members : List Bool) → IsPlaced members items.old.items places.old →
        IsPlaced (slice_set members v false) items.new.items places.new) }
    ensures heap { IsHeap (rank_at activities.now items.new.items) (length items.new.items) }
    ensures capacity { vec_capacity items.new ≡ vec_capacity items.old }
{
    let last = items.pop()?;
    if items.is_empty() {
        return Some(last);
    }
    let first = items[0];
    replace_first(items.as_mut_slice(), places, activities, last);
    Some(first)
}
