ghost use Rattle.std.specs.Prelude.{◌≡◌, ℕ, ◌<◌, ◌≤◌, true, false, slice_index_or, set, length, map, vec_capacity, IfSome, Contains};
ghost use Rattle.cs_schedule.specs.declared.slots.Slot.{Slot as TheSlot};
ghost use Rattle.cs_schedule.specs.Index.{slot_le, AreSorted, put_slot, take_slot, put_key, take_key, behind, IsFirstWith};

/// The place of a row in an ordered list, with the number by which it stands there.
#[derive(Clone, Copy, Debug)]
pub struct Slot {
    pub key: u64,
    /// The place among the rows, counted from 0.
    pub place: usize,
}

/// Whether a slot stands at or before another.
fn is_by(one: &Slot, other: &Slot) -> bool
    ensures { result ≡ slot_le one.now other.now }
{
    if one.key == other.key {
        return one.place <= other.place;
    }
    one.key <= other.key
}

/// The first place at which a slot stands that is not before this one, among sorted ones.
fn place_of(slots: &[Slot], slot: Slot) -> usize
    requires { AreSorted slots.now }
    ensures bound { result ≤ length slots.now }
    ensures below { (k : ℕ) (d : TheSlot) → k < result → slot_le slot (slice_index_or slots.now k d) ≡ false }
    ensures over { (k : ℕ) (d : TheSlot) → k < length slots.now → result ≤ k → slot_le slot (slice_index_or slots.now k d) ≡ true }
{
    let mut low = 0;
    let mut high = slots.len();
    while low < high {
        let middle = low + (high - low) / 2;
        if is_by(&slot, &slots[middle]) {
            high = middle;
        } else {
            low = middle + 1;
        }
    }
    low
}

/// Puts a slot among sorted ones, where there is room for it.
fn put_slot(slots: &mut Vec<Slot>, slot: Slot)
    requires sorted { AreSorted slots.old.items }
    requires room { length slots.old.items < vec_capacity slots.old }
    ensures slots { slots.new.items ≡ put_slot slot slots.old.items }
    ensures capacity { vec_capacity slots.new ≡ vec_capacity slots.old }
{
    let place = place_of(slots.as_slice(), slot);
    match slots.insert(place, slot) {
        Ok(()) => {}
        Err(_) => unreachable!(),
    }
}

/// Takes a slot out that stands among sorted ones.
fn take_slot(slots: &mut Vec<Slot>, slot: Slot)
    requires sorted { AreSorted slots.old.items }
    requires there { Contains slots.old.items slot }
    ensures slots { slots.new.items ≡ take_slot slot slots.old.items }
    ensures capacity { vec_capacity slots.new ≡ vec_capacity slots.old }
{
    let place = place_of(slots.as_slice(), slot);
    slots.remove(place);
}

/// Puts the slot of a place among sorted ones, where it has a number.
pub(crate) fn put_key(slots: &mut Vec<Slot>, key: Option<u64>, place: usize)
    requires sorted { AreSorted slots.old.items }
    requires room { length slots.old.items < vec_capacity slots.old }
    ensures slots { slots.new.items ≡ put_key key place slots.old.items }
    ensures capacity { vec_capacity slots.new ≡ vec_capacity slots.old }
{
    match key {
        Some(key) => put_slot(slots, Slot { key, place }),
        None => {}
    }
}

/// Takes the slot of a place out, where it has a number.
pub(crate) fn take_key(slots: &mut Vec<Slot>, key: Option<u64>, place: usize)
    requires sorted { AreSorted slots.old.items }
    requires there { IfSome key (λ k. Contains slots.old.items (record { key = k; place = place })) }
    ensures slots { slots.new.items ≡ take_key key place slots.old.items }
    ensures capacity { vec_capacity slots.new ≡ vec_capacity slots.old }
{
    match key {
        Some(key) => take_slot(slots, Slot { key, place }),
        None => {}
    }
}

/// A slot where a row is put at a place.
fn behind(slot: Slot, place: usize, count: usize) -> Slot
    requires { slot.place < count }
    ensures { result ≡ behind place slot }
{
    if place <= slot.place {
        return Slot {
            key: slot.key,
            place: slot.place + 1,
        };
    }
    slot
}

/// Moves the slot at an index behind the row that is put at a place.
fn set_behind(slots: &mut Vec<Slot>, index: usize, place: usize, count: usize)
    requires inside { index < length slots.old.items }
    requires below { (d : TheSlot) → (slice_index_or slots.old.items index d).place < count }
    ensures slots { (d : TheSlot) → slots.new.items ≡ set slots.old.items index (behind place (slice_index_or slots.old.items index d)) }
    ensures capacity { vec_capacity slots.new ≡ vec_capacity slots.old }
{
    slots[index] = behind(slots[index], place, count);
}

/// The slots of rows, so many, where a row is put at a place among them.
pub(crate) fn move_behind(slots: &mut Vec<Slot>, place: usize, count: usize)
    requires below { (s : TheSlot) → Contains slots.old.items s → s.place < count }
    ensures slots { slots.new.items ≡ map (behind place) slots.old.items }
    ensures capacity { vec_capacity slots.new ≡ vec_capacity slots.old }
{
    if place == count {
        return;
    }
    for index in 0..slots.as_slice().len() {
        set_behind(slots, index, place, count);
    }
}

/// The first place from one on that stands there with a number, among sorted slots.
pub(crate) fn first_with(slots: &[Slot], key: u64, from: usize) -> Option<usize>
    requires { AreSorted slots.now }
    ensures { IsFirstWith slots.now key from result }
{
    let index = place_of(slots, Slot { key, place: from });
    if index == slots.len() {
        return None;
    }
    let slot = &slots[index];
    if slot.key == key {
        return Some(slot.place);
    }
    None
}

/// How many slots at the front have at most this number, among sorted ones.
pub(crate) fn end_of(slots: &[Slot], key: u64) -> usize
    requires { AreSorted slots.now }
    ensures bound { result ≤ length slots.now }
    ensures below { (k : ℕ) (d : TheSlot) → k < result → (slice_index_or slots.now k d).key ≤ key }
    ensures over { (k : ℕ) (d : TheSlot) → k < length slots.now → result ≤ k → key < (slice_index_or slots.now k d).key }
{
    let mut low = 0;
    let mut high = slots.len();
    while low < high {
        let middle = low + (high - low) / 2;
        if key < slots[middle].key {
            high = middle;
        } else {
            low = middle + 1;
        }
    }
    low
}
