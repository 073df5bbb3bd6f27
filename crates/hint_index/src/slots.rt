//! An index of items by hash: open addressing with linear probing, in a list that doubles where it is half full (Knuth, The Art of
//! Computer Programming, volume 3, 1998, section 6.4). It is a hint: what it gives is compared before it is used, so nothing is
//! promised of it.

use st_memory::Memory;
use std::alloc::Global;

const FEWEST: usize = 1024;

/// A hash, and the number of an item that has it. The number 0 marks a free slot.
#[derive(Clone, Copy)]
pub struct Slot {
    hash: u32,
    number: u32,
}

/// The slots, and how many are taken.
#[derive(Drop)]
pub struct Index {
    slots: Vec<Slot>,
    taken: usize,
}

/// An index of nothing.
pub fn no_index(alloc: Global) -> Index {
    Index {
        slots: Vec::new(alloc),
        taken: 0,
    }
}

/// Where the search for a hash begins.
fn start(slots: &[Slot], hash: u32) -> usize {
    hash as usize & slots.len().wrapping_sub(1)
}

/// The number of the first item with this hash, or 0.
pub fn hint(slots: &[Slot], hash: u32) -> u32 {
    let mut place = start(slots, hash);
    for _ in 0..slots.len() {
        match slots.get(place) {
            None => return 0,
            Some(slot) => {
                if slot.number == 0 || slot.hash == hash {
                    return slot.number;
                }
            }
        }
        place = place.wrapping_add(1) & slots.len().wrapping_sub(1);
    }
    0
}

/// The first free slot for a hash.
fn free_place(slots: &[Slot], hash: u32) -> usize {
    let mut place = start(slots, hash);
    for _ in 0..slots.len() {
        match slots.get(place) {
            None => return place,
            Some(slot) => {
                if slot.number == 0 {
                    return place;
                }
            }
        }
        place = place.wrapping_add(1) & slots.len().wrapping_sub(1);
    }
    place
}

fn put(slots: &mut [Slot], slot: Slot) {
    let place = free_place(slots, slot.hash);
    if let Some(free) = slots.get_mut(place) {
        *free = slot;
    }
}

/// Twice as many slots, with the same entries.
fn larger(alloc: Global, slots: &[Slot]) -> Result<Vec<Slot>, Memory> {
    let free = Slot { hash: 0, number: 0 };
    let count = slots.len().saturating_mul(2).max(FEWEST);
    let mut more = vec![in alloc; free; count]?;
    for slot in slots {
        if slot.number != 0 {
            put(more.as_mut_slice(), *slot);
        }
    }
    Ok(more)
}

impl Index {
    pub fn slots(&self) -> &[Slot] {
        self.slots.as_slice()
    }
}

/// Enters an item's number, which isn't 0, under its hash.
pub fn enter(alloc: Global, index: &mut Index, hash: u32, number: u32) -> Result<(), Memory> {
    if index.taken >= index.slots.len() / 2 {
        index.slots = larger(alloc, index.slots.as_slice())?;
    }
    put(index.slots.as_mut_slice(), Slot { hash, number });
    index.taken = index.taken.saturating_add(1);
    Ok(())
}
