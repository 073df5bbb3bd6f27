//! Sets of places of one component, as bits.

/// How many places a set can have.
const MOST: u32 = 128;

/// A place of a component: where its control can be. Its number counts the component's alternatives in text order; behind them
/// stands the place of a child that isn't active.
#[derive(Clone, Copy, Debug, PartialEq, Eq)]
pub struct Place {
    pub component: u32,
    pub number: u8,
}

/// A set of places of one component.
#[derive(Clone, Copy, Debug, PartialEq, Eq)]
pub struct PlaceSet {
    bits: u128,
}

/// The bit of a place, or none where there is no such place.
fn bit(place: u8) -> u128 {
    if u32::from(place) < MOST {
        1 << u32::from(place)
    } else {
        0
    }
}

impl PlaceSet {
    /// The set of no place.
    pub const EMPTY: PlaceSet = PlaceSet { bits: 0 };

    /// The set of one place.
    pub fn one(place: u8) -> PlaceSet {
        PlaceSet { bits: bit(place) }
    }

    /// The set of the first places, or `None` where there are more than 128.
    pub fn first(count: usize) -> Option<PlaceSet> {
        if count > 128 {
            return None;
        }
        let mut all = PlaceSet::EMPTY;
        for place in 0..count {
            all = all.union(PlaceSet::one(place as u8));
        }
        Some(all)
    }

    /// Whether the place is in the set.
    pub fn has(self, place: u8) -> bool {
        self.bits & bit(place) != 0
    }

    pub fn is_empty(self) -> bool {
        self.bits == 0
    }

    /// How many places are in the set.
    pub fn len(self) -> u32 {
        self.bits.count_ones()
    }

    /// Whether each place of the set is in the other.
    pub fn is_within(self, other: PlaceSet) -> bool {
        self.bits & other.bits == self.bits
    }

    /// The places of both sets.
    pub fn union(self, other: PlaceSet) -> PlaceSet {
        PlaceSet {
            bits: self.bits | other.bits,
        }
    }

    /// The places that the sets have in common.
    pub fn intersection(self, other: PlaceSet) -> PlaceSet {
        PlaceSet {
            bits: self.bits & other.bits,
        }
    }

    /// The places that aren't in the other set.
    pub fn difference(self, other: PlaceSet) -> PlaceSet {
        PlaceSet {
            bits: self.bits & !other.bits,
        }
    }
}
