// Sets of places by the bytes of their labels; and those of the places whose labels agree with a place's own.

ghost use Rattle.std.specs.Prelude.{◌≡◌, ◌≤◌, ◌<◌};
ghost use Rattle.substitutes.specs.Agreeing.{Places, having, first_having, Equal, Joined, Spread};

use graph::{Label, MAX_ORDER};

// How many values a byte has.
pub const BYTES: usize = 256;

// A set for each place, and one for none.
pub const FIRST_PLACES: usize = MAX_ORDER + 1;

// For each byte, the places whose label has it: as its low byte for the unit 1, as its high byte for 256.
pub fn places(labels: &[Label], unit: Label) -> [u64; BYTES]
    requires { 1 ≤ unit }
    ensures { Places labels.now unit result }
{
    let mut sets = [0u64; BYTES];
    for (w, label) in labels.iter().enumerate() {
        let byte = (*label / unit % 256) as usize;
        sets[byte] = bitset::with(sets[byte], w);
    }
    sets
}

// The places of some labels, for each value of the low byte and of the high one. The two tables are lent: they are of 2 KiB each, and made once.
#[derive(Clone, Copy)]
pub struct LabelPlaces<'a> {
    pub low: &'a [u64; BYTES],
    pub high: &'a [u64; BYTES],
}

impl<'a> LabelPlaces<'a> {
    // The places that have the label.
    pub fn having(self, label: Label) -> u64
        ensures { result ≡ having self.entry.low.now self.entry.high.now label }
    {
        let low_byte = (label % 256) as usize;
        let high_byte = (label / 256) as usize;
        bitset::meet(self.low[low_byte], self.high[high_byte])
    }

    // The first place that has the label, or 64.
    pub fn first_having(self, label: Label) -> usize
        ensures { (result ≡ first_having self.entry.low.now self.entry.high.now label) × (result < 65) }
    {
        bitset::least_member(self.having(label)).unwrap_or(MAX_ORDER)
    }

    // For each place of `old`, the places that have its label.
    pub fn equal(self, old: &[Label]) -> [u64; MAX_ORDER]
        ensures { Equal old.now self.entry.low.now self.entry.high.now result }
    {
        let mut words = [0u64; MAX_ORDER];
        for v in 0..MAX_ORDER {
            if v < old.len() {
                words[v] = self.having(old[v]);
            }
        }
        words
    }

    // To the places equal to each of `old`, those that the pairs of its label put to the first of its label.
    pub fn spread(
        self,
        old: &[Label],
        joined: &[u64; FIRST_PLACES],
        equal: [u64; MAX_ORDER],
    ) -> [u64; MAX_ORDER]
        ensures { Spread old.now self.entry.low.now self.entry.high.now joined.now equal result }
    {
        let mut words = equal;
        for v in 0..MAX_ORDER {
            if v < old.len() {
                let first = self.first_having(old[v]);
                words[v] = bitset::union(equal[v], joined[first]);
            }
        }
        words
    }
}

// Each listed pair puts the new places that have its new label to the first old place that has its old one, which stands for all that have it.
pub fn joined(
    list: &[u8],
    old_places: LabelPlaces<'_>,
    new_places: LabelPlaces<'_>,
) -> [u64; FIRST_PLACES]
    ensures { Joined list.now old_places.entry.low.now old_places.entry.high.now new_places.entry.low.now new_places.entry.high.now result }
{
    let mut sets = [0u64; FIRST_PLACES];
    let count = list.len() / super::PAIR_BYTES;
    for k in 0..count {
        let old = super::label_at(list, super::PAIR_BYTES * k);
        let new = super::label_at(list, super::PAIR_BYTES * k + 2);
        let first = old_places.first_having(old);
        sets[first] = bitset::union(sets[first], new_places.having(new));
    }
    sets
}
