// Substitutes: a lent list of pairs of labels, an old one and then a new one. Labels agree where they are equal or their pair is listed.

#![tactic(auto)]

mod sets;

ghost use Rattle.std.specs.Prelude.{◌≡◌, ◌+◌, ◌<◌, length};
ghost use Rattle.bounded.specs.Below.{all_below};
ghost use Rattle.substitutes.specs.Substitutes.{pairs, label_at};
ghost use Rattle.substitutes.specs.Soundness.{pair_sound, substitutes_answer};
ghost use Rattle.substitutes.specs.Agreeing.{Agreeing};
ghost use Rattle.substitutes.specs.Answers.{substitutes_refusal, substitutes_answer_of};

use answers::Refusal;
use graph::{Label, MAX_ORDER};
use sets::LabelPlaces;

// The bytes of a pair: two of the old label, then two of the new.
pub const PAIR_BYTES: usize = 4;

// The greatest length of a list, in bytes.
pub const MAX_BYTES: usize = 1024;

// Why a list is not sound.
#[derive(Clone, Copy, Debug, PartialEq, Eq)]
pub enum SubstitutesFlaw {
    Length,
    Labels,
}

impl Refusal for SubstitutesFlaw {
    ghost says = { substitutes_refusal };

    fn number(self) -> u8 {
        match self {
            SubstitutesFlaw::Length => 23,
            SubstitutesFlaw::Labels => 24,
        }
    }

    fn place(self) -> usize {
        0
    }
}

// The label whose low byte is at `at`, before its high byte.
fn label_at(list: &[u8], at: usize) -> Label
    requires { at + 1 < length list.now }
    ensures { result ≡ label_at list.now at }
{
    little_endian::join_two(list[at], list[at + 1])
}

// Whether no pair has a label 0.
fn labels_sound(list: &[u8]) -> bool
    ensures { result ≡ all_below (pairs list.now) (pair_sound list.now) }
{
    let count = list.len() / PAIR_BYTES;
    for k in 0..count {
        if label_at(list, PAIR_BYTES * k) == 0 || label_at(list, PAIR_BYTES * k + 2) == 0 {
            return false;
        }
    }
    true
}

// Whether the list is sound: its length comes first.
pub fn check_substitutes(list: &[u8]) -> Result<(), SubstitutesFlaw>
    ensures { substitutes_answer_of result ≡ substitutes_answer list.now }
{
    if list.len() % PAIR_BYTES != 0 || MAX_BYTES < list.len() {
        return Err(SubstitutesFlaw::Length);
    }
    if !labels_sound(list) {
        return Err(SubstitutesFlaw::Labels);
    }
    Ok(())
}

// For each of the first 64 places of `old`, the set of those of `new` whose labels agree with its own. The list is gone through once.
pub fn agreeing(old: &[Label], new: &[Label], list: &[u8]) -> [u64; MAX_ORDER]
    ensures { Agreeing old.now new.now list.now result }
{
    let new_low = sets::places(new, 1);
    let new_high = sets::places(new, 256);
    let new_places = LabelPlaces {
        low: &new_low,
        high: &new_high,
    };
    let equal = new_places.equal(old);
    if list.len() < PAIR_BYTES {
        return equal;
    }
    let old_low = sets::places(old, 1);
    let old_high = sets::places(old, 256);
    let old_places = LabelPlaces {
        low: &old_low,
        high: &old_high,
    };
    let joined = sets::joined(list, old_places, new_places);
    old_places.spread(old, &joined, equal)
}
