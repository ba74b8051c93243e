// Sets of the numbers 0 to 63, each a 64-bit word with a digit set for each member.
#![tactic(auto)]

ghost use Rattle.std.specs.Prelude.{◌≡◌, eqb};
ghost use Rattle.bitset.specs.Members.{member, meet_of, union_of, difference_of, insert, members_from};
ghost use Rattle.bitset.specs.Count.{size};
ghost use Rattle.bitset.specs.Least.{least_member, least_above, without_least};

pub fn size(s: u64) -> u32
    ensures { result ≡ size s }
{
    u64::count_ones(s)
}

// A set is empty where its number of ones is 0.
pub fn is_empty(s: u64) -> bool
    ensures { result ≡ eqb s 0 }
{
    u64::count_ones(s) == 0
}

pub fn least_member(s: u64) -> Option<usize>
    ensures { result ≡ least_member s }
{
    if s == 0 {
        None
    } else {
        let lowest = u64::trailing_zeros(s) as usize;
        Some(lowest)
    }
}

// The least member greater than `i`, which may be any number.
pub fn least_above(s: u64, i: usize) -> Option<usize>
    ensures { result ≡ least_above s i }
{
    if 63 <= i {
        return None;
    }
    let above = i + 1;
    let rest = s >> above;
    if rest == 0 {
        None
    } else {
        let lowest = u64::trailing_zeros(rest) as usize;
        let found = lowest + above;
        Some(found)
    }
}

pub fn meet(a: u64, b: u64) -> u64
    ensures { result ≡ meet_of a b }
{
    a & b
}

pub fn union(a: u64, b: u64) -> u64
    ensures { result ≡ union_of a b }
{
    a | b
}

// The members of `a` that are not in `b`: what both hold is part of `a`, and is taken off.
pub fn difference(a: u64, b: u64) -> u64
    ensures { result ≡ difference_of a b }
{
    a - (a & b)
}

// False for an `i` that no set holds, 64 and above.
pub fn has(s: u64, i: usize) -> bool
    ensures { result ≡ member s i }
{
    if i < 64 { (s >> i) & 1 == 1 } else { false }
}

// The set with `i` added; for an `i` that no set holds, the set itself.
pub fn with(s: u64, i: usize) -> u64
    ensures { result ≡ insert s i }
{
    if i < 64 { s | (1 << i) } else { s }
}

// The members from `i` on; none for an `i` that no set holds.
pub fn members_from(s: u64, i: usize) -> u64
    ensures { result ≡ members_from s i }
{
    if i < 64 { (s >> i) << i } else { 0 }
}

// The set without its least member; `s - 1` lacks that digit, and agrees with `s` above it.
pub fn without_least(s: u64) -> u64
    ensures { result ≡ without_least s }
{
    if s == 0 { 0 } else { s & (s - 1) }
}
