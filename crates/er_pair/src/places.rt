ghost use Rattle.std.specs.Prelude.{◌≡◌, ℕ, ◌<◌, ◌≤◌, ◌==◌, ◌||◌, ◌&&◌, not, length, All, IsFalse, IfOk, MatchOption};
ghost use Rattle.er_pair.specs.inside.Places.{has_place, ahead_of, is_later, IsNext, IsNoneAhead};

use std::alloc::{AllocError, Global};

/// How many words a set of places has.
const WORDS: usize = 9;

/// How many bits that is, one for each place: enough for the numbers 0 to 512.
pub const BITS: usize = 64 * WORDS;

/// A set of places, one bit for each: of positions in an order, or of numbers.
#[derive(Clone, Copy, Debug)]
pub struct Places {
    words: [u64; WORDS],
}

impl Places {
    pub fn empty() -> Places
        ensures { (place : ℕ) → IsFalse (has_place result place) }
    {
        Places { words: [0; WORDS] }
    }

    /// The places that it doesn't have.
    pub fn complement(&self) -> Places
        ensures { (place : ℕ) → place < BITS
            → has_place result place ≡ not (has_place self.now place) }
    {
        let mut words = [0; WORDS];
        for index in 0..WORDS {
            words[index] = !self.words[index];
        }
        Places { words }
    }

    pub fn has(&self, place: usize) -> bool
        requires { place < BITS }
        ensures { result ≡ has_place self.now place }
    {
        (self.words[place / 64] >> (place % 64)) & 1 == 1
    }

    pub fn insert(&mut self, place: usize)
        requires { place < BITS }
        ensures { (other : ℕ)
            → has_place self.new other ≡ (other == place || has_place self.old other) }
    {
        self.words[place / 64] |= 1 << (place % 64);
    }

    pub fn remove(&mut self, place: usize)
        requires { place < BITS }
        ensures { (other : ℕ)
            → has_place self.new other ≡ (not (other == place) && has_place self.old other) }
    {
        self.words[place / 64] &= !(1 << (place % 64));
    }
}

/// `count` rows, each without a place.
pub fn empty_rows(alloc: Global, count: usize) -> Result<Vec<Places>, AllocError>
    ensures count { IfOk result (λ rows. length rows.items ≡ count) }
    ensures empty { IfOk result (λ rows. All (λ row. (place : ℕ)
        → IsFalse (has_place row place)) rows.items) }
{
    vec![in alloc; Places::empty(); count]
}

/// A place in a walk over the places that two sets leave free: the word that it stands in, and the bits of that word that are ahead.
#[derive(Clone, Copy)]
pub struct Cursor {
    pub index: usize,
    pub left: u64,
}

impl Cursor {
    /// Before each place that is left free.
    pub fn before_all(taken: &Places) -> Cursor
        ensures word { result.index < WORDS }
        ensures ahead { (place : ℕ)
            → ahead_of taken.now taken.now result place ≡ not (has_place taken.now place) }
    {
        Cursor {
            index: 0,
            left: !taken.words[0],
        }
    }

    /// The next place that neither set has, before the end.
    pub fn next(&mut self, one: &Places, other: &Places, end: usize) -> Option<usize>
        requires word { self.old.index < WORDS }
        requires end { end ≤ BITS }
        ensures word { self.new.index < WORDS }
        ensures found { MatchOption result (IsNoneAhead one.now other.now self.old end)
            (IsNext one.now other.now self.old self.new end) }
    {
        while self.left == 0 {
            if 64 * (self.index + 1) >= end {
                return None;
            }
            self.index += 1;
            self.left = !(one.words[self.index] | other.words[self.index]);
        }
        let bit = self.left.trailing_zeros() as usize;
        self.left &= !(1 << bit);
        let place = 64 * self.index + bit;
        if place < end { Some(place) } else { None }
    }

    /// The same walk without these places.
    pub fn without(self, taken: &Places) -> Cursor
        requires word { self.index < WORDS }
        ensures word { result.index < WORDS }
        ensures ahead { (used : Places) (p : ℕ)
            → ahead_of taken.now used result p
            ≡ (ahead_of used used self p && not (has_place taken.now p)) }
    {
        Cursor {
            index: self.index,
            left: self.left & !taken.words[self.index],
        }
    }

    /// The same walk without one of its places: if that stands in a later word, it is used from now on.
    pub fn but(self, used: &mut Places, place: usize) -> Cursor
        requires word { self.index < WORDS }
        requires place { place < BITS }
        ensures word { result.index < WORDS }
        ensures ahead { (p : ℕ)
            → ahead_of used.new used.new result p
            ≡ (ahead_of used.old used.old self p && not (p == place)) }
        ensures used { (p : ℕ)
            → has_place used.new p ≡ (is_later self.index place p || has_place used.old p) }
    {
        if place / 64 != self.index {
            used.insert(place);
            return self;
        }
        Cursor {
            index: self.index,
            left: self.left & !(1 << (place % 64)),
        }
    }

    /// What `but` used is free again.
    pub fn give_back(self, used: &mut Places, place: usize)
        requires { place < BITS }
        ensures { (p : ℕ)
            → has_place used.new p ≡ (not (is_later self.index place p) && has_place used.old p) }
    {
        if place / 64 != self.index {
            used.remove(place);
        }
    }
}
