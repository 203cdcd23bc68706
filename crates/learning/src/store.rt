// The store of learnt pairs, the first words of a lent memory: two words to a pair, first the ring, then the copies. Which pairs are kept is
// free: a pair that is forgotten costs pruning and no member.
ghost use Rattle.std.specs.Prelude.{◌≡◌, ◌*◌, ◌≤◌, ◌<◌, length, set};
ghost use Rattle.atoms.specs.Bounded.{Decides};
ghost use Rattle.learning.specs.Nogood.{Avoids};
ghost use Rattle.learning.specs.Store.{RING, PAIRS, MEMORY_WORDS, pair_at, Empty, Keeps, SamePairs, PairWritten, Learnt};
ghost use Rattle.learning.specs.Store.{with_pair, learnt_pairs, next_place, learnt_in, Copied, News, NextNews};

use atoms::EVERY_ATOM;
use states::State;

// Pairs that propagate, and behind them pairs kept beside the trail.
pub const RING: usize = 128;

pub const COPIES: usize = 66;

pub const PAIRS: usize = RING + COPIES;

// Behind the pairs stands advice: where the ring is written next, the trail's steps, the atoms that a failed test showed to be unfounded, and a tally
// of how often each atom stood in what was learnt.
const PLACE: usize = 2 * PAIRS;

pub const TRAIL: usize = PLACE + 1;

pub const STEPS: usize = 66;

pub const STEP_WORDS: usize = 3;

pub const UNFOUNDED: usize = TRAIL + STEP_WORDS * STEPS;

pub const SCORES: usize = UNFOUNDED + 1;

// Sixteen binary places count up to 65,535.
const SCORE_PLACES: usize = 16;

pub const MEMORY_WORDS: usize = SCORES + SCORE_PLACES;

// Writes one word behind the pairs.
pub fn note(memory: &mut [u64], at: usize, word: u64)
    requires { (2 * PAIRS ≤ at) × (at < length memory.old) }
    ensures same { SamePairs memory.old memory.new }
    ensures is { memory.new ≡ set memory.old at word }
{
    memory[at] = word;
}

// A store of pairs that nothing completes, without advice.
pub fn empty_store() -> [u64; MEMORY_WORDS]
    ensures { Empty result }
{
    let mut memory = [EVERY_ATOM; MEMORY_WORDS];
    memory[PLACE..].fill(0);
    memory
}

// Pair i of the store.
pub fn read_pair(memory: &[u64], i: usize) -> State
    requires { (MEMORY_WORDS ≤ length memory.now) × (i < PAIRS) }
    ensures { result ≡ pair_at memory.now i }
{
    State {
        up: memory[2 * i],
        dropped: memory[2 * i + 1],
    }
}

// Writes the pair into place i.
fn write_pair(memory: &mut [u64], i: usize, n: State)
    requires { (MEMORY_WORDS ≤ length memory.old) × (i < PAIRS) }
    ensures written { PairWritten i n memory.old memory.new }
    ensures is { memory.new ≡ with_pair memory.old i n }
{
    memory[2 * i] = n.up;
    memory[2 * i + 1] = n.dropped;
}

// The place behind this one. Once the ring is full the number stays above it, so that it tells how many pairs are there.
fn next_place(place: usize) -> usize
    ensures { result ≡ next_place place }
{
    if place < RING {
        return place + 1;
    }
    RING + place % RING + 1
}

// Puts the pair into the ring, in place of the oldest one there.
pub fn learn(memory: &mut [u64], n: State)
    requires { MEMORY_WORDS ≤ length memory.old }
    ensures learnt { Learnt n memory.old memory.new }
    ensures is { memory.new ≡ learnt_in memory.old n }
{
    let place = memory[PLACE] as usize;
    note(memory, PLACE, next_place(place) as u64);
    write_pair(memory, place % RING, n);
}

// How many pairs of the ring were learnt.
pub fn learnt_pairs(memory: &[u64]) -> usize
    requires { MEMORY_WORDS ≤ length memory.now }
    ensures few { result ≤ RING }
    ensures is { result ≡ learnt_pairs memory.now }
{
    RING.min(memory[PLACE] as usize)
}

// Keeps a copy of the pair beside the trail, as far as there is room.
pub fn copy_pair(memory: &mut [u64], at: usize, n: State)
    requires { MEMORY_WORDS ≤ length memory.old }
    ensures keeps { Keeps (Avoids n) memory.old memory.new }
    ensures copied { Copied at n memory.old memory.new }
{
    if COPIES <= at {
        return;
    }
    write_pair(memory, RING + at, n);
}

// Whether the pair has something new to tell of the state: no more than one of its atoms is missing, and that one is undecided.
fn is_news(n: State, s: State) -> bool
    ensures { Decides (News n s) result }
{
    let up = atoms::without(n.up, s.up);
    let dropped = atoms::without(n.dropped, s.dropped);
    let missing = atoms::union(up, dropped);
    if !atoms::at_most_one(missing) {
        return false;
    }
    atoms::are_apart(missing, atoms::union(s.up, s.dropped))
}

// The first pair of the ring, from this one on, that has something new to tell of the state, or RING; nothing is new where nothing completes it.
pub fn next_pair(memory: &[u64], from: usize, s: State) -> usize
    requires { (MEMORY_WORDS ≤ length memory.now) × (from ≤ RING) }
    ensures bounds { (from ≤ result) × (result ≤ RING) }
    ensures news { NextNews memory.now from s result }
{
    if !atoms::are_apart(s.up, s.dropped) {
        return RING;
    }
    for i in from..learnt_pairs(memory) {
        if is_news(read_pair(memory, i), s) {
            return i;
        }
    }
    RING
}
