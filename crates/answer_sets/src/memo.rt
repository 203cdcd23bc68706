// The memo of a subset test that said none: what its rounds left. A test that comes to the same rules and the same atoms of them says none too.
ghost use Rattle.std.specs.Prelude.{◌≡◌, true, length};
ghost use Rattle.answer_sets.specs.Lent.{Lent};
ghost use Rattle.answer_sets.specs.Memo.{MEMO_WORDS, memo_of, Blank, Written, differing, NoRuleHas, RestAlike};

use crate::rule::rule_atoms;
use crate::rule_pass::Passed;
use atoms::EVERY_ATOM;
use states::{State, undecided};

// The rules that are left, and the two words of the state.
pub const MEMO_WORDS: usize = 3;

// A memo that says nothing: nothing completes its state.
pub fn blank_memo() -> [u64; MEMO_WORDS]
    ensures { Blank result }
{
    [EVERY_ATOM; MEMO_WORDS]
}

// The memo's three words, read.
fn read_memo(memo: &[u64]) -> Passed
    requires { length memo.now ≡ MEMO_WORDS }
    ensures { result ≡ memo_of memo.now }
{
    Passed {
        state: State {
            up: memo[1],
            dropped: memo[2],
        },
        left: memo[0],
    }
}

// Writes down what the rounds left.
pub fn write_memo(memo: &mut [u64], p: Passed)
    requires { length memo.old ≡ MEMO_WORDS }
    ensures { Written p memo.new }
{
    let s = p.state;
    memo[0] = p.left;
    memo[1] = s.up;
    memo[2] = s.dropped;
}

// The atoms of which the two states say different things.
fn differing_atoms(s: State, t: State) -> u64
    ensures { result ≡ differing s t }
{
    let up = atoms::union(atoms::without(s.up, t.up), atoms::without(t.up, s.up));
    let dropped = atoms::union(
        atoms::without(s.dropped, t.dropped),
        atoms::without(t.dropped, s.dropped),
    );
    atoms::union(up, dropped)
}

// Whether no rule of the word has one of these atoms.
fn are_untouched(rules: &[u64], which: u64, w: u64) -> bool
    requires { Lent rules.now which }
    ensures { result ≡ true → NoRuleHas rules.now which w }
{
    for rule in atoms::each(which) {
        if !atoms::are_apart(rule_atoms(rules, rule), w) {
            return false;
        }
    }
    true
}

// Whether the memo tells of what these rounds left, at a position.
pub fn memo_tells(rules: &[u64], memo: &[u64], position: u64, p: Passed) -> bool
    requires { Lent rules.now p.left × (length memo.now ≡ MEMO_WORDS) }
    ensures { result ≡ true → RestAlike rules.now position (memo_of memo.now) p }
{
    let n = read_memo(memo);
    let s = n.state;
    let t = p.state;
    if !atoms::is_subset(n.left, p.left) {
        return false;
    }
    if !atoms::are_apart(s.up, s.dropped) {
        return false;
    }
    if !atoms::are_apart(t.dropped, position) {
        return false;
    }
    let w = differing_atoms(s, t);
    if !atoms::are_apart(w, undecided(t.up, t.dropped)) {
        return false;
    }
    are_untouched(rules, n.left, w)
}
