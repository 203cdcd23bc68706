// The rule pass: atoms that every position which satisfies the rules must have or lack, by what is known of it.
ghost use Rattle.std.specs.Prelude.{◌≡◌, ◌<◌};
ghost use Rattle.plan.specs.Limits.{MAX_RULES};
ghost use Rattle.answer_sets.specs.Program.{Satisfies};
ghost use Rattle.answer_sets.specs.Lent.{lent, IsLent, Lent};
ghost use Rattle.states.specs.Narrowing.{Narrows};
ghost use Rattle.answer_sets.specs.RulePass.{HeldInAll, RuleStepped, Sifted};
ghost use Rattle.atoms.specs.Word.{◌⊆◌, ◌∖◌, AtMostOne, atom};

use crate::known::{body_known, words_known};
use crate::rule::{head, negative_body, positive_body};
use crate::truth::{Truth, is_success};
use crate::uses::{used_inputs, uses, with_uses};
use states::{State, one_up, undecided};

// Whether the body is known to hold.
fn is_held(rules: &[u64], rule: usize, up: u64, dropped: u64) -> bool
    requires { IsLent rules.now rule }
    ensures { HeldInAll rules.now rule up dropped result }
{
    let words = words_known(rules, rule, up, atoms::without(dropped, up));
    if uses(rules, rule) == 0 {
        return is_success(words);
    }
    is_success(with_uses(rules, rule, up, dropped, words))
}

// The state in which the last open atom makes the body fail: if the body would hold with the atom up, the atom is dropped, and the other way round.
fn decided_by(rules: &[u64], rule: usize, left: u64, s: State) -> State
    requires { IsLent rules.now rule × AtMostOne left × ((lent rules.now).head rule ⊆ s.dropped) }
    ensures { Narrows (Satisfies (lent rules.now) rule) s result }
{
    let up = atoms::union(s.up, left);
    let down = atoms::union(s.dropped, left);
    if is_held(rules, rule, up, s.dropped) {
        return State {
            up: s.up,
            dropped: down,
        };
    }
    if is_held(rules, rule, s.up, down) {
        return State {
            up,
            dropped: s.dropped,
        };
    }
    s
}

// The state after a rule whose body is open: where its whole head is dropped the body has to fail, by its last open atom.
fn denied(rules: &[u64], rule: usize, s: State) -> State
    requires { IsLent rules.now rule }
    ensures { Narrows (Satisfies (lent rules.now) rule) s result }
{
    if !atoms::is_subset(head(rules, rule), s.dropped) {
        return s;
    }
    let open = undecided(s.up, s.dropped);
    let words = atoms::union(positive_body(rules, rule), negative_body(rules, rule));
    if !atoms::at_most_one(atoms::cut(open, words)) {
        return s;
    }
    let left = atoms::cut(open, atoms::union(words, used_inputs(rules, rule)));
    if atoms::at_most_one(left) {
        return decided_by(rules, rule, left, s);
    }
    s
}

// The state after one rule: where its body holds and no head atom is up, one has to go up; where all are dropped, the search stops.
pub fn rule_step(rules: &[u64], rule: usize, s: State) -> State
    requires { IsLent rules.now rule }
    ensures { RuleStepped rules.now rule s result }
{
    let head = head(rules, rule);
    if !atoms::are_apart(head, s.up) {
        return s;
    }
    let truth = body_known(rules, rule, s.up, s.dropped);
    match truth {
        Truth::Holds => one_up(atoms::without(head, s.dropped), s),
        Truth::Fails => s,
        Truth::Open => denied(rules, rule, s),
    }
}

// Where a round over rules stands: the state, and the rules that some completion of it may not satisfy.
#[derive(Clone, Copy)]
pub struct Passed {
    pub state: State,
    pub left: u64,
}

// A round by its three words.
fn round_of(up: u64, dropped: u64, left: u64) -> Passed
    ensures { result ≡ record { state = record { up = up; dropped = dropped }; left = left } }
{
    Passed {
        state: State { up, dropped },
        left,
    }
}

// The round without a rule that every completion satisfies.
fn without_rule(p: Passed, rule: usize) -> Passed
    requires { rule < MAX_RULES }
    ensures { result ≡ record { state = p.state; left = p.left ∖ atom rule } }
{
    let state = p.state;
    Passed {
        state,
        left: atoms::drop(p.left, rule),
    }
}

// The round in another state.
fn moved_on(p: Passed, state: State) -> Passed
    ensures { result ≡ record { state = state; left = p.left } }
{
    Passed {
        state,
        left: p.left,
    }
}

// One rule of a round: where a head atom is up or its body fails it is left out, and else its step is taken. Of an open body that step is known, and the
// body is not asked again.
fn pass_rule(rules: &[u64], rule: usize, p: Passed) -> Passed
    requires { IsLent rules.now rule × (rule < MAX_RULES) }
    ensures { Sifted (lent rules.now) (atom rule) p.state p.left result }
{
    let s = p.state;
    let heads = head(rules, rule);
    if !atoms::are_apart(heads, s.up) {
        return without_rule(p, rule);
    }
    let truth = body_known(rules, rule, s.up, s.dropped);
    match truth {
        Truth::Holds => moved_on(p, rule_step(rules, rule, s)),
        Truth::Fails => without_rule(p, rule),
        Truth::Open => moved_on(p, denied(rules, rule, s)),
    }
}

// The state after one round over the rules of the word, and those of them that some completion of it may not satisfy. The loop keeps the words apart: a
// struct that is written by halves and read as a whole makes the processor wait at each rule.
pub fn rule_pass(rules: &[u64], which: u64, s: State) -> Passed
    requires { Lent rules.now which }
    ensures { Sifted (lent rules.now) which s which result }
{
    let mut up = s.up;
    let mut dropped = s.dropped;
    let mut left = which;
    for rule in atoms::each(which) {
        let p = pass_rule(rules, rule, round_of(up, dropped, left));
        let t = p.state;
        up = t.up;
        dropped = t.dropped;
        left = p.left;
    }
    round_of(up, dropped, left)
}
