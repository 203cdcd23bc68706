// Reasons of a unit's steps, found by running a step again on a smaller state: if it still tells the same, the smaller state is a reason.
ghost use Rattle.std.specs.Prelude.{◌≡◌, true, ◌≤◌, ◌<◌, length};
ghost use Rattle.atoms.specs.Word.{ATOMS};
ghost use Rattle.plan.specs.Limits.{MAX_TABLES, MAX_UNITS};
ghost use Rattle.answer_sets.specs.Lent.{IsLent, Lent};
ghost use Rattle.states.specs.Narrowing.{Narrows};
ghost use Rattle.learning.specs.Store.{MEMORY_WORDS, STEPS};
ghost use Rattle.learning.specs.Reason.{Heeds, Explains};
ghost use Rattle.joining.specs.Filter.{JoinsAll};
ghost use Rattle.propagating.specs.Context.{WiredIn};
ghost use Rattle.explaining.specs.Claims.{Told};

use crate::claim::Claim;
use answer_sets::rule::{head, looks, negative_body, positive_body, rule_atoms};
use answer_sets::uses::table_inputs;
use atoms::ATOMS;
use joining::filter::{filter_step, full_filter};
use learning::nogood::refute;
use learning::reason::tells;
use learning::store::read_pair;
use learning::trail::{decided_since, noted_unfounded};
use narrowing::founded_step::founded_step;
use narrowing::steps::{apply_rule, apply_support};
use narrowing::unfounded::drop_unfounded;
use parities::{parity_atoms, sum_step, telling_atoms};
use pilots::table_step::table_step;
use plan::FIRST_RULE;
use propagating::context::Context;
use propagating::desk::{BACKERS, DESK_WORDS, INDEX, LINKED, PILOTS, backing};
use propagating::step::Step;
use states::State;

// The state after list v, of which all entries are looked at.
fn list_again(cx: &Context<'_>, v: usize, s: State) -> State
    requires { v < MAX_UNITS }
    ensures { Narrows (JoinsAll cx.now.table.now cx.now.counts.now cx.now.desk.now cx.now.unit.nearest) s result }
{
    let mut filter = full_filter(cx.counts);
    filter_step(
        cx.table,
        cx.counts,
        cx.desk,
        cx.unit.nearest,
        v,
        &mut filter,
        s,
    )
}

// The state after the claim's step, run on its part.
fn step_again(cx: &Context<'_>, memory: &[u64], c: Claim) -> State
    requires { MEMORY_WORDS ≤ length memory.now }
    ensures { Narrows (Heeds (WiredIn cx.now) memory.now) c.part result }
{
    let s = c.part;
    match c.step {
        Step::Rule(rule) => apply_rule(&cx.desk[LINKED..DESK_WORDS], cx.unit.rules, rule, s),
        Step::Support(atom) => apply_support(
            &cx.desk[LINKED..DESK_WORDS],
            cx.unit.rules,
            cx.unit.inputs,
            &cx.desk[BACKERS..INDEX],
            atom,
            s,
        ),
        Step::List(list) => list_again(cx, list, s),
        Step::Founded => founded_step(cx.rules, cx.unit.rules, cx.unit.inputs, s),
        Step::Table(t) => table_step(cx.rules, t, cx.pilot(t), s),
        Step::Sums => sum_step(cx.rules, &cx.desk[PILOTS..LINKED], cx.unit.rules, s),
        Step::Pair(i) => refute(read_pair(memory, i), s),
        Step::Unfounded => drop_unfounded(cx.rules, cx.unit.rules, cx.unit.inputs, c.unfounded, s),
    }
}

// The same atoms up and dropped.
fn either_way(word: u64) -> State {
    State {
        up: word,
        dropped: word,
    }
}

// The atoms of a rule, if it is numbered.
fn numbered_atoms(rules: &[u64], which: u64, rule: usize) -> u64
    requires { Lent rules.now which × (rule < ATOMS) }
{
    if atoms::are_apart(which, atoms::single(rule)) {
        return 0;
    }
    rule_atoms(rules, rule)
}

// What is seen so far, and the atoms that keep the rule from supporting the atom: those that do so when up, and those that do so when dropped.
fn excluded_by(rules: &[u64], rule: usize, seen: State) -> State
    requires { IsLent rules.now rule }
{
    let looked = looks(rules, rule);
    let inputs = atoms::without(looked, negative_body(rules, rule));
    let up = atoms::union(head(rules, rule), looked);
    let dropped = atoms::union(positive_body(rules, rule), inputs);
    State {
        up: atoms::union(seen.up, up),
        dropped: atoms::union(seen.dropped, dropped),
    }
}

// The atoms that keep one of the rules from supporting an atom.
fn excluding(rules: &[u64], which: u64) -> State
    requires { Lent rules.now which }
{
    let mut seen = State { up: 0, dropped: 0 };
    for rule in atoms::each(which) {
        seen = excluded_by(rules, rule, seen);
    }
    seen
}

// What is seen so far, and the atoms that keep the rule from founding an atom of x. Only a rule with an atom of x in the head and none in the positive word
// could found one.
fn unfounded_by(rules: &[u64], rule: usize, x: u64, seen: State) -> State
    requires { IsLent rules.now rule }
{
    if atoms::are_apart(head(rules, rule), x) {
        return seen;
    }
    if !atoms::are_apart(positive_body(rules, rule), x) {
        return seen;
    }
    excluded_by(rules, rule, seen)
}

// The atoms of x, and those that keep the rules from founding one of them.
fn unfounding(rules: &[u64], which: u64, x: u64) -> State
    requires { Lent rules.now which }
{
    let mut seen = State { up: x, dropped: 0 };
    for rule in atoms::each(which) {
        seen = unfounded_by(rules, rule, x, seen);
    }
    seen
}

// The inputs of a table and its pilot, where there are tables.
fn table_atoms(cx: &Context<'_>, t: usize) -> u64
    requires { t < MAX_TABLES }
{
    if cx.rules.len() < FIRST_RULE {
        return 0;
    }
    atoms::union(table_inputs(cx.rules, t), cx.pilot(t))
}

// The atoms that the state, or the pair, has decided.
fn decided(s: State) -> u64 {
    atoms::union(s.up, s.dropped)
}

// What the claim's step looks at: atoms that are up, and atoms that are dropped. It is advice: a reason that has too few does not tell the goal.
fn looked_at(cx: &Context<'_>, memory: &[u64], c: Claim) -> State
    requires { MEMORY_WORDS ≤ length memory.now }
{
    match c.step {
        Step::Rule(rule) => either_way(numbered_atoms(
            &cx.desk[LINKED..DESK_WORDS],
            cx.unit.rules,
            rule,
        )),
        Step::Support(atom) => excluding(
            &cx.desk[LINKED..DESK_WORDS],
            backing(cx.desk, cx.unit.rules, atom),
        ),
        Step::List(list) => either_way(cx.desk[list]),
        Step::Founded => either_way(atoms::first(ATOMS)),
        Step::Table(t) => either_way(table_atoms(cx, t)),
        Step::Sums => either_way(atoms::union(
            parity_atoms(cx.rules, &cx.desk[PILOTS..LINKED]),
            telling_atoms(cx.rules, cx.unit.rules),
        )),
        Step::Pair(i) => either_way(decided(read_pair(memory, i))),
        Step::Unfounded => unfounding(cx.rules, cx.unit.rules, c.unfounded),
    }
}

// The atoms that may be spared in a reason: those of rules and pairs are few already.
fn to_spare(c: Claim) -> u64 {
    match c.step {
        Step::Rule(_) | Step::Pair(_) => 0,
        _ => decided(c.part),
    }
}

// Whether the step, run on the part, still tells the goal.
fn still_tells(cx: &Context<'_>, memory: &[u64], c: Claim) -> bool
    requires { MEMORY_WORDS ≤ length memory.now }
    ensures { result ≡ true → Told (WiredIn cx.now) memory.now c.goal c }
{
    let t = step_again(cx, memory, c);
    tells(t, c.goal)
}

// The claim without the atom in its part if the step can spare it, and else as it is.
fn spare(cx: &Context<'_>, memory: &[u64], c: Claim, atom: usize) -> Claim
    requires { (MEMORY_WORDS ≤ length memory.now) × (atom < ATOMS) × Told (WiredIn cx.now) memory.now c.goal c }
    ensures { Told (WiredIn cx.now) memory.now c.goal result }
{
    let part = c.part;
    let goal = c.goal;
    let fewer = State {
        up: atoms::drop(part.up, atom),
        dropped: atoms::drop(part.dropped, atom),
    };
    let less = Claim {
        step: c.step,
        part: fewer,
        goal,
        unfounded: c.unfounded,
    };
    if still_tells(cx, memory, less) {
        return less;
    }
    c
}

// The claim without those of the atoms that the step can spare, one after the other.
fn spare_each(cx: &Context<'_>, memory: &[u64], claim: Claim, which: u64) -> Claim
    requires { (MEMORY_WORDS ≤ length memory.now) × Told (WiredIn cx.now) memory.now claim.goal claim }
    ensures { Told (WiredIn cx.now) memory.now claim.goal result }
{
    let mut c = claim;
    for atom in atoms::each(which) {
        c = spare(cx, memory, c, atom);
    }
    c
}

// The claim without what its step can spare. What was decided last is tried first, going back in the trail from step `at`.
fn shrink(cx: &Context<'_>, memory: &[u64], claim: Claim, at: usize) -> Claim
    requires { (MEMORY_WORDS ≤ length memory.now) × (at < STEPS) × Told (WiredIn cx.now) memory.now claim.goal claim }
    ensures { Told (WiredIn cx.now) memory.now claim.goal result }
{
    let mut c = claim;
    let mut rest = to_spare(claim);
    for i in (0..at).rev() {
        if rest == 0 {
            return c;
        }
        let new = decided_since(memory, i, rest);
        c = spare_each(cx, memory, c, new);
        rest = atoms::without(rest, new);
    }
    c
}

// The claim of the step that is run again for this one, with the atoms that it drops together because they are unfounded: for the founded step those that it
// drops from the state, by the unfounded one, which needs no other closure; else those that were noted.
fn run_as(cx: &Context<'_>, memory: &[u64], c: Claim) -> Claim
    requires { MEMORY_WORDS ≤ length memory.now }
    ensures { result.goal ≡ c.goal }
{
    let part = c.part;
    let goal = c.goal;
    match c.step {
        Step::Founded => {
            let t = founded_step(cx.rules, cx.unit.rules, cx.unit.inputs, part);
            Claim {
                step: Step::Unfounded,
                part,
                goal,
                unfounded: atoms::without(t.dropped, part.dropped),
            }
        },
        step => Claim {
            step,
            part,
            goal,
            unfounded: noted_unfounded(memory),
        },
    }
}

// A reason of the claim's goal. Step `at` of the trail told the goal from the claim's part; the reason is those atoms of the part that the step looks at and
// cannot spare. Where the step does not tell the goal from these, the reason is the goal itself.
pub fn explain(cx: &Context<'_>, memory: &[u64], c: Claim, at: usize) -> State
    requires { (MEMORY_WORDS ≤ length memory.now) × (at < STEPS) }
    ensures { Explains (Heeds (WiredIn cx.now) memory.now) result c.goal }
{
    let again = run_as(cx, memory, c);
    let whole = again.part;
    let goal = again.goal;
    let seen = looked_at(cx, memory, again);
    let part = State {
        up: atoms::cut(whole.up, seen.up),
        dropped: atoms::cut(whole.dropped, seen.dropped),
    };
    let near = Claim {
        step: again.step,
        part,
        goal,
        unfounded: again.unfounded,
    };
    if !still_tells(cx, memory, near) {
        return goal;
    }
    let least = shrink(cx, memory, near, at);
    least.part
}
