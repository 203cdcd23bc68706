// Which undecided atom is decided next, one that stands in most live rules, and in which phase it is tried first. Any would be right; this one
// leaves little to search. Where a rule is at a stop there is none.
ghost use Rattle.std.specs.Prelude.{◌≡◌};
ghost use Rattle.atoms.specs.Bounded.{Decides};
ghost use Rattle.answer_sets.specs.Lent.{IsLent, Lent};
ghost use Rattle.narrowing.specs.Stops.{Stands, Unfailed, StopFound, Chosen};
ghost use Rattle.narrowing.specs.Wide.{IsWide, SomeWide};

use answer_sets::Truth;
use answer_sets::known::body_known;
use answer_sets::rule::{RULE_PLACES, head, negative_body, positive_body, rule_atoms};
use atoms::tally::{count_atoms, most};
use states::State;

// Where a rule stands: it has nothing more to ask for, since a head atom is up or its body fails; its body holds and all its head atoms are dropped, so
// that no completion satisfies it; or it is live.
#[derive(Clone, Copy, PartialEq, Eq)]
pub enum Standing {
    Spent,
    Stopped,
    Live,
}

// What comes next: an atom to decide, or nothing, since this rule is at a stop.
#[derive(Clone, Copy)]
pub enum Choice {
    Atom(usize),
    Stop(usize),
}

// Where the rule stands.
fn standing_of(rules: &[u64], rule: usize, s: State) -> Standing
    requires { IsLent rules.now rule }
    ensures { Stands rules.now rule s result }
{
    let head = head(rules, rule);
    if !atoms::are_apart(head, s.up) {
        return Standing::Spent;
    }
    let truth = body_known(rules, rule, s.up, s.dropped);
    match truth {
        Truth::Fails => Standing::Spent,
        Truth::Open => Standing::Live,
        Truth::Holds => {
            if atoms::is_subset(head, s.dropped) {
                return Standing::Stopped;
            }
            Standing::Live
        },
    }
}

// A head is wide with this many atoms left.
const WIDE: usize = 3;

// Whether the rule has a wide head and is live: then dropping one head atom tells little.
fn is_wide(rules: &[u64], rule: usize, s: State) -> bool
    requires { IsLent rules.now rule }
    ensures { Decides (IsWide rules.now rule s) result }
{
    let standing = standing_of(rules, rule, s);
    match standing {
        Standing::Spent => false,
        Standing::Stopped => false,
        Standing::Live => WIDE <= atoms::count(atoms::without(head(rules, rule), s.dropped)),
    }
}

// Whether one of the rules is wide.
pub fn some_wide(rules: &[u64], which: u64, s: State) -> bool
    requires { Lent rules.now which }
    ensures { Decides (SomeWide rules.now which s) result }
{
    for rule in atoms::each(which) {
        if is_wide(rules, rule, s) {
            return true;
        }
    }
    false
}

// Whether no atom of its own makes the rule's body fail.
fn is_unfailed(rules: &[u64], rule: usize, s: State) -> bool
    requires { IsLent rules.now rule }
    ensures { Decides (Unfailed rules.now rule s) result }
{
    if !atoms::are_apart(positive_body(rules, rule), s.dropped) {
        return false;
    }
    atoms::are_apart(negative_body(rules, rule), s.up)
}

// Counts of the free atoms: by the rules that come first, and by the others.
#[derive(Drop)]
struct Tallies {
    first: [u64; RULE_PLACES],
    others: [u64; RULE_PLACES],
}

// Counts the free atoms of a live rule as `counted` has it, unless its body fails there. They count among the first if the rule has a near atom, and
// otherwise among the others.
fn count_rule(
    counted: &[u64],
    rule: usize,
    standing: Standing,
    s: State,
    free: u64,
    near: u64,
    tallies: &mut Tallies,
)
    requires { IsLent counted.now rule }
{
    let Standing::Live = standing else {
        return;
    };
    if !is_unfailed(counted, rule, s) {
        return;
    }
    let all = rule_atoms(counted, rule);
    let open = atoms::cut(free, all);
    if atoms::are_apart(all, near) {
        count_atoms(&mut tallies.others, open);
        return;
    }
    count_atoms(&mut tallies.first, open);
}

// The same for the rules of the word, up to one that is at a stop: that one, if there is one.
fn count_rules(
    rules: &[u64],
    counted: &[u64],
    which: u64,
    s: State,
    free: u64,
    near: u64,
    tallies: &mut Tallies,
) -> Option<usize>
    requires { Lent rules.now which × Lent counted.now which }
    ensures { StopFound rules.now which s result }
{
    for rule in atoms::each(which) {
        let standing = standing_of(rules, rule, s);
        if standing == Standing::Stopped {
            return Some(rule);
        }
        count_rule(counted, rule, standing, s, free, near, tallies);
    }
    None
}

// What comes next: a rule of the word that is at a stop, if there is one. Otherwise the lowest of the free atoms that stand in most live rules, where rules
// with a near atom come first. The rules that are counted may have other atoms than those that are tested for a stop. Which rule and which free atom is
// handed out is not promised.
pub fn choose(rules: &[u64], counted: &[u64], which: u64, s: State, free: u64, near: u64) -> Choice
    requires { Lent rules.now which × Lent counted.now which × (free ≡ 0 → ⊥) }
    ensures { Chosen rules.now which s free result }
{
    let mut tallies = Tallies {
        first: [0; RULE_PLACES],
        others: [0; RULE_PLACES],
    };
    let found = count_rules(rules, counted, which, s, free, near, &mut tallies);
    match found {
        Some(rule) => Choice::Stop(rule),
        None => Choice::Atom(atoms::lowest(most(&tallies.others, most(&tallies.first, free)))),
    }
}
