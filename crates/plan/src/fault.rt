// The faults for which a plan is refused, each with its number, its spot and its code.
ghost use Rattle.std.specs.Prelude.{◌≡◌, ◌<◌};
ghost use Rattle.plan.specs.Faults.{number, spot, CODE_STEP as Faults-as-CODE_STEP, code_of, refusal_code};

// A refusal: what is wrong, and its spot (document 01, "Faults, by where they are found"; document 02).
#[derive(Clone, Copy)]
pub enum Fault {
    TableShort(usize),
    Truncated(usize),
    UnknownCommand(usize),
    OutOfOrder(usize),
    TooMany(usize),
    EmptyRule(usize),
    AbsentRule(usize),
    BadEdge(usize),
    TrailingBytes(usize),
    RuleInNoUnit(usize),
    HeadedRuleInSeveral(usize),
    Cycle(usize),
    NonmonotonicUnseen(usize),
    MonotonicUnseen(usize),
    LongList(usize),
    GivenInHead(usize),
    BadTable(usize),
    BadUse(usize),
    ContradictoryBody(usize),
    WrongCount(usize),
}

// The number of the fault.
pub fn fault_number(f: Fault) -> u64
    ensures { result ≡ number f }
{
    match f {
        Fault::TableShort(_) => 1,
        Fault::Truncated(_) => 2,
        Fault::UnknownCommand(_) => 3,
        Fault::OutOfOrder(_) => 4,
        Fault::TooMany(_) => 5,
        Fault::EmptyRule(_) => 6,
        Fault::AbsentRule(_) => 7,
        Fault::BadEdge(_) => 8,
        Fault::TrailingBytes(_) => 9,
        Fault::RuleInNoUnit(_) => 10,
        Fault::HeadedRuleInSeveral(_) => 11,
        Fault::Cycle(_) => 12,
        Fault::NonmonotonicUnseen(_) => 13,
        Fault::MonotonicUnseen(_) => 14,
        Fault::LongList(_) => 15,
        Fault::GivenInHead(_) => 16,
        Fault::BadTable(_) => 18,
        Fault::BadUse(_) => 19,
        Fault::ContradictoryBody(_) => 21,
        Fault::WrongCount(_) => 23,
    }
}

// The spot of the fault.
// Stays: a struct of a kind and a spot would restate every definition and law by the cases of Fault, and edits name single arms (fifteen_at_0).
pub fn fault_spot(f: Fault) -> usize
    ensures { result ≡ spot f }
{
    match f {
        Fault::TableShort(spot) => spot,
        Fault::Truncated(spot) => spot,
        Fault::UnknownCommand(spot) => spot,
        Fault::OutOfOrder(spot) => spot,
        Fault::TooMany(spot) => spot,
        Fault::EmptyRule(spot) => spot,
        Fault::AbsentRule(spot) => spot,
        Fault::BadEdge(spot) => spot,
        Fault::TrailingBytes(spot) => spot,
        Fault::RuleInNoUnit(spot) => spot,
        Fault::HeadedRuleInSeveral(spot) => spot,
        Fault::Cycle(spot) => spot,
        Fault::NonmonotonicUnseen(spot) => spot,
        Fault::MonotonicUnseen(spot) => spot,
        Fault::LongList(spot) => spot,
        Fault::GivenInHead(spot) => spot,
        Fault::BadTable(spot) => spot,
        Fault::BadUse(spot) => spot,
        Fault::ContradictoryBody(spot) => spot,
        Fault::WrongCount(spot) => spot,
    }
}

// A refusal's code is its number times CODE_STEP and its spot, of which WIDEST_SPOT is the most that fits.
pub const CODE_STEP: u64 = 0x10000;

const WIDEST_SPOT: usize = 0xffff;

// A refusal as one number, from its number and its spot.
pub fn code_of(number: u64, spot: usize) -> u64
    requires { number < Faults-as-CODE_STEP }
    ensures { result ≡ code_of number spot }
{
    let high = CODE_STEP * number;
    if WIDEST_SPOT < spot {
        return high + WIDEST_SPOT as u64;
    }
    high + spot as u64
}

// The refusal of a plan as one number.
pub fn refusal_code(fault: Fault) -> u64
    ensures { result ≡ refusal_code fault }
{
    code_of(fault_number(fault), fault_spot(fault))
}
