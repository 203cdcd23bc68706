// What is asked of a unit.

// Its rules, the head atoms that an input may have, its direct predecessors, and those of them whose lists the search looks at.
#[derive(Clone, Copy)]
pub struct Job {
    pub rules: u64,
    pub inputs: u64,
    pub predecessors: u64,
    pub nearest: u64,
}
