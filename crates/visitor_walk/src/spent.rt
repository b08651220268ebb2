// The budgets of a walk, and what was spent of them.

/// How many calls and edits a walk may make.
#[derive(Clone, Copy)]
pub struct Limits {
    pub calls: u64,
    pub edits: u64,
}

/// How many calls and edits a walk made.
#[derive(Clone, Copy)]
pub struct Spent {
    pub calls: u64,
    pub edits: u64,
}
