// What a call is lent and what it asks, as the structs that the inner functions hand on.
use rows::Ptr;

// What a call reads and never writes.
#[derive(Clone, Copy, Debug, PartialEq, Eq)]
pub struct Lent<'a> {
    pub library: &'a [u32],
    pub declarations: &'a [u32],
    pub rules: &'a [u32],
    pub context: &'a [u32],
}

// The depth of the context, the used rows of the scratch, the term, and the budgets.
#[derive(Clone, Copy, Debug, PartialEq, Eq)]
pub struct Asked {
    pub depth: u32,
    pub mark: u32,
    pub term: Ptr,
    pub steps: u32,
    pub nesting: u32,
}
