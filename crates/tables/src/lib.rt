// Declarations, recursor rules, roles and the context, read by value from the lent words where they stand.
#![tactic(auto)]

ghost use Rattle.std.specs.Prelude.{◌≡◌, suc, ◌+◌, ◌*◌, ◌-◌, ◌≤◌, ◌<◌, length, take, drop};
ghost use Rattle.rules.specs.Accepted.{part};
ghost use Rattle.rules.specs.HeadTests.{rule_for};
ghost use Rattle.tables.specs.Records.{records_from};
ghost use Rattle.tables.specs.Env.{rule_of};
ghost use Rattle.tables.specs.Read.{decl_read, rule_read, found_rule, found_value, value_in, value_given, holder_in, HoldersOf, ValueOf};

use rows::{Ptr, record_at};

pub mod accept;
pub mod clauses;
pub mod codes;
pub mod lent;

pub use codes::{DeclKind, Role};
pub use lent::{Asked, Lent};

// A declaration's words that the head rules read: one record for all kinds, as the words are, since each rule asks for two or three of them.
#[derive(Clone, Copy, Debug, PartialEq, Eq)]
pub struct Decl {
    pub words: DeclWords,
    // none for a word that is no code
    pub kind: Option<DeclKind>,
    pub levels: u32,
    pub role: Option<Role>,
    pub parameters: u32,
    // a constructor's fields, a recursor's motives, a structure type's constructor
    pub second: u32,
    pub minors: u32,
    pub indices: u32,
    pub first_rule: u32,
    pub rules: u32,
}

// The words that a declaration's kind, value and role are read from, as they stand: before acceptance any may.
#[derive(Clone, Copy, Debug, PartialEq, Eq)]
pub struct DeclWords {
    pub kind: u32,
    pub flag: u32,
    pub value: Ptr,
    pub role: u32,
}

impl Decl {
    // Read from the words when it is asked for: as a field of its own it would be copied along at every step.
    pub fn value(self) -> Option<Ptr>
        ensures { result ≡ value_given self }
    {
        let words = self.words;
        value_by(words.flag, words.value.row, words.value.shift)
    }
}

#[derive(Clone, Copy, Debug, PartialEq, Eq)]
pub struct Rule {
    pub constructor: u32,
    pub fields: u32,
    pub value: Ptr,
}

// The number of the declaration that holds each role, at the role's code.
#[derive(Clone, Copy, Debug, PartialEq, Eq)]
pub struct Holders {
    pub of: [Option<u32>; 16],
}

impl Holders {
    pub fn holder(self, role: Role) -> Option<u32>
        ensures { result ≡ holder_in self role }
    {
        self.of[role.code()]
    }
}

pub fn decl_at(decls: &[u32], d: u32) -> Decl
    requires { 16 * d + 16 ≤ length decls.now }
    ensures { result ≡ decl_read (part 16 decls.now d) }
{
    let w = record_at::<16>(decls, 16 * d as usize);
    Decl {
        words: DeclWords {
            kind: w[0],
            flag: w[4],
            value: Ptr {
                row: w[5],
                shift: w[6],
            },
            role: w[7],
        },
        kind: DeclKind::try_from(w[0]).ok(),
        levels: w[1],
        role: Role::try_from(w[7]).ok(),
        parameters: w[8],
        second: w[9],
        minors: w[10],
        indices: w[11],
        first_rule: w[13],
        rules: w[14],
    }
}

// A value's three words: the flag is 0 where there is none, and a word, since any may stand there.
fn value_by(flag: u32, row: u32, shift: u32) -> Option<Ptr>
    ensures { result ≡ value_in flag (record { row = row; shift = shift }) }
{
    match flag {
        0 => None,
        _ => Some(Ptr { row, shift }),
    }
}

pub fn rule_at(rules: &[u32], i: usize) -> Rule
    requires { 4 * i + 4 ≤ length rules.now }
    ensures { result ≡ rule_read (part 4 rules.now i) }
{
    let w = record_at::<4>(rules, 4 * i);
    Rule {
        constructor: w[0],
        fields: w[1],
        value: Ptr {
            row: w[2],
            shift: w[3],
        },
    }
}

// The first of `count` rules from number `first` on that is for the constructor.
pub fn rule_for(rules: &[u32], first: u32, count: u32, constructor: u32) -> Option<Rule>
    requires { 4 * (first + count) ≤ length rules.now }
    ensures { found_rule result ≡ rule_for constructor (records_from 4 rules.now rule_of first count) }
{
    let first = first as usize;
    (first..first + count as usize)
        .map(|i| rule_at(rules, i))
        .find(|rule| rule.constructor == constructor)
}

// From the last declaration down, so that the lowest holder of a role is the one that stays.
pub fn role_holders(decls: &[u32]) -> Holders
    requires { length decls.now ≤ 65536 }
    ensures { HoldersOf decls.now result }
{
    let mut of = [None; 16];
    for d in (0..decls.len() / 16).rev() {
        if let Ok(role) = Role::try_from(decls[16 * d + 7]) {
            // `as` narrows: there are at most 4,096
            of[role.code()] = Some(d as u32);
        }
    }
    Holders { of }
}

// The record of variable i, index 0 being the newest: the rules' difference, which stops at 0.
pub fn record_of(depth: u32, i: u32) -> u32
    ensures { result ≡ depth - suc i }
{
    depth.saturating_sub(1).saturating_sub(i)
}

// The context value of variable i.
pub fn value_of(context: &[u32], depth: u32, i: u32) -> Option<Ptr>
    requires { 5 * depth ≤ length context.now }
    ensures { ValueOf context.now depth i (found_value result) }
{
    if depth == 0 {
        return None;
    }
    let w = record_at::<5>(context, 5 * record_of(depth, i) as usize);
    value_by(w[4], w[2], w[3])
}
