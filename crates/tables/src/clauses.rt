// The clauses that acceptance tests, each alone: pointers, values, a declaration's form by kind, roles, context records.
ghost use Rattle.std.specs.Prelude.{◌≡◌, ◌+◌, ◌*◌, ◌≤◌, ◌<◌, length, get_or};
ghost use Rattle.rules.specs.Accepted.{part, IsConstructor};
ghost use Rattle.rows.specs.Words.{ptr_of, whole};
ghost use Rattle.rows.specs.Checks.{Says};
ghost use Rattle.tables.specs.Clauses.{Rows, Scoped, ValueRight, Idle, RuleRight, RulesRight, RecursorRight, FormRight, DeclRight, RoleFree, EntryRight};

use super::{DeclKind, Lent, rule_at};
use rows::{Ptr, bound_of, record_at, row_at};

// A pointer at one of the first `rows` rows, whose bound is at most `depth`, and which has no shift where its row is closed.
pub fn scoped<'a>(library: &'a [u32], scratch: &'a [u32], rows: u32, depth: u32, p: Ptr) -> bool
    requires { Rows library.now scratch.now rows }
    ensures { Says (Scoped (whole library.now scratch.now) rows depth (ptr_of p)) result }
{
    if rows <= p.row {
        return false;
    }
    match bound_of(row_at(library, scratch, p.row)) {
        0 => p.shift == 0,
        // 64 bits: a shift that no check has seen is any u32
        bound => u64::from(bound) + u64::from(p.shift) <= u64::from(depth),
    }
}

// No value and no words for one, or a value in scope. The flag is read as a word, since any may stand there.
pub fn value_ok<'a>(
    library: &'a [u32],
    scratch: &'a [u32],
    rows: u32,
    depth: u32,
    flag: u32,
    p: Ptr,
) -> bool
    requires { Rows library.now scratch.now rows }
    ensures { Says (ValueRight (whole library.now scratch.now) rows depth (ptr_of p) flag) result }
{
    match flag {
        0 => p.row == 0 && p.shift == 0,
        1 => scoped(library, scratch, rows, depth, p),
        _ => false,
    }
}

// The named declaration is a constructor: only its kind is read.
pub fn constructor_at(decls: &[u32], c: u32) -> bool
    ensures { Says (IsConstructor decls.now c) result }
{
    let at = 16 * c as usize;
    at < decls.len() && DeclKind::try_from(decls[at]) == Ok(DeclKind::Constructor)
}

// The words from number `from` to the last are 0.
pub fn idle_from(w: &[u32; 16], from: usize) -> bool
    requires { from ≤ 16 }
    ensures { Says (Idle from w.now) result }
{
    w[from..].iter().all(|word| *word == 0)
}

fn rule_ok<'a>(lent: Lent<'a>, scratch: &'a [u32], nlib: u32, i: usize) -> bool
    requires rows { Rows lent.library.now scratch.now nlib }
    requires i_in_bounds { 4 * i + 4 ≤ length lent.rules.now }
    ensures { Says (RuleRight lent.entry.declarations.now lent.entry.rules.now
        (whole lent.entry.library.now scratch.now) nlib i) result }
{
    let rule = rule_at(lent.rules, i);
    constructor_at(lent.declarations, rule.constructor)
        && scoped(lent.library, scratch, nlib, 0, rule.value)
}

fn rules_ok<'a>(lent: Lent<'a>, scratch: &'a [u32], nlib: u32, first: usize, count: usize) -> bool
    requires rows { Rows lent.library.now scratch.now nlib }
    requires count_in_bounds { 4 * (first + count) ≤ length lent.rules.now }
    ensures { Says (RulesRight lent.entry.declarations.now lent.entry.rules.now
        (whole lent.entry.library.now scratch.now) nlib first count) result }
{
    (first..first + count).all(|i| rule_ok(lent, scratch, nlib, i))
}

// No K flag, at most 64 rules, all within the list, and each right. 64 bits for the sum: two words are any u32.
fn recursor_ok<'a>(lent: Lent<'a>, scratch: &'a [u32], nlib: u32, w: &[u32; 16]) -> bool
    requires rows { Rows lent.library.now scratch.now nlib }
    ensures { Says (RecursorRight lent.entry.declarations.now lent.entry.rules.now
        (whole lent.entry.library.now scratch.now) nlib w.now) result }
{
    let first = w[13] as usize;
    let count = w[14] as usize;
    w[12] == 0
        && w[15] == 0
        && count <= 64
        && 4 * (first + count) <= lent.rules.len()
        && rules_ok(lent, scratch, nlib, first, count)
}

fn form_ok<'a>(lent: Lent<'a>, scratch: &'a [u32], nlib: u32, w: &[u32; 16]) -> bool
    requires rows { Rows lent.library.now scratch.now nlib }
    ensures { Says (FormRight lent.entry.declarations.now lent.entry.rules.now
        (whole lent.entry.library.now scratch.now) nlib w.now (get_or w.now 0 0)) result }
{
    match DeclKind::try_from(w[0]) {
        Ok(DeclKind::Plain) => idle_from(w, 8),
        Ok(DeclKind::Constructor) => idle_from(w, 10),
        Ok(DeclKind::Recursor) => recursor_ok(lent, scratch, nlib, w),
        Ok(DeclKind::Structure) => idle_from(w, 10) && constructor_at(lent.declarations, w[9]),
        Err(_) => false,
    }
}

// All of a declaration's clauses but its role's, which asks about the lower ones.
pub fn decl_ok<'a>(lent: Lent<'a>, scratch: &'a [u32], nlib: u32, j: u32) -> bool
    requires rows { Rows lent.library.now scratch.now nlib }
    requires j_in_bounds { 16 * j + 16 ≤ length lent.declarations.now }
    ensures { Says (DeclRight lent.entry.declarations.now lent.entry.rules.now
        (whole lent.entry.library.now scratch.now) nlib (part 16 lent.entry.declarations.now j)) result }
{
    let w = record_at::<16>(lent.declarations, 16 * j as usize);
    let of_type = Ptr {
        row: w[2],
        shift: w[3],
    };
    let value = Ptr {
        row: w[5],
        shift: w[6],
    };
    w[1] <= 16
        && scoped(lent.library, scratch, nlib, 0, of_type)
        && value_ok(lent.library, scratch, nlib, 0, w[4], value)
        && form_ok(lent, scratch, nlib, w)
}

// A known code, and none or one that no lower declaration has. It is read as a word, since any may stand there; 0 is no role. The marks
// are words: `RoleFree` speaks of any sixteen.
pub fn role_ok(seen: [u32; 16], role: u32) -> bool
    ensures { Says (RoleFree seen role) result }
{
    role == 0 || (role <= 15 && seen[role as usize] == 0)
}

// Type and value of context record j are in scope at its position.
pub fn entry_ok<'a>(
    library: &'a [u32],
    scratch: &'a [u32],
    context: &[u32],
    rows: u32,
    j: u32,
) -> bool
    requires rows { Rows library.now scratch.now rows }
    requires j_in_bounds { 5 * j + 5 ≤ length context.now }
    ensures { Says (EntryRight context.now (whole library.now scratch.now) rows j) result }
{
    let w = record_at::<5>(context, 5 * j as usize);
    let of_type = Ptr {
        row: w[0],
        shift: w[1],
    };
    let value = Ptr {
        row: w[2],
        shift: w[3],
    };
    scoped(library, scratch, rows, j, of_type) && value_ok(library, scratch, rows, j, w[4], value)
}
