// Acceptance, the gate in front of every exported call: refusals 1, 2 and 3, in that order, or accepted. Nothing is written.
ghost use Rattle.std.specs.Prelude.{◌≡◌, ◌+◌, ◌*◌, ◌≤◌, ◌<◌, length};
ghost use Rattle.rules.specs.Accepted.{Sizes};
ghost use Rattle.rows.specs.Words.{whole};
ghost use Rattle.rows.specs.Checks.{Says};
ghost use Rattle.tables.specs.Clauses.{Rows, DeclKeeps, EntryRight, Upward};
ghost use Rattle.tables.specs.Verdicts.{lent_by, Whole, Accepts};

use super::clauses::{decl_ok, entry_ok, role_ok, scoped};
use super::{Asked, Lent};
use rows::refusals::{Refusal, Refused};
use rows::row_check::check_rows;

// The most words of each list.
const MOST_ROW_WORDS: usize = 9 * 65536;

const MOST_DECLARATION_WORDS: usize = 16 * 4096;

const MOST_RULE_WORDS: usize = 4 * 262144;

const MOST_CONTEXT_WORDS: usize = 5 * 4096;

// The largest budgets.
const MOST_STEPS: u32 = 1000000;

const MOST_NESTING: u32 = 500;

// Every length is a whole number of records, and within the maxima.
fn lengths_ok(lent: Lent<'_>, scratch: &[u32]) -> bool
    ensures { Says (Whole lent.entry.library.now lent.entry.declarations.now
        lent.entry.rules.now lent.entry.context.now scratch.now) result }
{
    lent.library.len() % 9 == 0
        && lent.declarations.len() % 16 == 0
        && lent.rules.len() % 4 == 0
        && lent.context.len() % 5 == 0
        && scratch.len() % 9 == 0
        && lent.library.len() <= MOST_ROW_WORDS
        && scratch.len() <= MOST_ROW_WORDS
        && lent.declarations.len() <= MOST_DECLARATION_WORDS
        && lent.context.len() <= MOST_CONTEXT_WORDS
        && lent.rules.len() <= MOST_RULE_WORDS
}

// Refusal 1.
fn sizes_ok(lent: Lent<'_>, scratch: &[u32], asked: Asked) -> bool
    ensures { Says (Sizes (lent_by lent.entry scratch.now asked)) result }
{
    lengths_ok(lent, scratch)
        && 9 * asked.mark as usize <= scratch.len()
        && 5 * asked.depth as usize <= lent.context.len()
        && asked.steps <= MOST_STEPS
        && asked.nesting <= MOST_NESTING
}

// Refusal 3 at a declaration: upward, with the roles of the lower ones remembered.
fn check_decls<'a>(lent: Lent<'a>, scratch: &'a [u32], nlib: u32, count: u32) -> Result<(), Refused>
    requires rows { Rows lent.library.now scratch.now nlib }
    requires count_in_bounds { 16 * count ≤ length lent.declarations.now }
    ensures { Upward (DeclKeeps lent.entry.declarations.now lent.entry.rules.now
        (whole lent.entry.library.now scratch.now) nlib) count result }
{
    let mut seen = [0; 16];
    for j in 0..count {
        if !decl_ok(lent, scratch, nlib, j) {
            return Err(Refusal::Table.at(j));
        }
        let role = lent.declarations[16 * j as usize + 7];
        if !role_ok(seen, role) {
            // the place is the second holder's number, not the first's
            let second = j;
            return Err(Refusal::Table.at(second));
        }
        seen[role as usize] = 1;
    }
    Ok(())
}

// Refusal 3 at a context record: those past the depth are not looked at.
fn check_entries<'a>(
    lent: Lent<'a>,
    scratch: &'a [u32],
    rows: u32,
    depth: u32,
) -> Result<(), Refused>
    requires rows { Rows lent.library.now scratch.now rows }
    requires depth_in_bounds { 5 * depth ≤ length lent.context.now }
    ensures { Upward (EntryRight lent.entry.context.now (whole lent.entry.library.now scratch.now) rows) depth result }
{
    for j in 0..depth {
        if !entry_ok(lent.library, scratch, lent.context, rows, j) {
            return Err(Refusal::Table.at(j));
        }
    }
    Ok(())
}

pub fn accept<'a>(lent: Lent<'a>, scratch: &'a [u32], asked: Asked) -> Result<(), Refused>
    ensures { Accepts (lent_by lent.entry scratch.now asked) result }
{
    if !sizes_ok(lent, scratch, asked) {
        return Err(Refusal::Sizes.at(0));
    }
    // `as` narrows: the sizes are checked
    let nlib = (lent.library.len() / 9) as u32;
    let count = (lent.declarations.len() / 16) as u32;
    let rows = nlib + asked.mark;
    // by `if let` and not by `?`: so an edit can turn the refusal and keep what the proof names
    if let Err(broken) = check_rows(lent.library, scratch, nlib, asked.mark, count) {
        return Err(broken);
    }
    check_decls(lent, scratch, nlib, count)?;
    check_entries(lent, scratch, rows, asked.depth)?;
    if !scoped(lent.library, scratch, rows, asked.depth, asked.term) {
        return Err(Refusal::Table.at(0));
    }
    Ok(())
}
