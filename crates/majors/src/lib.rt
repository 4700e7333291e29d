// A reduced major: as a number, as a constructor; what arithmetic gives, written; the rule of a recursor that fires.
// The state goes by value, the term with its count beside it: see crates state and spine.
#![tactic(auto)]

ghost use Rattle.std.specs.Prelude.{◌≡◌, ◌+◌, ◌/◌, ◌<◌, length};
ghost use Rattle.rules.specs.HeadTests.{number_made, operation_of};
ghost use Rattle.course.specs.Charged.{join_in};
ghost use Rattle.ways.specs.Spines.{args_of};
ghost use Rattle.tables.specs.Records.{records_from};
ghost use Rattle.tables.specs.Env.{rule_of};
ghost use Rattle.tables.specs.Codes.{role_as};
ghost use Rattle.tables.specs.Read.{found};
ghost use Rattle.arith.specs.Meaning.{op_of, value_of};
ghost use Rattle.rows.specs.Words.{ptr_of, store_of, Held};
ghost use Rattle.rows.specs.Writes.{Wrote};
ghost use Rattle.spine.specs.Walks.{Walks};
ghost use Rattle.state.specs.State.{tally_of, limits_in, Used, Left};
ghost use Rattle.majors.specs.Majors.{NumberAt, MayFire, TruthHeld, OutcomeLeft, answered, truth_role, Major, major_of, Constructed};
ghost use Rattle.majors.specs.Majors.{ConstantMade, succ_in, made_from, RunsApply, three_runs, MayRule, ruled_by, ruled_step};

use arith::{Number, Op, TooLarge, Value};
use rows::kinds::Kind;
use rows::refusals::{Out, Refusal};
use rows::writer::{make_const, make_number};
use rows::{Ptr, row_at, shape_of};
use spine::{Spined, apply, apply_one, head_of};
use state::{Answer, Given, Meter, Tried};
use tables::codes::Role;
use tables::{Rule, rule_for};

// A major as a constructor: its declaration, and the term with the spine that its arguments are read from.
#[derive(Clone, Copy, Debug, PartialEq, Eq)]
pub struct Made {
    pub constructor: u32,
    pub term: Ptr,
    pub spine: Spined,
}

// The major as a constructor, if it is one, with the meter after its rows; or the refusal.
pub type Construction = Result<(Option<Made>, Meter), Refusal>;

// A number with no arguments. A number's row is no application, so the term's own row says it.
pub fn number_at<'a>(library: &'a [u32], scratch: &'a [u32], q: Ptr) -> Option<Number>
    requires { Walks library.now scratch.now q }
    ensures { NumberAt library.now scratch.now q result }
{
    let w = shape_of(row_at(library, scratch, q.row));
    if w.kind == Kind::Number.into() {
        return Some(Number {
            low: w.first.row,
            high: w.first.shift,
        });
    }
    None
}

// The operation of an arithmetic role.
pub fn op_of(role: Role) -> Option<Op>
    ensures { found op_of result ≡ operation_of (role_as role) }
{
    match role {
        Role::Add => Some(Op::Add),
        Role::Sub => Some(Op::Sub),
        Role::Mul => Some(Op::Mul),
        Role::Div => Some(Op::Div),
        Role::Mod => Some(Op::Mod),
        Role::Beq => Some(Op::Beq),
        Role::Ble => Some(Op::Ble),
        _ => None,
    }
}

fn truth_role(b: bool) -> Role
    ensures { result ≡ truth_role b }
{
    if b { Role::True } else { Role::False }
}

// The end of a firing whose step is there.
fn fired(m: Meter, out: Out) -> Answer
    requires { m.steps < 4294967295 }
    ensures { result ≡ answered m out }
{
    let (p, mark) = out?;
    Ok(Tried::Term(p, m.stepped(mark)))
}

// A firing with no remaining arguments: 4, 7, then the row.
pub fn write_outcome(
    library: &[u32],
    scratch: &mut [u32],
    g: Given,
    m: Meter,
    o: Result<Value, TooLarge>,
) -> Answer
    requires may_fire { MayFire library.now scratch.old g m }
    requires truth_held { TruthHeld g.holders o }
    ensures { OutcomeLeft library.now scratch.old g m o result scratch.new }
{
    if g.steps <= m.steps {
        return Err(Refusal::NoStep);
    }
    match o {
        Err(_) => Err(Refusal::TooLarge),
        Ok(Value::Number(n)) => fired(
            m,
            make_number(library, scratch, g.nlib, m.mark, n.low, n.high),
        ),
        Ok(Value::Truth(b)) => {
            let holder = g.holders.holder(truth_role(b)).unwrap();
            fired(m, make_const(library, scratch, g.nlib, m.mark, holder, 0))
        }
    }
}

// A constant with its arguments stands as it is.
fn constant_made<'a>(library: &'a [u32], scratch: &'a [u32], q: Ptr) -> Option<Made>
    requires { Walks library.now scratch.now q }
    ensures { ConstantMade library.now scratch.now q result }
{
    let spine = head_of(library, scratch, q);
    let w = shape_of(row_at(library, scratch, spine.head.row));
    if w.kind != Kind::Constant.into() {
        return None;
    }
    Some(Made {
        constructor: w.first.row,
        term: q,
        spine,
    })
}

// The three rows of succ of a number: constant, number, application.
fn write_succ(
    library: &[u32],
    scratch: &mut [u32],
    nlib: u32,
    mark: u32,
    declaration: u32,
    below: Number,
) -> Out
    requires { Held library.now scratch.old mark nlib }
    ensures { Wrote library.now scratch.old mark result scratch.new (succ_in
        (nlib + length scratch.old / 9) (store_of library.now scratch.old mark) declaration (value_of below)) }
{
    let (f, m1) = make_const(library, scratch, nlib, mark, declaration, 0)?;
    let (a, m2) = make_number(library, scratch, nlib, m1, below.low, below.high)?;
    apply_one(library, scratch, nlib, m2, f, a)
}

// The answer for rows that were written for a constructor; the constant is the first of them.
fn made_from(g: Given, m: Meter, constructor: u32, count: u32, out: Out) -> Construction
    requires { g.nlib + m.mark < 4294967296 }
    ensures { result ≡ made_from g m constructor count out }
{
    let (term, mark) = out?;
    let head = Ptr {
        row: g.nlib + m.mark,
        shift: 0,
    };
    let spine = Spined { head, count };
    let made = Made {
        constructor,
        term,
        spine,
    };
    Ok((Some(made), m.at(mark)))
}

// A number as zero or as succ of the number below, if that role is held.
fn number_made(library: &[u32], scratch: &mut [u32], g: Given, m: Meter, n: Number) -> Construction
    requires { Used library.now scratch.old g.nlib m.mark }
    ensures { Constructed library.now scratch.old g m (λ e. number_made e
        (store_of library.now scratch.old m.mark) (value_of n)) result scratch.new }
{
    let v = u64::from(n);
    if v == 0 {
        let Some(zero) = g.holders.holder(Role::Zero) else {
            return Ok((None, m));
        };
        let out = make_const(library, scratch, g.nlib, m.mark, zero, 0);
        return made_from(g, m, zero, 0, out);
    }
    let Some(succ) = g.holders.holder(Role::Succ) else {
        return Ok((None, m));
    };
    let out = write_succ(library, scratch, g.nlib, m.mark, succ, Number::from(v - 1));
    made_from(g, m, succ, 1, out)
}

// The reduced major as a constructor; a number's rows are written first.
pub fn constructor_of(
    library: &[u32],
    scratch: &mut [u32],
    g: Given,
    m: Meter,
    q: Ptr,
) -> Construction
    requires { Major library.now scratch.old g m q }
    ensures { Constructed library.now scratch.old g m (major_of
        (store_of library.now scratch.old m.mark) (ptr_of q)) result scratch.new }
{
    match number_at(library, scratch, q) {
        Some(n) => number_made(library, scratch, g, m, n),
        None => Ok((constant_made(library, scratch, q), m)),
    }
}

// A rule's value applied in turn: to the recursor's arguments before the indices, to the constructor's last fields, and to what
// stands after the major.
fn apply_rule(
    library: &[u32],
    scratch: &mut [u32],
    g: Given,
    m: Meter,
    rule: Rule,
    t: Ptr,
    count: u32,
    before: u32,
    after: u32,
    made: Made,
) -> Out
    requires { RunsApply library.now scratch.old g.nlib m.mark rule.value t count before after made.term made.spine.count rule.fields }
    ensures { Wrote library.now scratch.old m.mark result scratch.new (join_in
        (g.nlib + length scratch.old / 9) (store_of library.now scratch.old m.mark) (ptr_of rule.value)
        (three_runs (args_of (store_of library.now scratch.old m.mark) (ptr_of t)) before after
        (args_of (store_of library.now scratch.old m.mark) (ptr_of made.term)) rule.fields)) }
{
    let nlib = g.nlib;
    let value = rule.value;
    let arity = made.spine.count;
    let from = arity - rule.fields;
    let (p, m1) = apply(library, scratch, nlib, m.mark, value, t, count, 0, before)?;
    let (q, m2) = apply(library, scratch, nlib, m1, p, made.term, arity, from, arity)?;
    apply(library, scratch, nlib, m2, q, t, count, after, count)
}

// The first rule for the constructor, with at least its field count of arguments: 4, then the rows of the result.
pub fn by_rule(
    library: &[u32],
    rules: &[u32],
    scratch: &mut [u32],
    g: Given,
    m: Meter,
    first: u32,
    many: u32,
    made: Made,
    t: Ptr,
    count: u32,
    before: u32,
    position: u32,
) -> Answer
    requires { MayRule library.now rules.now scratch.old g m first many made t count before position }
    ensures { Left library.now scratch.old m result scratch.new (ruled_step (limits_in g scratch.old)
        (tally_of library.now scratch.old m) (ruled_by (records_from 4 rules.now rule_of first many) made.constructor
        (args_of (store_of library.now scratch.old m.mark) (ptr_of made.term)) before position (args_of
        (store_of library.now scratch.old m.mark) (ptr_of t)))) }
{
    let Some(r) = rule_for(rules, first, many, made.constructor) else {
        return Ok(Tried::Final(m));
    };
    if made.spine.count < r.fields {
        return Ok(Tried::Final(m));
    }
    if g.steps <= m.steps {
        return Err(Refusal::NoStep);
    }
    let after = position + 1;
    let out = apply_rule(library, scratch, g, m, r, t, count, before, after, made);
    fired(m, out)
}
