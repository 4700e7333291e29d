// The seven operations on numbers of two words, against plain arithmetic on numbers of any size (the rules' Arithmetic).
// A result over 2^64 - 1 is the document's refusal 7. Nothing here is wider than 64 bits: std's operations tell where one does not fit.
#![tactic(auto)]

ghost use Rattle.std.specs.Prelude.{◌≡◌};
ghost use Rattle.rules.specs.Arithmetic.{compute as rules_compute};
ghost use Rattle.arith.specs.Meaning.{op_of, value_of, words_of, meaning, settled};

use std::error::Error;
use std::fmt;

// A number is its low word and BASE times its high word.
const BASE: u64 = 0x1_0000_0000;

#[derive(Clone, Copy, Debug, PartialEq, Eq)]
pub struct Number {
    pub low: u32,
    pub high: u32,
}

impl From<Number> for u64 {
    ghost from_gives = { λ n v. v ≡ value_of n };

    fn from(n: Number) -> u64 {
        u64::from(n.low) + BASE * u64::from(n.high)
    }
}

impl From<u64> for Number {
    ghost from_gives = { λ v n. n ≡ words_of v };

    fn from(v: u64) -> Number {
        Number {
            // `as` narrows a remainder and a quotient that fit
            low: (v % BASE) as u32,
            high: (v / BASE) as u32,
        }
    }
}

#[derive(Clone, Copy, Debug, PartialEq, Eq)]
pub enum Op {
    Add,
    Sub,
    Mul,
    Div,
    Mod,
    Beq,
    Ble,
}

// What comes out.
#[derive(Clone, Copy, Debug, PartialEq, Eq)]
pub enum Value {
    Number(Number),
    Truth(bool),
}

impl From<u64> for Value {
    ghost use Rattle.std.specs.Prelude.{Ok};
    ghost use Rattle.rules.specs.Arithmetic.{number};

    ghost from_gives = { λ v r. meaning (Ok r) ≡ settled (number v) };

    #[tactic(auto, unfolding(crate::specs::Meaning::settled))]
    fn from(v: u64) -> Value {
        Value::Number(Number::from(v))
    }
}

// A number over 2^64 - 1: refusal 7.
#[derive(Clone, Copy, Debug, PartialEq, Eq)]
pub struct TooLarge;

impl fmt::Display for TooLarge {
    fn fmt<W: fmt::Write>(&self, f: &mut fmt::Formatter<W>) -> fmt::Result {
        f.write_str("a number over 18446744073709551615")
    }
}

impl Error for TooLarge {}

// The subtraction of naturals stops at 0; by 0, the quotient is 0 and the remainder the dividend.
#[tactic(auto, unfolding(crate::specs::Meaning::settled, rules::specs::Arithmetic::compute))]
pub fn compute(op: Op, x: Number, y: Number) -> Result<Value, TooLarge>
    ensures { meaning result ≡ settled (rules_compute (op_of op) (value_of x) (value_of y)) }
{
    let x = u64::from(x);
    let y = u64::from(y);
    match op {
        Op::Add => Ok(Value::from(x.checked_add(y).ok_or(TooLarge)?)),
        Op::Sub => Ok(Value::from(x.saturating_sub(y))),
        Op::Mul => Ok(Value::from(x.checked_mul(y).ok_or(TooLarge)?)),
        Op::Div => Ok(Value::from(x.checked_div(y).unwrap_or(0))),
        Op::Mod => Ok(Value::from(x.checked_rem(y).unwrap_or(x))),
        Op::Beq => Ok(Value::Truth(x == y)),
        Op::Ble => Ok(Value::Truth(x <= y)),
    }
}
