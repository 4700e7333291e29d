// Runs each of the seven operations at every pair of six values: the ends of one word and of two, and 2^63.
// The file stdout has what integers of any size give there: answers.py makes it, without this program.
#![tactic(auto)]

use arith::{Number, Op, TooLarge, Value};
use std::io;

const OPERATIONS: [(Op, &str); 7] = [
    (Op::Add, "add"),
    (Op::Sub, "sub"),
    (Op::Mul, "mul"),
    (Op::Div, "div"),
    (Op::Mod, "mod"),
    (Op::Beq, "beq"),
    (Op::Ble, "ble"),
];

const VALUES: [u64; 6] = [0, 1, (1 << 32) - 1, 1 << 32, 1 << 63, u64::MAX];

// A line: `add 1 2 = 3`.
fn write_case(rt: &impl Print, op: Op, name: &str, x: u64, y: u64) -> io::Result<()> {
    print!(rt; "{name} {x} {y} = ")?;
    match arith::compute(op, Number::from(x), Number::from(y)) {
        Ok(Value::Number(n)) => println!(rt; "{}", u64::from(n)),
        Ok(Value::Truth(yes)) => println!(rt; "{yes}"),
        Err(TooLarge) => println!(rt; "refused 7"),
    }
}

fn main(rt: HostRuntime) -> io::Result<()> {
    for (op, name) in OPERATIONS {
        for x in VALUES {
            for y in VALUES {
                write_case(&rt, op, name, x, y)?;
            }
        }
    }
    Ok(())
}
