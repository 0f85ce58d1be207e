// The growth sums G and H of document 01 with request 103, in units of 2^-24. They know nothing of tasks or marks.
#![tactic(auto)]

ghost use Rattle.std.specs.Prelude.{◌≡◌, ◌≤◌};
ghost use Rattle.growth.specs.Growth;
ghost use Rattle.growth.specs.Working.Divide.{ReadyToDivide};
ghost use Rattle.growth.specs.Working.Sums.{ReadyToAdd, Reaches};

use units::{EXPONENT_LIMIT, UNIT};

const LAST_TERM: u64 = 32;

// How many terms are added apart from the others. Their divisors are constants in compiled code, which is quicker.
const FIRST_TERMS: u64 = 10;

// 1, in the units of 2^-30 that terms are carried in.
const TERM_UNIT: u64 = 1 << 30;

// 64 units of 2^-30 make one of 2^-24.
const GUARD: u64 = 64;

// n / d rounded up. Not `div_ceil`, which works out the remainder too: the divisors of the first terms are constants, and a division by one is a product and a shift.
fn ceil_div(n: u64, d: u64) -> u64
    requires { ReadyToDivide n d }
    ensures { result ≡ Growth.ceil_div n d }
{
    (n + (d - 1)) / d
}

// A sum under way: the term k, and the terms 0 to k added, in units of 2^-30.
#[derive(Clone, Copy)]
struct Partial {
    k: u64,
    term: u64,
    sum: u64,
}

// The sum with the terms up to `last` at least. Dividing by 2^24, which takes no division, and then by k + shift rounds up to the same as dividing at once;
// and where the first of the two gives 0 or 1, that is each later term.
fn add_terms(from: Partial, shift: u64, y: u64, last: u64) -> Partial
    requires { ReadyToAdd shift y last from }
    ensures { Reaches shift y last result }
{
    let mut term = from.term;
    let mut sum = from.sum;
    for k in from.k..last {
        let product = ceil_div(term * y, UNIT);
        if product <= 1 {
            let whole = sum + (LAST_TERM - k) * product;
            return Partial {
                k: LAST_TERM,
                term: product,
                sum: whole,
            };
        }
        term = ceil_div(product, k + 1 + shift);
        sum += term;
    }
    let k = last.max(from.k);
    Partial { k, term, sum }
}

// Both sums: they differ in the divisor's shift alone, 0 for G and 1 for H.
fn growth(shift: u64, y: u64) -> u64
    requires { shift ≤ 1 }
    ensures { result ≡ Growth.growth shift y }
{
    if EXPONENT_LIMIT < y {
        return 0;
    }
    let start = Partial {
        k: 0,
        term: TERM_UNIT,
        sum: TERM_UNIT,
    };
    let first = add_terms(start, shift, y, FIRST_TERMS);
    let whole = add_terms(first, shift, y, LAST_TERM);
    (whole.sum + (GUARD - 1)) / GUARD
}

// G(y): e^z in units of 2^-24, z = y / 2^24.
pub fn g(y: u64) -> u64
    ensures { result ≡ Growth.G y }
{
    growth(0, y)
}

// H(y): (e^z - 1) / z in units of 2^-24, z = y / 2^24.
pub fn h(y: u64) -> u64
    ensures { result ≡ Growth.H y }
{
    growth(1, y)
}
