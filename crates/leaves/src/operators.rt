// The operators.
// 3.2: Sum, difference and product are modulo 2^32.
// 3.3: The quotient is rounded down, and it is 4,294,967,295 where the divisor is 0, whatever the dividend.
// 3.4: Equal and less give 1 where the left side is equal to or less than the right one, and else 0.
ghost use Rattle.std.specs.Prelude.{◌≡◌};
ghost use Rattle.rules.specs.declared.Operator.{Operator};
ghost use Rattle.rules.specs.Trees.{operator_of};
ghost use Rattle.rules.specs.Values.{operate};

use rules::{Operator, WORD_VALUES};

// The product modulo 2^32: the whole product fits 64 bits.
// Stays: a helper of the crate's own, as the forms that were asked for want it (docs/ARCHITECTURE.md).
fn product(a: u32, b: u32) -> u32
    ensures { result ≡ operate Operator.Product a b }
{
    (u64::from(a) * u64::from(b) % WORD_VALUES) as u32
}

// The operator's value. A number over 5 is read as less; refusal 2 is given for it.
pub fn operated(operator: u32, a: u32, b: u32) -> u32
    ensures { result ≡ operate (operator_of operator) a b }
{
    match Operator::from(operator) {
        Operator::Sum => a.wrapping_add(b),
        Operator::Difference => a.wrapping_sub(b),
        Operator::Product => product(a, b),
        Operator::Quotient => a.checked_div(b).unwrap_or(u32::MAX),
        Operator::Equal => u32::from(a == b),
        Operator::Less => u32::from(a < b),
    }
}
