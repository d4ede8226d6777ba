// The numbers that the rules give to kinds, operators and refusals.
use crate::{Fault, Kind, Operator};

// 2.2: The kinds have these numbers, and every other number is an unknown kind.
impl From<u32> for Kind {
    ghost use Rattle.std.specs.Prelude.{◌≡◌};
    ghost use Rattle.rules.specs.Rows.{kind_of};

    ghost from_gives = { λ number kind. kind ≡ kind_of number };

    #[tactic(auto, unfolding(crate::specs::Rows::kind_of))]
    fn from(number: u32) -> Self {
        match number {
            0 => Kind::Skip,
            1 => Kind::Assign,
            2 => Kind::Sequence,
            3 => Kind::If,
            4 => Kind::While,
            5 => Kind::Output,
            8 => Kind::Constant,
            9 => Kind::Variable,
            10 => Kind::Binary,
            _ => Kind::Unknown,
        }
    }
}

// An unknown kind stands in no table, and 11 is the number of none.
impl From<Kind> for u32 {
    ghost use Rattle.std.specs.Prelude.{◌≡◌};
    ghost use Rattle.rules.specs.Rows.{kind_number};

    ghost from_gives = { λ kind number. number ≡ kind_number kind };

    fn from(kind: Kind) -> Self {
        match kind {
            Kind::Skip => 0,
            Kind::Assign => 1,
            Kind::Sequence => 2,
            Kind::If => 3,
            Kind::While => 4,
            Kind::Output => 5,
            Kind::Constant => 8,
            Kind::Variable => 9,
            Kind::Binary => 10,
            Kind::Unknown => 11,
        }
    }
}

// A number over 5 is read as less; refusal 2 is given for it.
// 2.7: The operators are 0 sum, 1 difference, 2 product, 3 quotient, 4 equal and 5 less.
impl From<u32> for Operator {
    ghost use Rattle.std.specs.Prelude.{◌≡◌};
    ghost use Rattle.rules.specs.Trees.{operator_of};

    ghost from_gives = { λ number operator. operator ≡ operator_of number };

    #[tactic(auto, unfolding(crate::specs::Trees::operator_of))]
    fn from(number: u32) -> Self {
        match number {
            0 => Operator::Sum,
            1 => Operator::Difference,
            2 => Operator::Product,
            3 => Operator::Quotient,
            4 => Operator::Equal,
            _ => Operator::Less,
        }
    }
}

impl From<Operator> for u32 {
    ghost use Rattle.std.specs.Prelude.{◌≡◌};
    ghost use Rattle.rules.specs.Trees.{operator_number};

    ghost from_gives = { λ operator number. number ≡ operator_number operator };

    #[tactic(auto, unfolding(crate::specs::Trees::operator_number))]
    fn from(operator: Operator) -> Self {
        match operator {
            Operator::Sum => 0,
            Operator::Difference => 1,
            Operator::Product => 2,
            Operator::Quotient => 3,
            Operator::Equal => 4,
            Operator::Less => 5,
        }
    }
}

// The refusals' numbers.
impl From<Fault> for u32 {
    ghost use Rattle.std.specs.Prelude.{◌≡◌};
    ghost use Rattle.rules.specs.Answers.{number_of};

    ghost from_gives = { λ fault number. number ≡ number_of fault };

    fn from(fault: Fault) -> Self {
        match fault {
            Fault::WrongCount => 1,
            Fault::WrongWord => 2,
            Fault::WrongChild => 3,
            Fault::WrongParents => 4,
            Fault::TooDeep => 5,
            Fault::LongTrace => 6,
        }
    }
}
