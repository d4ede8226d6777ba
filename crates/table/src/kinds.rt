// Kinds, for the judge: what each of the three words of a row is, and which kinds are statements or expressions.
ghost use Rattle.std.specs.Prelude.{◌≡◌};
ghost use Rattle.rules.specs.Rows.{roles_of, is_statement, is_expression};

use rules::{Kind, Role, Roles};

// By the kind's place in `Kind`.
// 2.3: What p, q and r are is fixed by the kind; ..
const ROLES: [Roles; 10] = [
    // skip
    Roles {
        p: Role::Unnamed,
        q: Role::Unnamed,
        r: Role::Unnamed,
    },
    // assign: variable, expression row
    Roles {
        p: Role::Variable,
        q: Role::Expression,
        r: Role::Unnamed,
    },
    // sequence: first statement, second statement
    Roles {
        p: Role::Statement,
        q: Role::Statement,
        r: Role::Unnamed,
    },
    // if: expression, then, else
    Roles {
        p: Role::Expression,
        q: Role::Statement,
        r: Role::Statement,
    },
    // while: expression, body
    Roles {
        p: Role::Expression,
        q: Role::Statement,
        r: Role::Unnamed,
    },
    // output: channel, expression
    Roles {
        p: Role::Channel,
        q: Role::Expression,
        r: Role::Unnamed,
    },
    // constant: value
    Roles {
        p: Role::Value,
        q: Role::Unnamed,
        r: Role::Unnamed,
    },
    // variable: variable
    Roles {
        p: Role::Variable,
        q: Role::Unnamed,
        r: Role::Unnamed,
    },
    // binary: operator, left, right
    Roles {
        p: Role::Operator,
        q: Role::Expression,
        r: Role::Expression,
    },
    // unknown
    Roles {
        p: Role::Unnamed,
        q: Role::Unnamed,
        r: Role::Unnamed,
    },
];

// What each of the three words is in a row of the kind: the table is read at the kind's place. A place that is written out
// lets the compiler read the table; one that is computed has it put together for every row.
#[tactic(auto, unfolding(rules::specs::Rows::roles_of))]
pub fn roles_of(kind: Kind) -> Roles
    ensures { result ≡ roles_of kind }
{
    let by_kind = ROLES;
    match kind {
        Kind::Skip => by_kind[0],
        Kind::Assign => by_kind[1],
        Kind::Sequence => by_kind[2],
        Kind::If => by_kind[3],
        Kind::While => by_kind[4],
        Kind::Output => by_kind[5],
        Kind::Constant => by_kind[6],
        Kind::Variable => by_kind[7],
        Kind::Binary => by_kind[8],
        Kind::Unknown => by_kind[9],
    }
}

// Whether a row of the kind is a statement.
#[tactic(auto, unfolding(rules::specs::Rows::is_statement))]
pub fn is_statement(kind: Kind) -> bool
    ensures { result ≡ is_statement kind }
{
    matches!(
        kind,
        Kind::Skip | Kind::Assign | Kind::Sequence | Kind::If | Kind::While | Kind::Output
    )
}

// Whether a row of the kind is an expression.
#[tactic(auto, unfolding(rules::specs::Rows::is_expression))]
pub fn is_expression(kind: Kind) -> bool
    ensures { result ≡ is_expression kind }
{
    matches!(kind, Kind::Constant | Kind::Variable | Kind::Binary)
}
