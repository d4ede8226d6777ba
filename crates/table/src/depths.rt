// Refusal 5: a tree whose height, nesting or loop nesting is over its limit.
ghost use Rattle.std.specs.Prelude.{◌≡◌, ◌%◌, ◌≤◌, length};
ghost use Rattle.rules.specs.Judged.{Judged};
ghost use Rattle.rules.specs.Limits.{most_rows};
ghost use Rattle.rules.specs.Answers.{judged_of};
ghost use Rattle.rules.specs.OnePass.{Within, depth_by, over_limits};
ghost use Rattle.table.specs.Refused.{refused_words, refused_children, refused_depths};

use crate::counted::CountedTable;
use rules::{Depth, Fault, Kind, MOST_NESTING, MOST_ROWS, Refusal};

// 4.5: Refusal 5, at the row: its height is over 16, .. or its loop nesting over 3.
const MOST_HEIGHT: u8 = 16;

const MOST_LOOP_NESTING: u8 = 3;

// A row's depth from those of the rows that its words name.
#[tactic(auto, unfolding(rules::specs::OnePass::depth_by))]
fn depth_by(kind: Kind, p: Depth, q: Depth, r: Depth) -> Depth
    requires { Within p × Within q × Within r }
    ensures { result ≡ depth_by kind p q r }
{
    match kind {
        Kind::Sequence => Depth {
            height: 1,
            nesting: p.nesting.max(q.nesting),
            loops: p.loops.max(q.loops),
        },
        Kind::If => Depth {
            height: 1,
            nesting: q.nesting.max(r.nesting) + 1,
            loops: q.loops.max(r.loops),
        },
        Kind::While => Depth {
            height: 1,
            nesting: q.nesting + 1,
            loops: q.loops + 1,
        },
        Kind::Binary => Depth {
            height: q.height.max(r.height) + 1,
            nesting: 0,
            loops: 0,
        },
        _ => Depth {
            height: 1,
            nesting: 0,
            loops: 0,
        },
    }
}

// Whether the depth is over one of the three limits.
#[tactic(auto, unfolding(rules::specs::OnePass::over_limits))]
fn over_limits(depth: Depth) -> bool
    ensures { result ≡ over_limits depth }
{
    MOST_HEIGHT < depth.height || MOST_NESTING < depth.nesting || MOST_LOOP_NESTING < depth.loops
}

// Where a row's depth is kept. A word that names no row is read as one that does, and its depth is not used.
fn place(word: u32) -> usize
    ensures { result ≡ word % most_rows }
{
    word as usize % MOST_ROWS
}

// Refusal 5 at the lowest row to which it applies, of rows to which neither 2 nor 3 applies.
pub fn judge_depths(table: &CountedTable) -> Result<(), Refusal>
    requires { (refused_words table.now ≡ Judged.Accepted)
        × (refused_children table.now ≡ Judged.Accepted) }
    ensures { judged_of result ≡ refused_depths table.now }
{
    let mut depths = [Depth {
        height: 0,
        nesting: 0,
        loops: 0,
    }; MOST_ROWS];
    for i in 0..table.rows() {
        let row = table.row(i);
        let depth = depth_by(
            row.kind,
            depths[place(row.p)],
            depths[place(row.q)],
            depths[place(row.r)],
        );
        if over_limits(depth) {
            return Err(Refusal {
                fault: Fault::TooDeep,
                row: i,
            });
        }
        depths[i as usize] = depth;
    }
    Ok(())
}
