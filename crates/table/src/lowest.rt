// The search that every pass of the judge is.
ghost use Rattle.std.specs.Prelude.{◌≡◌, ℕ, ◌<◌, true, false, OnOk, IfErr};

use rules::{Fault, Refusal};

// The refusal at the lowest of so many rows to which it applies.
pub fn refuse_lowest<F: Fn(u32) -> bool>(fault: Fault, rows: u32, applies: F) -> Result<(), Refusal>
    requires { (row : ℕ) → row < rows → F.pre applies row }
    ensures passed { OnOk result ((row : ℕ) → row < rows → F.post applies row false) }
    ensures refused { IfErr result (λ e. (e.fault ≡ fault) × (e.row < rows) × F.post applies e.row true
        × ((row : ℕ) → row < e.row → F.post applies row false)) }
{
    for row in 0..rows {
        if applies(row) {
            return Err(Refusal { fault, row });
        }
    }
    Ok(())
}
