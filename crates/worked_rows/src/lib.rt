//! Rows worked by hand, proved of the definitions that the contracts cite.
#![tactic(auto)]

ghost use Rattle.worked_rows.specs.Rows.{Rows};

// Each row comes out as it was worked.
pub fn worked_rows()
    ensures { Rows }
{}
