// The lent table: its words 0 to 4,351.
ghost use Rattle.std.specs.Prelude.{◌≡◌, ◌≤◌, length};
ghost use Rattle.plan.specs.Limits.{TABLE_WORDS};
ghost use Rattle.demands.specs.LentTable.{cleared};

use plan::TABLE_WORDS;

// Makes words 0 to 4,351 zero.
pub fn clear(table: &mut [u64])
    requires { TABLE_WORDS ≤ length table.old }
    ensures { table.new ≡ cleared table.old }
{
    table[..TABLE_WORDS].fill(0);
}
