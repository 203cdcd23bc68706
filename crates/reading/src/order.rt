// The order of groups: a COUNT, then a GIVEN, then TABLEs, then all RULEs, then USEs, then UNITs, then EDGEs, then a SHOW, then END.
ghost use Rattle.std.specs.Prelude.{◌≡◌};
ghost use Rattle.reading.specs.Commands.{late};

use crate::kinds::{
    EDGE_GROUP, END_GROUP, GIVEN_GROUP, RULE_GROUP, TABLE_GROUP, UNIT_GROUP, USE_GROUP,
};
use plan::Plan;

// Whether a command is read behind which none of this group may come, kind by kind: what may stand once is followed by the next group at the earliest.
pub fn is_late(group: usize, read: Plan) -> bool
    ensures { result ≡ late read group }
{
    ((0 < read.once.declared.count) & (group < GIVEN_GROUP))
        | ((0 < read.once.given.count) & (group < TABLE_GROUP))
        | ((0 < read.table_count) & (group < TABLE_GROUP))
        | ((0 < read.rule_count) & (group < RULE_GROUP))
        | ((0 < read.use_count) & (group < USE_GROUP))
        | ((0 < read.unit_count) & (group < UNIT_GROUP))
        | ((0 < read.edge_count) & (group < EDGE_GROUP))
        | ((0 < read.once.shown.count) & (group < END_GROUP))
}
