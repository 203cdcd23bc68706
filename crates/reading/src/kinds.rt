// The command table: for each kind of command its byte, its operands in bytes, the whole command in bytes, and the place of its group in the order. Column
// "most" is in `plan::limits`.
use crate::words::WORD_BYTES;
use plan::CONTACT_WORDS;

pub const COUNT: u8 = 0x07;

pub const COUNT_OPERANDS: usize = 3;

pub const COUNT_BYTES: usize = 1 + COUNT_OPERANDS;

pub const COUNT_GROUP: usize = 0;

pub const GIVEN: u8 = 0x04;

pub const GIVEN_OPERANDS: usize = WORD_BYTES;

pub const GIVEN_BYTES: usize = 1 + GIVEN_OPERANDS;

pub const GIVEN_GROUP: usize = COUNT_GROUP + 1;

pub const TABLE: u8 = 0x05;

pub const TABLE_OPERANDS: usize = CONTACT_WORDS * WORD_BYTES;

pub const TABLE_BYTES: usize = 1 + TABLE_OPERANDS;

pub const TABLE_GROUP: usize = GIVEN_GROUP + 1;

// Head, positive body and negative body.
const RULE_OPERAND_WORDS: usize = 3;

pub const RULE: u8 = 0x01;

pub const RULE_OPERANDS: usize = RULE_OPERAND_WORDS * WORD_BYTES;

pub const RULE_BYTES: usize = 1 + RULE_OPERANDS;

pub const RULE_GROUP: usize = TABLE_GROUP + 1;

pub const USE: u8 = 0x06;

pub const USE_OPERANDS: usize = 3;

pub const USE_BYTES: usize = 1 + USE_OPERANDS;

pub const USE_GROUP: usize = RULE_GROUP + 1;

pub const UNIT: u8 = 0x02;

pub const UNIT_OPERANDS: usize = WORD_BYTES;

pub const UNIT_BYTES: usize = 1 + UNIT_OPERANDS;

pub const UNIT_GROUP: usize = USE_GROUP + 1;

pub const EDGE: u8 = 0x03;

pub const EDGE_OPERANDS: usize = 2;

pub const EDGE_BYTES: usize = 1 + EDGE_OPERANDS;

pub const EDGE_GROUP: usize = UNIT_GROUP + 1;

pub const SHOW: u8 = 0x08;

pub const SHOW_OPERANDS: usize = WORD_BYTES;

pub const SHOW_BYTES: usize = 1 + SHOW_OPERANDS;

pub const SHOW_GROUP: usize = EDGE_GROUP + 1;

pub const END: u8 = 0x00;

pub const END_GROUP: usize = SHOW_GROUP + 1;
