// The limits of a plan, of its lists and of the lent table: each number stands here once, and what follows from it is derived.

// Column "most" of the command table. A unit is a word with a bit for each rule.
pub const MAX_RULES: usize = atoms::ATOMS;

pub const MAX_UNITS: usize = 16;

pub const MAX_TABLES: usize = 16;

pub const MAX_USES: usize = 256;

// How many input atoms a contact table has at most: its truth word has a bit for each row.
pub const MAX_INPUTS: usize = 6;

// How many words a contact table has in the record: its inputs and its truth word.
pub const CONTACT_WORDS: usize = 2;

// The rules' words stand behind those of the contact tables.
pub const FIRST_RULE: usize = CONTACT_WORDS * MAX_TABLES;

// How many words a rule has in the record: head, positive body, negative body and the word of its uses.
pub const RULE_WORDS: usize = 4;

// Where a rule's uses stand among its words.
pub const USES: usize = 3;

// How many members a list has at most; so many words of the table are its.
pub const LIST_WORDS: usize = 256;

// A count that says: more members than a list may have.
pub const OVERFULL: usize = LIST_WORDS + 1;

// Where the last list starts in the table, and how many words the table has at least: a list for each unit and the last one.
pub const LAST_LIST: usize = LIST_WORDS * MAX_UNITS;

pub const TABLE_WORDS: usize = LIST_WORDS * (MAX_UNITS + 1);

// How many counts there are, and the place of the last list's count among them.
pub const COUNTS: usize = MAX_UNITS + 1;

pub const LAST_COUNT: usize = MAX_UNITS;
