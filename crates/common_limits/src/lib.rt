// The limits and sizes of books and sheets, by the names that `model::specs::Limits` gives them. Those of weights stand in `common_weight`.
#![tactic(auto)]

// The options that a book or a sheet may have.
pub const MOST_OPTIONS: usize = 512;

// The rules that a book may have: their number stands in the head.
pub const MOST_RULES: usize = 4095;

// The nodes that the bodies of a book may have together: on a sheet the root comes to them.
pub const MOST_NODES: usize = 4095;

// The bytes of a book's head: four numbers of two bytes each.
pub const HEAD_LENGTH: usize = 8;

// The bytes of a code: its characters, then zeros.
pub const CODE_LENGTH: usize = 13;

// A node is one number, its kind times this plus its value.
pub const KIND_FACTOR: usize = 4096;

// The same at the width that nodes are kept in.
pub const KIND_FACTOR_16: u16 = KIND_FACTOR as u16;

// The value of a node of kind 6 is its members times this plus how many of them are asked for.
pub const LEAST_FACTOR: usize = 64;

// The numbers of kind 1 begin here (an option), those of kind 2 (an option barred), and those of kind 5 (the root).
pub const PLAIN_KIND: u16 = KIND_FACTOR_16;

pub const BARRED_KIND: u16 = 2 * KIND_FACTOR_16;

pub const ROOT_KIND: usize = 5 * KIND_FACTOR;

// The nodes that a sheet has room for.
pub const SHEET_ROOM: usize = 4096;

// The numbers of a sheet: its options, the count of its nodes, and the nodes.
pub const SHEET_LENGTH: usize = SHEET_ROOM + 2;

// The literals of as many options as a sheet may have: each option plain and barred.
pub const MOST_LITERALS: usize = 2 * MOST_OPTIONS;

// Rules are numbered from 1.
pub const LAST_RULE: usize = 17;

// The number after the last stands for no rule.
pub const NO_RULE: usize = LAST_RULE + 1;
