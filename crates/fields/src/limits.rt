// The fixed limits: persons, branches, roles, kinds, operations, pieces, lines and sets are numbered from 0.

pub const PERSONS: u8 = 64;

pub const BRANCHES: usize = 64;

pub const ROLES: usize = 16;

pub const BRANCH_KINDS: u8 = 8;

pub const PIECE_KINDS: u8 = 16;

pub const OPERATIONS: u8 = 8;

pub const PIECES: usize = 1024;

pub const LINES: usize = 64;

pub const SETS: usize = 8;
