// The places of a card's fields, by document 01's names; its field numbers are one more.
pub const VOFFS: usize = 0;

pub const IOFFS: usize = 1;

pub const VGAIN: usize = 2;

pub const IGAIN: usize = 3;

pub const PHASE: usize = 4;

pub const IRMSOFFS: usize = 5;

pub const SQUELCH: usize = 6;

pub const POFFS: usize = 7;
