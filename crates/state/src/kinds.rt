// The kinds of the nine actions. Numbers, and no enum: the paper has one decision on the kind number, others refused, and a proposal in a state holds any.
pub const PROPOSE: u16 = 1;

pub const CANCEL: u16 = 2;

pub const PRESENTS: u16 = 3;

pub const CERTIFY: u16 = 4;

pub const MINIMA: u16 = 5;

pub const REMOVE: u16 = 6;

pub const REJOIN: u16 = 7;

pub const GRANT: u16 = 8;

pub const END: u16 = 9;
