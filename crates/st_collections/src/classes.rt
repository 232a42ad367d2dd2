// The numbers of the built-in classes that have rows here.

pub const STRING: u32 = 9;

pub const SYMBOL: u32 = 10;

pub const ARRAY: u32 = 11;

pub const BYTE_ARRAY: u32 = 12;

pub const ORDERED_COLLECTION: u32 = 13;

pub const SET: u32 = 14;

pub const DICTIONARY: u32 = 15;

pub const INTERVAL: u32 = 16;

pub const ASSOCIATION: u32 = 17;
