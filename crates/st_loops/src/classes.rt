// The numbers of the built-in classes that loops make and ask for.

pub const STRING: u32 = 9;

pub const ARRAY: u32 = 11;

pub const ORDERED_COLLECTION: u32 = 13;

pub const SET: u32 = 14;

pub const DICTIONARY: u32 = 15;
