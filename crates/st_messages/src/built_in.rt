// The numbers of the built-in classes that messages name.

pub const OBJECT: u32 = 0;

pub const UNDEFINED_OBJECT: u32 = 1;

pub const TRUE: u32 = 3;

pub const FALSE: u32 = 4;

pub const INTEGER: u32 = 5;

pub const FRACTION: u32 = 6;

pub const CHARACTER: u32 = 7;

pub const STRING: u32 = 9;

pub const SYMBOL: u32 = 10;

pub const ARRAY: u32 = 11;

pub const CLASS: u32 = 20;

pub const METACLASS: u32 = 21;

pub const TRANSCRIPT_WRITER: u32 = 22;

pub const EXCEPTION: u32 = 23;

pub const ERROR: u32 = 24;

pub const MESSAGE_NOT_UNDERSTOOD: u32 = 26;

pub const EXCEPTION_SET: u32 = 29;

pub const MESSAGE: u32 = 19;
