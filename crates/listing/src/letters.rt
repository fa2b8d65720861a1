// The letters of the forms, as a row keeps them.
pub const CONTRACT: u32 = b'T' as u32;

pub const DECLARATION: u32 = b'D' as u32;

pub const ITEM: u32 = b'P' as u32;

pub const BLOCK: u32 = b'B' as u32;

pub const IF: u32 = b'I' as u32;

pub const WAIT: u32 = b'L' as u32;

pub const VERIFY: u32 = b'V' as u32;

pub const RETURN: u32 = b'E' as u32;

pub const VARIABLE: u32 = b'v' as u32;

pub const NUMBER: u32 = b'n' as u32;

pub const BOOLEAN: u32 = b'b' as u32;

pub const LITERAL: u32 = b's' as u32;

pub const LOGIC: u32 = b'l' as u32;

pub const COMPARE: u32 = b'c' as u32;

pub const ARITHMETIC: u32 = b'm' as u32;

pub const UNARY: u32 = b'u' as u32;

pub const HASH: u32 = b'h' as u32;

pub const SIZE: u32 = b'z' as u32;

pub const SIGNATURES: u32 = b'g' as u32;

pub const SINGLE: u32 = b'S' as u32;

pub const MULTI: u32 = b'M' as u32;
