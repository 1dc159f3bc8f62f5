// Numbers out of standard input, for programs that replay stored answers.
//
// The input is a row of blocks: a line of six digits, how many bytes the block has, and those bytes. A block is lines of fields
// parted by one tab. A whole number is signed 64-bit decimal, a float the 16 small hexadecimal digits of its bits, a list its count
// and then its numbers. Every function is total: a field that is no number, or lies past the end, gives some number.

#![tactic(auto)]

pub mod kernel;
pub mod reader;
