// For the crate above, on a tested study and sheet.
pub mod carry;
pub mod run;
