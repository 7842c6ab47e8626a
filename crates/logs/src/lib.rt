// Logs as text, one access a line: read to entries, and records printed.
//
//     # the message run
//     model SC
//     clock global
//     processors 2
//     0: M[10] := 1 @ 10:90     # processor 0 stores 1 at address 10, entered at 10, committed at 90
//     1: M[10] == 0             # a load with no stamp: at any time, from 0 to 2^62 - 1
//     1: sync @ 20:30           # a fence
//
// Head lines stand before the accesses, each at most once. Where they are left out, the log is of SC, of a global clock, and of as many processors
// as it names. Addresses are in hexadecimal; other numbers are in decimal or, behind 0x, in hexadecimal. Letters are of any case, blanks (space, tab,
// carriage return) stand between any two parts of a line, and a # begins a comment.
#![tactic(auto)]

mod headings;
pub mod heads;
mod numbers;
mod parts;
pub mod printing;
pub mod reading;
mod statements;
pub mod troubles;
