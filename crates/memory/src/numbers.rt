// Numbers in place of enums, as bytes have them.

// A number that stands for nothing.
#[derive(Clone, Copy, Debug, PartialEq, Eq)]
pub struct UnknownNumber;
