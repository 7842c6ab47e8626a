// Calls with their arguments, and how they are read.
ghost use Rattle.std.specs.Prelude.{◌≡◌, ◌+◌, ◌<◌, ◌++◌, length, MatchOption, MatchResult};
ghost use Rattle.wire.specs.Bytes.{digits, number_at, entry_bytes};
ghost use Rattle.histories.specs.Calls.{opcode_of, arguments_of, call_bytes, arguments_long, room_of, LengthFits, Unread};

use crate::opcodes::Opcode;
use memory::records::Entry;
use std::error::Error;
use std::fmt;
use wire::fields::Content;

// A call on a case with its arguments; one that writes has how many bytes it is lent.
#[derive(Clone, Copy)]
pub enum Invocation<'a> {
    Open(u8),
    Admit(Entry),
    Infer(u64),
    Seal,
    Search(u64),
    Load(&'a [u8]),
    WriteRun(u16),
    WriteSlip(u16),
    WritePaper(u16),
}

impl Invocation<'_> {
    // How many bytes the call is lent, if it writes.
    pub fn room(self) -> Option<u16>
        ensures { result ≡ room_of self.entry }
    {
        match self {
            Invocation::WriteRun(room)
            | Invocation::WriteSlip(room)
            | Invocation::WritePaper(room) => Some(room),
            _ => None,
        }
    }
}

// Why no call can be read: its first byte is no opcode, or the bytes end before its arguments do.
#[derive(Clone, Copy, Debug, PartialEq, Eq)]
pub enum Unreadable {
    Opcode(u8),
    CutShort,
}

impl fmt::Display for Unreadable {
    fn fmt<W: fmt::Write>(&self, f: &mut fmt::Formatter<W>) -> fmt::Result {
        match *self {
            Unreadable::Opcode(number) => write!(f, "{number:02X} is no opcode"),
            Unreadable::CutShort => f.write_str("the call is cut short"),
        }
    }
}

impl Error for Unreadable {}

// The number that the first 8 bytes write, and the bytes behind them.
fn count_in(bytes: &[u8]) -> Option<(u64, &[u8])>
    ensures { MatchOption result (length bytes.now < 8) (λ x. bytes.now ≡ digits 8 x.0 ++ x.1.now) }
{
    let (front, rest) = bytes.split_first_chunk::<8>()?;
    Some((u64::from_be_bytes(*front), rest))
}

// The number that the first 2 bytes write, and the bytes behind them.
fn room_in(bytes: &[u8]) -> Option<(u16, &[u8])>
    ensures { MatchOption result (length bytes.now < 2) (λ x. (x.0 ≡ number_at bytes.now 0 2) × (bytes.now ≡ digits 2 x.0 ++ x.1.now)) }
{
    let (front, rest) = bytes.split_first_chunk::<2>()?;
    Some((u16::from_be_bytes(*front), rest))
}

// The bytes behind a length, and those behind them.
fn run_in(bytes: &[u8]) -> Option<(&[u8], &[u8])>
    ensures { MatchOption result
        (length bytes.now < 2 + number_at bytes.now 0 2)
        (λ x. (length x.0.now < 65536) × (bytes.now ≡ digits 2 (length x.0.now) ++ (x.0.now ++ x.1.now))) }
{
    let (size, rest) = room_in(bytes)?;
    rest.split_at_checked(usize::from(size))
}

// The entry that the first 30 bytes say, and the bytes behind them.
fn entry_in(bytes: &[u8]) -> Option<(Entry, &[u8])>
    ensures { MatchOption result (length bytes.now < 30) (λ x. bytes.now ≡ entry_bytes x.0 ++ x.1.now) }
{
    let (content, rest) = bytes.split_at_checked(30)?;
    Some((Entry::read(content)?, rest))
}

// The call with an opcode whose arguments these bytes begin with, and the bytes behind them.
fn call_with<'a>(opcode: Opcode, bytes: &'a [u8]) -> Option<(Invocation<'a>, &'a [u8])>
    ensures { MatchOption result
        (length bytes.now < arguments_long opcode bytes.now)
        (λ x. (opcode_of x.0 ≡ opcode) × LengthFits x.0 × (bytes.now ≡ arguments_of x.0 ++ x.1.now)) }
{
    Some(match opcode {
        Opcode::Open => {
            let (processors, rest) = bytes.split_first()?;
            (Invocation::Open(*processors), rest)
        }
        Opcode::Admit => {
            let (entry, rest) = entry_in(bytes)?;
            (Invocation::Admit(entry), rest)
        }
        Opcode::Infer => {
            let (k, rest) = count_in(bytes)?;
            (Invocation::Infer(k), rest)
        }
        Opcode::Seal => (Invocation::Seal, bytes),
        Opcode::Search => {
            let (k, rest) = count_in(bytes)?;
            (Invocation::Search(k), rest)
        }
        Opcode::Load => {
            let (run, rest) = run_in(bytes)?;
            (Invocation::Load(run), rest)
        }
        Opcode::WriteRun => {
            let (room, rest) = room_in(bytes)?;
            (Invocation::WriteRun(room), rest)
        }
        Opcode::WriteSlip => {
            let (room, rest) = room_in(bytes)?;
            (Invocation::WriteSlip(room), rest)
        }
        Opcode::WritePaper => {
            let (room, rest) = room_in(bytes)?;
            (Invocation::WritePaper(room), rest)
        }
    })
}

// The call that the bytes begin with, and the bytes behind it; none where there are no bytes.
pub fn next_call<'a>(bytes: &'a [u8]) -> Result<Option<(Invocation<'a>, &'a [u8])>, Unreadable>
    ensures { MatchResult result
        (λ o. MatchOption o (length bytes.now ≡ 0) (λ x. LengthFits x.0 × (bytes.now ≡ call_bytes x.0 ++ x.1.now)))
        (Unread bytes.now) }
{
    let Some((number, arguments)) = bytes.split_first() else {
        return Ok(None);
    };
    let opcode = Opcode::try_from(*number).map_err(|_| Unreadable::Opcode(*number))?;
    let call = call_with(opcode, arguments).ok_or(Unreadable::CutShort)?;
    Ok(Some(call))
}
