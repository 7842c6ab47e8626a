// What a line of a log says.
ghost use Rattle.std.specs.Prelude.{◌≡◌, slice_index, Ok, Err, IfOk, MatchResult};
ghost use Rattle.std.specs.Char.{is_ascii_digit};
ghost use Rattle.logs.specs.Statements.{ended, operator, load_or_store, operation_in, stamp, period_in, access, model_named, clock_named, model_line, clock_line, processors_line, head_line, statement_of};
ghost use Rattle.logs.specs.Sayable.{IsAccess, IsBlankFence, Sayable, SaysSayable};

use crate::heads::{NamedClock, NamedModel};
use crate::numbers::numeral;
use crate::parts::{after_blanks, behind_sign, is_over, says, word};
use crate::troubles::Expected;
use memory::kinds::Kind;
use memory::limits::READING_LIMIT;
use memory::records::Entry;

// What a processor did; a fence has address 0 and value 0.
#[derive(Clone, Copy)]
pub struct Operation {
    pub kind: Kind,
    pub address: u32,
    pub value: u64,
}

// From an enter to a commit reading.
#[derive(Clone, Copy)]
pub struct Period {
    pub enter: u64,
    pub commit: u64,
}

// What one line says.
#[derive(Clone, Copy)]
pub enum Statement {
    Nothing,
    Model(NamedModel),
    Clock(NamedClock),
    Processors(u8),
    Access(Entry),
}

// The operator, := for a store or == for a load, and what follows it.
#[tactic(auto, unfolding(crate::specs::Statements::operator))]
fn operator(bytes: &[u8]) -> Result<(Kind, &[u8]), Expected>
    ensures said { MatchResult result
        (λ x. operator bytes.now ≡ Ok (x.0, x.1.now))
        (λ e. operator bytes.now ≡ Err e) }
    ensures access { IfOk result (λ x. IsAccess x.0) }
{
    match after_blanks(bytes) {
        [b':', b'=', rest @ ..] => Ok((Kind::Store, rest)),
        [b'=', b'=', rest @ ..] => Ok((Kind::Load, rest)),
        _ => Err(Expected::Operator),
    }
}

// What stands behind M, and what follows it.
#[tactic(auto, unfolding(crate::specs::Statements::load_or_store))]
fn load_or_store(bytes: &[u8]) -> Result<(Operation, &[u8]), Expected>
    ensures said { MatchResult result
        (λ x. load_or_store bytes.now ≡ Ok (x.0, x.1.now))
        (λ e. load_or_store bytes.now ≡ Err e) }
    ensures fence { IfOk result (λ x. IsBlankFence x.0.kind x.0.address x.0.value) }
{
    let opened = behind_sign(b'[', Expected::OpenBracket, bytes)?;
    let (address, rest) = numeral(16, u64::from(u32::MAX), Expected::Address, opened)?;
    let closed = behind_sign(b']', Expected::CloseBracket, rest)?;
    let (kind, rest) = operator(closed)?;
    let (value, rest) = numeral(10, u64::MAX, Expected::Value, rest)?;
    let address = address as u32;
    Ok((
        Operation {
            kind,
            address,
            value,
        },
        rest,
    ))
}

// What a processor did, and what follows it.
#[tactic(auto, unfolding(crate::specs::Statements::operation_in))]
fn operation_in(bytes: &[u8]) -> Result<(Operation, &[u8]), Expected>
    ensures said { MatchResult result
        (λ x. operation_in bytes.now ≡ Ok (x.0, x.1.now))
        (λ e. operation_in bytes.now ≡ Err e) }
    ensures fence { IfOk result (λ x. IsBlankFence x.0.kind x.0.address x.0.value) }
{
    let (name, rest) = word(bytes);
    if says(name, b"sync") {
        let fence = Operation {
            kind: Kind::Fence,
            address: 0,
            value: 0,
        };
        return Ok((fence, rest));
    }
    if says(name, b"M") {
        return load_or_store(rest);
    }
    Err(Expected::Operation)
}

// The stamp that a line ends with.
#[tactic(auto, unfolding(crate::specs::Statements::stamp))]
fn stamp(bytes: &[u8]) -> Result<Period, Expected>
    ensures { result ≡ stamp bytes.now }
{
    let begun = behind_sign(b'@', Expected::Stamp, bytes)?;
    let (enter, rest) = numeral(10, u64::MAX, Expected::Enter, begun)?;
    let parted = behind_sign(b':', Expected::StampColon, rest)?;
    let (commit, rest) = numeral(10, u64::MAX, Expected::Commit, parted)?;
    if is_over(rest) {
        Ok(Period { enter, commit })
    } else {
        Err(Expected::End)
    }
}

// When an access took place, which ends the line: at any time, where nothing is said.
#[tactic(auto, unfolding(crate::specs::Statements::period_in))]
fn period_in(bytes: &[u8]) -> Result<Period, Expected>
    ensures { result ≡ period_in bytes.now }
{
    if is_over(bytes) {
        return Ok(Period {
            enter: 0,
            commit: READING_LIMIT - 1,
        });
    }
    stamp(bytes)
}

// A processor, what it did, and when.
#[tactic(auto, unfolding(crate::specs::Statements::access))]
fn access(bytes: &[u8]) -> Result<Entry, Expected>
    ensures said { result ≡ access bytes.now }
    ensures sayable { IfOk result Sayable }
{
    let (processor, rest) = numeral(10, 254, Expected::Processor, bytes)?;
    let parted = behind_sign(b':', Expected::Colon, rest)?;
    let (done, rest) = operation_in(parted)?;
    let time = period_in(rest)?;
    Ok(Entry {
        processor: processor as u8,
        kind: u8::from(done.kind),
        address: done.address,
        value: done.value,
        enter: time.enter,
        commit: time.commit,
    })
}

fn model_named(word: &[u8]) -> Result<NamedModel, Expected>
    ensures { result ≡ model_named word.now }
{
    if says(word, b"SC") {
        return Ok(NamedModel::Sc);
    }
    if says(word, b"Godson") {
        return Ok(NamedModel::Godson);
    }
    Err(Expected::Model)
}

fn clock_named(word: &[u8]) -> Result<NamedClock, Expected>
    ensures { result ≡ clock_named word.now }
{
    if says(word, b"global") {
        return Ok(NamedClock::Global);
    }
    if says(word, b"none") {
        return Ok(NamedClock::NoClock);
    }
    Err(Expected::Clock)
}

// The statement, where the line is over behind it.
fn ended(statement: Statement, rest: &[u8]) -> Result<Statement, Expected>
    requires { SaysSayable statement }
    ensures said { result ≡ ended statement rest.now }
    ensures sayable { IfOk result SaysSayable }
{
    if is_over(rest) {
        Ok(statement)
    } else {
        Err(Expected::End)
    }
}

// What stands behind model, clock and processors.
#[tactic(auto, unfolding(crate::specs::Statements::model_line))]
fn model_line(bytes: &[u8]) -> Result<Statement, Expected>
    ensures said { result ≡ model_line bytes.now }
    ensures sayable { IfOk result SaysSayable }
{
    let (name, rest) = word(bytes);
    let model = model_named(name)?;
    ended(Statement::Model(model), rest)
}

#[tactic(auto, unfolding(crate::specs::Statements::clock_line))]
fn clock_line(bytes: &[u8]) -> Result<Statement, Expected>
    ensures said { result ≡ clock_line bytes.now }
    ensures sayable { IfOk result SaysSayable }
{
    let (name, rest) = word(bytes);
    let clock = clock_named(name)?;
    ended(Statement::Clock(clock), rest)
}

#[tactic(auto, unfolding(crate::specs::Statements::processors_line))]
fn processors_line(bytes: &[u8]) -> Result<Statement, Expected>
    ensures said { result ≡ processors_line bytes.now }
    ensures sayable { IfOk result SaysSayable }
{
    let (count, rest) = numeral(10, 255, Expected::Processors, bytes)?;
    ended(Statement::Processors(count as u8), rest)
}

// A part of the head.
#[tactic(auto, unfolding(crate::specs::Statements::head_line))]
fn head_line(bytes: &[u8]) -> Result<Statement, Expected>
    ensures said { result ≡ head_line bytes.now }
    ensures sayable { IfOk result SaysSayable }
{
    let (name, rest) = word(bytes);
    if says(name, b"model") {
        return model_line(rest);
    }
    if says(name, b"clock") {
        return clock_line(rest);
    }
    if says(name, b"processors") {
        return processors_line(rest);
    }
    Err(Expected::Beginning)
}

// The line says nothing, or an access, which begins with a digit, or a part of the head.
#[tactic(auto, unfolding(crate::specs::Statements::statement_of))]
pub fn statement_of(line: &[u8]) -> Result<Statement, Expected>
    ensures said { result ≡ statement_of line.now }
    ensures sayable { IfOk result SaysSayable }
{
    if is_over(line) {
        return Ok(Statement::Nothing);
    }
    if begins_with_digit(after_blanks(line)) {
        let entry = access(line)?;
        return Ok(Statement::Access(entry));
    }
    head_line(line)
}

fn begins_with_digit(bytes: &[u8]) -> bool
    ensures { result ≡ is_ascii_digit (slice_index bytes.now 0) }
{
    bytes.first().is_some_and(|b| b.is_ascii_digit())
}
