//! The reading of a line: its letter chooses the command, the rest are its fields.

ghost use Rattle.std.specs.Prelude.{◌≡◌};
ghost use Rattle.std.specs.Option.{ok_or};
ghost use Rattle.records.specs.Refusals.{fault_if};
ghost use Rattle.wire.specs.Fields.{fields};
ghost use Rattle.desk.specs.Commands.{NextField, Ended};
ghost use Rattle.desk.specs.Commands.{market_of, unknown_market, Led, Reads, Takes, opens, admits, posts, returns, queries};
ghost use Rattle.desk.specs.declared.fault.LineFault.TheVariants.{UnknownLetter, NotANumber};

use crate::command::{Command, MarketName};
use crate::fault::LineFault;
use records::{Call, Terms};
use wire::{Field, Form, Reader};

/// The next field, which has to be there.
fn next<'a>(reader: &mut Reader<'a>) -> Result<Field<'a>, LineFault>
    ensures next_field_or_too_few { NextField reader.old result reader.new }
{
    reader.next().ok_or(LineFault::WrongFieldCount)
}

// A `match`: here `None` is what is wanted, and no method hands that on.
/// That no field is left.
fn end(reader: &mut Reader) -> Result<(), LineFault>
    ensures none_left_or_too_many { Ended reader.old result }
{
    match reader.next() {
        Some(_) => Err(LineFault::WrongFieldCount),
        None => Ok(()),
    }
}

/// What a field holds in its form.
fn held<T: Form>(field: Field) -> Result<T, LineFault>
    ensures value_or_fault_at_its_place { result ≡ ok_or (T.value_of field.entry.bytes.now) (NotANumber field.entry.place) }
{
    T::read(field.bytes).ok_or(LineFault::NotANumber { place: field.place })
}

fn market(field: Field) -> Result<MarketName, LineFault>
    ensures market_or_fault_at_its_place { result ≡ ok_or (market_of field.entry.bytes.now) (UnknownLetter field.entry.place) }
{
    MarketName::read(field.bytes).ok_or(LineFault::UnknownLetter { place: field.place })
}

/// A market that is named wrongly comes before a wrong count of fields.
fn check_market(rest: &[u8]) -> Result<(), LineFault>
    ensures fault_at_an_unknown_market { result ≡ fault_if (unknown_market (fields rest.now)) (UnknownLetter 2) }
{
    if let Some(field) = Reader::new(rest).next() {
        market(field)?;
    }
    Ok(())
}

// Each command takes its fields one after another: Rattle's borrow checker does not cover yet "an array that holds references, and
// whose length is a const parameter", so that no one function can hand out so many fields.
fn read_open(rest: &[u8]) -> Result<Command, LineFault>
    ensures fault_due_or_command { Takes opens rest.now result }
{
    check_market(rest)?;
    let mut fields = Reader::new(rest);
    let letter = next(&mut fields)?;
    let margin = next(&mut fields)?;
    let first_day = next(&mut fields)?;
    let reference = next(&mut fields)?;
    end(&mut fields)?;
    let market = market(letter)?;
    let terms = Terms {
        margin: held(margin)?,
        first_day: held(first_day)?,
        reference: held(reference)?,
    };
    Ok(Command::Open { market, terms })
}

fn read_admit(rest: &[u8]) -> Result<Command, LineFault>
    ensures fault_due_or_command { Takes admits rest.now result }
{
    let mut fields = Reader::new(rest);
    let participant = next(&mut fields)?;
    let vat = next(&mut fields)?;
    let share = next(&mut fields)?;
    end(&mut fields)?;
    Ok(Command::Perform(Call::Admit {
        participant: held(participant)?,
        vat: held(vat)?,
        share: held(share)?,
    }))
}

fn read_post(rest: &[u8]) -> Result<Command, LineFault>
    ensures fault_due_or_command { Takes posts rest.now result }
{
    let mut fields = Reader::new(rest);
    let participant = next(&mut fields)?;
    let guarantee = next(&mut fields)?;
    let day = next(&mut fields)?;
    let cents = next(&mut fields)?;
    end(&mut fields)?;
    Ok(Command::Perform(Call::Post {
        participant: held(participant)?,
        guarantee: held(guarantee)?,
        last_day: held(day)?,
        cents: held(cents)?,
    }))
}

fn read_return(rest: &[u8]) -> Result<Command, LineFault>
    ensures fault_due_or_command { Takes returns rest.now result }
{
    let mut fields = Reader::new(rest);
    let participant = next(&mut fields)?;
    let guarantee = next(&mut fields)?;
    end(&mut fields)?;
    Ok(Command::Perform(Call::Return {
        participant: held(participant)?,
        guarantee: held(guarantee)?,
    }))
}

fn read_query(rest: &[u8]) -> Result<Command, LineFault>
    ensures fault_due_or_command { Takes queries rest.now result }
{
    let mut fields = Reader::new(rest);
    let participant = next(&mut fields)?;
    end(&mut fields)?;
    Ok(Command::Perform(Call::Query {
        participant: held(participant)?,
    }))
}

/// The text after a letter, which has to be empty or to begin with a comma.
fn fields_text(rest: &[u8]) -> Result<&[u8], LineFault>
    ensures the_text_or_no_letter { Led rest.now result }
{
    match rest {
        [] | [b',', ..] => Ok(rest),
        _ => Err(LineFault::UnknownLetter { place: 1 }),
    }
}

/// The command of a line, or the smallest number due for its form.
pub fn read(line: &[u8]) -> Result<Command, LineFault>
    ensures fault_due_or_command { Reads line.now result }
{
    match line {
        [] => Err(LineFault::UnknownLetter { place: 1 }),
        [b'O', rest @ ..] => read_open(fields_text(rest)?),
        [b'A', rest @ ..] => read_admit(fields_text(rest)?),
        [b'G', rest @ ..] => read_post(fields_text(rest)?),
        [b'R', rest @ ..] => read_return(fields_text(rest)?),
        [b'Q', rest @ ..] => read_query(fields_text(rest)?),
        _ => Err(LineFault::UnknownLetter { place: 1 }),
    }
}
