// Which operations there are, and what runs them.
//
// To add an operation: a variant of `Operation`, its number in `try_from`, its line in `next_case`,
// and a module whose `run` takes in the pieces of the case by the methods of `CaseReader`, all of
// them before it writes, and then writes the line. Its cases go into `crates/replay/cases`.
use crate::buffers::Buffers;
use crate::input::CaseReader;
use crate::stop::Stop;
use crate::{
    comparing, filing, finding, indexing, looking, naming, order_values, screening, seeking,
    value_writing, values, walking, watching, widening, writing,
};
use form::forms::Form;
use std::io::Read;
use table::rows::Entry;

// An operation. Those that go by a form's limits have a number for each form.
#[derive(Clone, Copy)]
pub enum Operation {
    Read(Form),
    Write(Form),
    LeafText,
    NextRow,
    SameOrder,
    WalkLines,
    WatchOrder,
    FindLeaf,
    Screen(Form),
    NameKind,
    Widen,
    ReadIndexed(Form),
    ReadValue,
    WriteValue,
    OrderValues(Form),
}

impl TryFrom<Entry> for Operation {
    type Error = Stop;

    // The operation that has a number.
    fn try_from(number: Entry) -> Result<Operation, Stop> {
        match number {
            1 => Ok(Operation::Read(Form::Small)),
            2 => Ok(Operation::Write(Form::Small)),
            3 => Ok(Operation::LeafText),
            4 => Ok(Operation::NextRow),
            5 => Ok(Operation::SameOrder),
            6 => Ok(Operation::WalkLines),
            7 => Ok(Operation::WatchOrder),
            101 => Ok(Operation::FindLeaf),
            104 => Ok(Operation::Screen(Form::Small)),
            105 => Ok(Operation::NameKind),
            106 => Ok(Operation::Widen),
            107 => Ok(Operation::ReadIndexed(Form::Small)),
            1021 => Ok(Operation::ReadValue),
            1022 => Ok(Operation::WriteValue),
            1023 => Ok(Operation::OrderValues(Form::Small)),
            10001 => Ok(Operation::Read(Form::Large)),
            10002 => Ok(Operation::Write(Form::Large)),
            10104 => Ok(Operation::Screen(Form::Large)),
            10107 => Ok(Operation::ReadIndexed(Form::Large)),
            11023 => Ok(Operation::OrderValues(Form::Large)),
            _ => Err(Stop::NoOperation),
        }
    }
}

// Takes in the next case, runs it and writes its line.
pub fn next_case<R: Read + Drop>(
    rt: &impl Print,
    input: &mut CaseReader<R>,
    buffers: &mut Buffers,
) -> Result<(), Stop> {
    let number = input.operation()?;
    match Operation::try_from(number)? {
        Operation::Read(form) => filing::run(rt, input, number, form, buffers),
        Operation::Write(form) => writing::run(rt, input, number, form, buffers),
        Operation::LeafText => looking::run(rt, input),
        Operation::NextRow => finding::run(rt, input),
        Operation::SameOrder => comparing::run(rt, input),
        Operation::WalkLines => walking::run(rt, input),
        Operation::WatchOrder => watching::run(rt, input),
        Operation::FindLeaf => seeking::run(rt, input),
        Operation::Screen(form) => screening::run(rt, input, number, form, buffers),
        Operation::NameKind => naming::run(rt, input),
        Operation::Widen => widening::run(rt, input, buffers),
        Operation::ReadIndexed(form) => indexing::run(rt, input, number, form, buffers),
        Operation::ReadValue => values::run(rt, input),
        Operation::WriteValue => value_writing::run(rt, input),
        Operation::OrderValues(form) => order_values::run(rt, input, number, form, buffers),
    }
}
