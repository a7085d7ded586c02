//! The numbers by which each refusal is told, in the order in which they are written out.
ghost use Rattle.std.specs.Prelude.{◌≡◌, ℕ, List, IfOk};
ghost use Rattle.model.specs.Numbers.{problem_number, cause_number, fault_number, fault_layer};
ghost use Rattle.model.specs.Numbers.{field_numbers, record_numbers, plan_numbers, line_numbers};
ghost use Rattle.model.specs.Numbers.{fault_numbers, setting_numbers, unprepared_numbers, refusal_numbers};

use crate::fault::{LinkFault, SettingFault};
use crate::reading::{FieldFault, LineFault, PlanFault, Problem, RecordFault};
use crate::refusal::{Breach, Cause, Refusal, Unprepared};
use std::alloc::{AllocError, Global};

// A refusal that is told by numbers.
pub trait Numbered {
    ghost numbers: { Self → List ℕ };

    fn numbers(&self, heap: Global) -> Result<Vec<u64>, AllocError>
        ensures { IfOk result (λ v. v.items ≡ numbers self.now) };
}

impl From<Problem> for u64 {
    ghost from_gives = { λ problem n. n ≡ problem_number problem };

    fn from(problem: Problem) -> u64 {
        match problem {
            Problem::Malformed => 1,
            Problem::OutOfRange => 3,
            Problem::UnknownWord => 4,
            Problem::NotNext => 5,
            Problem::Absent => 6,
        }
    }
}

impl From<Cause> for u64 {
    ghost from_gives = { λ cause n. n ≡ cause_number cause };

    fn from(cause: Cause) -> u64 {
        match cause {
            Cause::Early => 1,
            Cause::TooFar => 2,
            Cause::Overtaking => 3,
        }
    }
}

impl LinkFault {
    fn number(self) -> u64
        ensures { result ≡ fault_number self }
    {
        match self {
            LinkFault::NoSuchLink => 15,
            LinkFault::PastLastTime => 16,
            LinkFault::BelowFloor => 17,
            LinkFault::Full(_) => 18,
            LinkFault::NothingWaits => 19,
        }
    }

    // The layer that it names; 0 where it names none.
    fn layer(self) -> u64
        ensures { result ≡ fault_layer self }
    {
        match self {
            LinkFault::Full(layer) => u64::from(layer),
            _ => 0,
        }
    }
}

impl Numbered for FieldFault {
    ghost numbers = { field_numbers };

    fn numbers(&self, heap: Global) -> Result<Vec<u64>, AllocError> {
        Ok(vec![in heap;
            u64::from(self.problem),
            u64::from(self.line),
            u64::from(self.field),
        ]?)
    }
}

impl Numbered for RecordFault {
    ghost numbers = { record_numbers };

    fn numbers(&self, heap: Global) -> Result<Vec<u64>, AllocError> {
        match *self {
            RecordFault::InField(fault) => fault.numbers(heap),
            RecordFault::NotNineFields(line) => Ok(vec![in heap; 2, u64::from(line)]?),
            RecordFault::TooMany(line) => Ok(vec![in heap; 7, u64::from(line)]?),
            RecordFault::BackInTime(line) => Ok(vec![in heap; 8, u64::from(line)]?),
        }
    }
}

impl Numbered for PlanFault {
    ghost numbers = { plan_numbers };

    fn numbers(&self, heap: Global) -> Result<Vec<u64>, AllocError> {
        match *self {
            PlanFault::InRecord(fault) => fault.numbers(heap),
            PlanFault::TooLong | PlanFault::NoProcess => Ok(vec![in heap; 9]?),
        }
    }
}

impl Numbered for LinkFault {
    ghost numbers = { fault_numbers };

    fn numbers(&self, heap: Global) -> Result<Vec<u64>, AllocError> {
        Ok(vec![in heap; self.number(), self.layer()]?)
    }
}

impl Numbered for SettingFault {
    ghost numbers = { setting_numbers };

    fn numbers(&self, heap: Global) -> Result<Vec<u64>, AllocError> {
        match *self {
            SettingFault::NoSuchLink => Ok(vec![in heap; 15, 0]?),
            SettingFault::Unsuitable => Ok(vec![in heap; 20]?),
        }
    }
}

impl Numbered for Unprepared {
    ghost numbers = { unprepared_numbers };

    fn numbers(&self, heap: Global) -> Result<Vec<u64>, AllocError> {
        match *self {
            Unprepared::WrongNumbers => Ok(vec![in heap; 10, 0, 0]?),
            Unprepared::NotFresh(link) => Ok(vec![in heap; 10, link as u64, 0]?),
            Unprepared::NotOutside(link) => Ok(vec![in heap; 10, link as u64, 6]?),
            Unprepared::LinkRefused(link, fault) => Ok(vec![in heap;
                10,
                link as u64,
                fault.number(),
            ]?),
            Unprepared::NoMemory => Ok(vec![in heap; 0]?),
        }
    }
}

impl Numbered for Refusal {
    ghost numbers = { refusal_numbers };

    fn numbers(&self, heap: Global) -> Result<Vec<u64>, AllocError> {
        match *self {
            Refusal::NoSuch => Ok(vec![in heap; 11]?),
            Refusal::Held(link) => Ok(vec![in heap; 12, link as u64]?),
            Refusal::LogFull => Ok(vec![in heap; 13]?),
            Refusal::Breached(
                Breach {
                    process,
                    link,
                    time,
                    cause,
                },
            ) => {
                Ok(vec![in heap;
                    14,
                    process as u64,
                    link as u64,
                    u64::from(time),
                    u64::from(cause),
                ]?)
            }
        }
    }
}

impl Numbered for LineFault {
    ghost numbers = { line_numbers };

    fn numbers(&self, heap: Global) -> Result<Vec<u64>, AllocError> {
        match *self {
            LineFault::ShortBuffer => Ok(vec![in heap; 21]?),
        }
    }
}
