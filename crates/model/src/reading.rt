//! Why a plan's text is not read, and why a line is not written.
ghost use Rattle.std.specs.Prelude.{◌≡◌};
ghost use Rattle.model.specs.declared.reading.RecordFault.TheVariants.{InField};
ghost use Rattle.model.specs.declared.reading.PlanFault.TheVariants.{InRecord};

// What is wrong with a field.
#[derive(Clone, Copy, PartialEq, Eq, Debug)]
pub enum Problem {
    // A quote is misplaced or not closed, or a byte is not printable.
    Malformed,
    // Not a number, a number out of range, or an unused field that is filled.
    OutOfRange,
    // An unknown word, or a kind out of order or of the other family.
    UnknownWord,
    // Not the next number.
    NotNext,
    // A process or link that is absent, or a link that is not from outside.
    Absent,
}

// A faulty field, and where it stands: line and field count from 1.
#[derive(Clone, Copy, PartialEq, Eq, Debug)]
pub struct FieldFault {
    pub line: u32,
    pub field: u32,
    pub problem: Problem,
}

// A faulty record, by its field or by its line.
#[derive(Clone, Copy, PartialEq, Eq, Debug)]
pub enum RecordFault {
    InField(FieldFault),
    NotNineFields(u32),
    // One process, link, out-link, place or list entry more than there may be.
    TooMany(u32),
    // An event before the former one of its link.
    BackInTime(u32),
}

// Why a text is no plan.
#[derive(Clone, Copy, PartialEq, Eq, Debug)]
pub enum PlanFault {
    InRecord(RecordFault),
    TooLong,
    NoProcess,
}

// Why a line is not written.
#[derive(Clone, Copy, PartialEq, Eq, Debug)]
pub enum LineFault {
    ShortBuffer,
}

impl From<FieldFault> for RecordFault {
    ghost from_gives = { λ e r. r ≡ InField e };

    fn from(fault: FieldFault) -> RecordFault {
        RecordFault::InField(fault)
    }
}

impl From<RecordFault> for PlanFault {
    ghost from_gives = { λ e r. r ≡ InRecord e };

    fn from(fault: RecordFault) -> PlanFault {
        PlanFault::InRecord(fault)
    }
}
