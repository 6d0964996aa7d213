//! Why a line of the tables can't be read.

use std::fmt;
use test_cases::ProgramRowFault;
use test_histories::HistoryLineFault;

/// Why a line of the tables can't be read.
#[derive(Clone, Copy)]
pub enum TableFault {
    /// No table has this name.
    NoTable,
    /// A line of a case that is played.
    Program(ProgramRowFault),
    /// A line about a history.
    History(HistoryLineFault),
}

impl From<ProgramRowFault> for TableFault {
    fn from(fault: ProgramRowFault) -> TableFault {
        TableFault::Program(fault)
    }
}

impl From<HistoryLineFault> for TableFault {
    fn from(fault: HistoryLineFault) -> TableFault {
        TableFault::History(fault)
    }
}

impl fmt::Display for TableFault {
    fn fmt<W: fmt::Write>(&self, f: &mut fmt::Formatter<W>) -> fmt::Result {
        match self {
            TableFault::NoTable => f.write_str("no table has this name"),
            TableFault::Program(fault) => fault.fmt(f),
            TableFault::History(fault) => fault.fmt(f),
        }
    }
}
