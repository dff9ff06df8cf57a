// Why a line is not imported, and why a record is not exported. `{}` writes the rule that was broken.
ghost use Rattle.std.specs.Prelude.{◌≡◌, Some};
ghost use Rattle.candump.specs.Refusals.{import_error_number, export_error_number, import_rule, export_rule};

use std::error::Error;
use std::fmt;

// The refusals of the importer, in 02's order and by its numbers.
#[derive(Clone, Copy, Debug, PartialEq, Eq)]
pub enum ImportError {
    TooLong = 1,
    Front,
    Identifier,
    Data,
}

impl ImportError {
    // Its number.
    pub fn number(self) -> u8
        ensures { result ≡ import_error_number self }
    {
        self as u8
    }
}

impl fmt::Display for ImportError {
    ghost output = { λ e. Some (import_rule e) };

    fn fmt<W: fmt::Write>(&self, f: &mut fmt::Formatter<W>) -> fmt::Result {
        match self {
            ImportError::TooLong => write!(f, "it is over 128 bytes long"),
            ImportError::Front => write!(
                f,
                "it does not begin with (seconds.micros) and an interface of 1 to 15 bytes"
            ),
            ImportError::Identifier => write!(
                f,
                "behind the interface there are not three hex digits up to 7FF and a #"
            ),
            ImportError::Data => write!(
                f,
                "behind the # there are neither up to 8 whole bytes nor R with at most a digit up to 8"
            ),
        }
    }
}

impl Error for ImportError {}

// The refusals of the exporter, in 02's order and by its numbers; the last is of a buffer alone.
#[derive(Clone, Copy, Debug, PartialEq, Eq)]
pub enum ExportError {
    NotTen = 1,
    Dlc,
    Room,
}

impl ExportError {
    // Its number.
    pub fn number(self) -> u8
        ensures { result ≡ export_error_number self }
    {
        self as u8
    }
}

impl fmt::Display for ExportError {
    ghost output = { λ e. Some (export_rule e) };

    fn fmt<W: fmt::Write>(&self, f: &mut fmt::Formatter<W>) -> fmt::Result {
        match self {
            ExportError::NotTen => write!(f, "it is not ten bytes long"),
            ExportError::Dlc => write!(f, "its DLC is over 8"),
            ExportError::Room => write!(f, "there is no room for the longest line"),
        }
    }
}

impl Error for ExportError {}
