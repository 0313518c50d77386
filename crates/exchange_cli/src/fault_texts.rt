//! The numbers of faults as they are printed.

ghost use Rattle.std.specs.Prelude.{◌≡◌};
ghost use Rattle.exchange_cli.specs.FaultTexts.{mapping_code, table_code};

use decl_text::Code;
use temporal_csv::TableCode;

/// The number of a mapping's fault.
pub fn mapping_code(code: Code) -> &'static [u8]
    ensures { result.now ≡ mapping_code code }
{
    match code {
        Code::X1 => b"X1",
        Code::X2 => b"X2",
        Code::X3 => b"X3",
        Code::X4 => b"X4",
        Code::X5 => b"X5",
        Code::X6 => b"X6",
        Code::X7 => b"X7",
        Code::X8 => b"X8",
        Code::X9 => b"X9",
        Code::U1 => b"U1",
        Code::U2 => b"U2",
        Code::U3 => b"U3",
        Code::U4 => b"U4",
        Code::U5 => b"U5",
        Code::U6 => b"U6",
    }
}

/// The number of a table's fault.
pub fn table_code(code: TableCode) -> &'static [u8]
    ensures { result.now ≡ table_code code }
{
    match code {
        TableCode::C1 => b"C1",
        TableCode::C2 => b"C2",
        TableCode::C3 => b"C3",
        TableCode::C4 => b"C4",
        TableCode::C5 => b"C5",
        TableCode::C6 => b"C6",
        TableCode::C7 => b"C7",
    }
}
