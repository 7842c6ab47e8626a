// The opcodes of calls; specs/Opcodes.antt has the same numbers.
ghost use Rattle.std.specs.Prelude.{◌≡◌};
ghost use Rattle.std.specs.Result.{result_ok};
ghost use Rattle.histories.specs.Opcodes.{opcode_number, opcode_at};

use memory::numbers::UnknownNumber;

#[derive(Clone, Copy, Debug, PartialEq, Eq)]
pub enum Opcode {
    Open = 1,
    Admit = 2,
    Infer = 3,
    Seal = 4,
    Search = 5,
    Load = 6,
    WriteRun = 7,
    WriteSlip = 8,
    WritePaper = 9,
}

impl From<Opcode> for u8 {
    ghost from_gives = { λ opcode r. r ≡ opcode_number opcode };

    fn from(opcode: Opcode) -> u8 {
        opcode as u8
    }
}

impl TryFrom<u8> for Opcode {
    type Error = UnknownNumber;

    ghost try_from_gives = { λ number r. result_ok r ≡ opcode_at number };

    fn try_from(number: u8) -> Result<Opcode, UnknownNumber> {
        match number {
            1 => Ok(Opcode::Open),
            2 => Ok(Opcode::Admit),
            3 => Ok(Opcode::Infer),
            4 => Ok(Opcode::Seal),
            5 => Ok(Opcode::Search),
            6 => Ok(Opcode::Load),
            7 => Ok(Opcode::WriteRun),
            8 => Ok(Opcode::WriteSlip),
            9 => Ok(Opcode::WritePaper),
            _ => Err(UnknownNumber),
        }
    }
}
