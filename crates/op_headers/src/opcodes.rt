//! Opcodes of requests.

ghost use Rattle.std.specs.Prelude.{◌≡◌};
ghost use Rattle.op_headers.specs.Opcodes.{opcode_number, opcode_with};

/// What a request asks for.
#[derive(Clone, Copy)]
pub(crate) enum Opcode {
    WriteBlock,
    ReadBlock,
    BlockChecksum,
    TransferBlock,
    Custom,
}

impl Opcode {
    /// The opcode's number.
    pub(crate) fn number(self) -> u8
        ensures { result ≡ opcode_number self }
    {
        match self {
            Opcode::WriteBlock => 80,
            Opcode::ReadBlock => 81,
            Opcode::BlockChecksum => 85,
            Opcode::TransferBlock => 86,
            Opcode::Custom => 127,
        }
    }

    /// The opcode with this number.
    pub(crate) fn with_number(number: u8) -> Option<Opcode>
        ensures { result ≡ opcode_with number }
    {
        match number {
            80 => Some(Opcode::WriteBlock),
            81 => Some(Opcode::ReadBlock),
            85 => Some(Opcode::BlockChecksum),
            86 => Some(Opcode::TransferBlock),
            127 => Some(Opcode::Custom),
            _ => None,
        }
    }
}
