// The 59 instructions, in the table's order, and their forms.
ghost use Rattle.std.specs.Prelude.{◌≡◌, ◌<◌, ◌^◌};
ghost use Rattle.rv_isa.specs.Table.{row_of};
ghost use Rattle.rv_isa.specs.Forms.{form_of, opcode_of, f3_of, f7_of};
ghost use Rattle.rv_isa.specs.Text.{name_of};

/// An instruction's name, in the order of the tables of RV32I and of its M and A extensions.
#[derive(Clone, Copy, PartialEq, Eq)]
pub enum Op {
    Lui,
    Auipc,
    Jal,
    Jalr,
    Beq,
    Bne,
    Blt,
    Bge,
    Bltu,
    Bgeu,
    Lb,
    Lh,
    Lw,
    Lbu,
    Lhu,
    Sb,
    Sh,
    Sw,
    Addi,
    Slti,
    Sltiu,
    Xori,
    Ori,
    Andi,
    Slli,
    Srli,
    Srai,
    Add,
    Sub,
    Sll,
    Slt,
    Sltu,
    Xor,
    Srl,
    Sra,
    Or,
    And,
    Fence,
    Ecall,
    Ebreak,
    Mul,
    Mulh,
    Mulhsu,
    Mulhu,
    Div,
    Divu,
    Rem,
    Remu,
    LrW,
    ScW,
    AmoswapW,
    AmoaddW,
    AmoxorW,
    AmoandW,
    AmoorW,
    AmominW,
    AmomaxW,
    AmominuW,
    AmomaxuW,
}

/// Where a word keeps an instruction's fields: the manual's base formats, `Shift` for an I whose
/// immediate is an amount of 5 bits, `Bare` for the words of fence, ecall and ebreak, which keep
/// none, `Atomic` for an R whose upper five bits of f7 alone are fixed, and `Reserve` for an
/// `Atomic` without rs2.
#[derive(Clone, Copy, PartialEq, Eq)]
pub enum Form {
    R,
    I,
    Shift,
    S,
    B,
    U,
    J,
    Bare,
    Atomic,
    Reserve,
}

impl Op {
    /// The form of this instruction's words.
    pub fn form(self) -> Form
        ensures { result ≡ form_of (row_of self) }
    {
        match self {
            Op::Lui | Op::Auipc => Form::U,
            Op::Jal => Form::J,
            Op::Beq | Op::Bne | Op::Blt | Op::Bge | Op::Bltu | Op::Bgeu => Form::B,
            Op::Jalr | Op::Lb | Op::Lh | Op::Lw | Op::Lbu | Op::Lhu => Form::I,
            Op::Addi | Op::Slti | Op::Sltiu | Op::Xori | Op::Ori | Op::Andi => Form::I,
            Op::Sb | Op::Sh | Op::Sw => Form::S,
            Op::Slli | Op::Srli | Op::Srai => Form::Shift,
            Op::Fence | Op::Ecall | Op::Ebreak => Form::Bare,
            Op::LrW => Form::Reserve,
            Op::ScW | Op::AmoswapW | Op::AmoaddW | Op::AmoxorW | Op::AmoandW => Form::Atomic,
            Op::AmoorW | Op::AmominW | Op::AmomaxW | Op::AmominuW | Op::AmomaxuW => Form::Atomic,
            _ => Form::R,
        }
    }

    pub(crate) fn opcode(self) -> u32
        ensures value { result ≡ opcode_of (row_of self) }
        ensures fits { result < 2 ^ 7 }
    {
        match self {
            Op::Lui => 0b0110111,
            Op::Auipc => 0b0010111,
            Op::Jal => 0b1101111,
            Op::Jalr => 0b1100111,
            Op::Beq | Op::Bne | Op::Blt | Op::Bge | Op::Bltu | Op::Bgeu => 0b1100011,
            Op::Lb | Op::Lh | Op::Lw | Op::Lbu | Op::Lhu => 0b0000011,
            Op::Sb | Op::Sh | Op::Sw => 0b0100011,
            Op::Addi | Op::Slti | Op::Sltiu | Op::Xori | Op::Ori | Op::Andi => 0b0010011,
            Op::Slli | Op::Srli | Op::Srai => 0b0010011,
            Op::Fence => 0b0001111,
            Op::Ecall | Op::Ebreak => 0,
            Op::LrW | Op::ScW | Op::AmoswapW | Op::AmoaddW | Op::AmoxorW | Op::AmoandW => 0b0101111,
            Op::AmoorW | Op::AmominW | Op::AmomaxW | Op::AmominuW | Op::AmomaxuW => 0b0101111,
            _ => 0b0110011,
        }
    }

    pub(crate) fn f3(self) -> u32
        ensures value { result ≡ f3_of (row_of self) }
        ensures fits { result < 2 ^ 3 }
    {
        match self {
            Op::Bne | Op::Lh | Op::Sh | Op::Slli | Op::Sll | Op::Mulh => 0b001,
            Op::Lw | Op::Sw | Op::Slti | Op::Slt | Op::Mulhsu => 0b010,
            Op::LrW | Op::ScW | Op::AmoswapW | Op::AmoaddW | Op::AmoxorW | Op::AmoandW => 0b010,
            Op::AmoorW | Op::AmominW | Op::AmomaxW | Op::AmominuW | Op::AmomaxuW => 0b010,
            Op::Sltiu | Op::Sltu | Op::Mulhu => 0b011,
            Op::Blt | Op::Lbu | Op::Xori | Op::Xor | Op::Div => 0b100,
            Op::Bge | Op::Lhu | Op::Srli | Op::Srai | Op::Srl | Op::Sra | Op::Divu => 0b101,
            Op::Bltu | Op::Ori | Op::Or | Op::Rem => 0b110,
            Op::Bgeu | Op::Andi | Op::And | Op::Remu => 0b111,
            _ => 0b000,
        }
    }

    pub(crate) fn f7(self) -> u32
        ensures value { result ≡ f7_of (row_of self) }
        ensures fits { result < 2 ^ 7 }
    {
        match self {
            Op::Srai | Op::Sub | Op::Sra => 0b0100000,
            Op::Mul | Op::Mulh | Op::Mulhsu | Op::Mulhu => 0b0000001,
            Op::Div | Op::Divu | Op::Rem | Op::Remu => 0b0000001,
            Op::LrW => 0b0001000,
            Op::ScW => 0b0001100,
            Op::AmoswapW => 0b0000100,
            Op::AmoxorW => 0b0010000,
            Op::AmoandW => 0b0110000,
            Op::AmoorW => 0b0100000,
            Op::AmominW => 0b1000000,
            Op::AmomaxW => 0b1010000,
            Op::AmominuW => 0b1100000,
            Op::AmomaxuW => 0b1110000,
            _ => 0b0000000,
        }
    }

    /// The name in lower case, as an assembler writes it.
    pub fn name(self) -> &'static str
        ensures { result.now ≡ name_of self }
    {
        match self {
            Op::Lui => "lui",
            Op::Auipc => "auipc",
            Op::Jal => "jal",
            Op::Jalr => "jalr",
            Op::Beq => "beq",
            Op::Bne => "bne",
            Op::Blt => "blt",
            Op::Bge => "bge",
            Op::Bltu => "bltu",
            Op::Bgeu => "bgeu",
            Op::Lb => "lb",
            Op::Lh => "lh",
            Op::Lw => "lw",
            Op::Lbu => "lbu",
            Op::Lhu => "lhu",
            Op::Sb => "sb",
            Op::Sh => "sh",
            Op::Sw => "sw",
            Op::Addi => "addi",
            Op::Slti => "slti",
            Op::Sltiu => "sltiu",
            Op::Xori => "xori",
            Op::Ori => "ori",
            Op::Andi => "andi",
            Op::Slli => "slli",
            Op::Srli => "srli",
            Op::Srai => "srai",
            Op::Add => "add",
            Op::Sub => "sub",
            Op::Sll => "sll",
            Op::Slt => "slt",
            Op::Sltu => "sltu",
            Op::Xor => "xor",
            Op::Srl => "srl",
            Op::Sra => "sra",
            Op::Or => "or",
            Op::And => "and",
            Op::Fence => "fence",
            Op::Ecall => "ecall",
            Op::Ebreak => "ebreak",
            Op::Mul => "mul",
            Op::Mulh => "mulh",
            Op::Mulhsu => "mulhsu",
            Op::Mulhu => "mulhu",
            Op::Div => "div",
            Op::Divu => "divu",
            Op::Rem => "rem",
            Op::Remu => "remu",
            Op::LrW => "lr.w",
            Op::ScW => "sc.w",
            Op::AmoswapW => "amoswap.w",
            Op::AmoaddW => "amoadd.w",
            Op::AmoxorW => "amoxor.w",
            Op::AmoandW => "amoand.w",
            Op::AmoorW => "amoor.w",
            Op::AmominW => "amomin.w",
            Op::AmomaxW => "amomax.w",
            Op::AmominuW => "amominu.w",
            Op::AmomaxuW => "amomaxu.w",
        }
    }
}
