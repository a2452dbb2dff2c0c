ghost use Rattle.std.specs.Prelude.{◌≡◌, ◌<◌};
ghost use Rattle.bk_isa.specs.Operands.{Operands};
ghost use Rattle.bk_engine.specs.Changes.{after_arithmetic, after_move, after_held_read, after_request_read, after_flag};

use crate::parts::{Core, Held};
use bk_isa::Form;

// Registers are numbers of 64 bits, and sums and differences are modulo 2^64.

fn arithmetic(core: &mut Core, form: Form)
    requires { Operands form }
    ensures { core.new ≡ after_arithmetic core.old form }
{
    let registers = &mut core.registers;
    match form {
        Form::Add { a, b, c } => {
            registers[a as usize] = registers[b as usize].wrapping_add(registers[c as usize])
        }
        Form::Sub { a, b, c } => {
            registers[a as usize] = registers[b as usize].wrapping_sub(registers[c as usize])
        }
        Form::And { a, b, c } => {
            registers[a as usize] = registers[b as usize] & registers[c as usize]
        }
        Form::Or { a, b, c } => {
            registers[a as usize] = registers[b as usize] | registers[c as usize]
        }
        Form::Xor { a, b, c } => {
            registers[a as usize] = registers[b as usize] ^ registers[c as usize]
        }
        Form::Shl { a, b, imm } => registers[a as usize] = registers[b as usize] << imm,
        Form::Shr { a, b, imm } => registers[a as usize] = registers[b as usize] >> imm,
        Form::Addi { a, b, imm } => {
            registers[a as usize] = registers[b as usize].wrapping_add(imm as u64)
        }
        _ => (),
    }
}

/// What moves numbers into a register, and what reckons with registers.
fn moves(core: &mut Core, form: Form)
    requires { Operands form }
    ensures { core.new ≡ after_move core.old form }
{
    match form {
        Form::Not { a, b } => core.registers[a as usize] = !core.registers[b as usize],
        Form::Neg { a, b } => {
            core.registers[a as usize] = 0u64.wrapping_sub(core.registers[b as usize])
        }
        Form::Mov { a, b } => core.registers[a as usize] = core.registers[b as usize],
        Form::Movi { a, imm } => core.registers[a as usize] = imm as u64,
        Form::Movk { a } => core.registers[a as usize] = core.acks,
        _ => arithmetic(core, form),
    }
}

fn reads_held(core: &mut Core, held: Held, form: Form)
    requires { Operands form }
    ensures { core.new ≡ after_held_read core.old held form }
{
    match form {
        Form::Mova { a } => core.registers[a as usize] = held.addr.value(),
        Form::Movs { a } => core.registers[a as usize] = held.source as u64,
        Form::Movw { a } => core.registers[a as usize] = held.way as u64,
        _ => (),
    }
}

/// What reads the request's parts into a register.
pub(crate) fn reads_request(core: &mut Core, form: Form)
    requires { Operands form }
    ensures { core.new ≡ after_request_read core.old core.old.held form }
{
    match core.held {
        None => (),
        Some(held) => reads_held(core, held, form),
    }
}

/// The instructions on flags and registers. Any other changes nothing.
pub(crate) fn flags_set(core: &mut Core, form: Form)
    requires { Operands form }
    ensures { core.new ≡ after_flag core.old form }
{
    match form {
        Form::Sf { a } => core.flags[a as usize] = true,
        Form::Cf { a } => core.flags[a as usize] = false,
        Form::Nf { a } => core.flags[a as usize] = !core.flags[a as usize],
        Form::Movf { a, b } => core.flags[a as usize] = core.flags[b as usize],
        Form::Andf { a, b } => {
            core.flags[a as usize] = core.flags[a as usize] && core.flags[b as usize]
        }
        Form::Orf { a, b } => {
            core.flags[a as usize] = core.flags[a as usize] || core.flags[b as usize]
        }
        _ => moves(core, form),
    }
}
