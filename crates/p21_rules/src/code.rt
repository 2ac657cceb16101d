//! Numbers and bytes as bytes.

ghost use Rattle.std.specs.Prelude.{◌≡◌, ◌<◌, ◌^◌, ◌++◌, List, ℕ, OnOk};
ghost use Rattle.p21_rules.specs.Code.{bytes_code, number_code, scalar_code, triple};

use std::alloc::AllocError;

/// Adds a number by three bytes.
fn push_triple(code: &mut Vec<u8>, number: u64) -> Result<(), AllocError>
    requires { number < 2 ^ 24 }
    ensures { OnOk result (code.new.items ≡ code.old.items ++ triple number) }
{
    code.push((number / 65536) as u8)?;
    code.push((number / 256 % 256) as u8)?;
    code.push((number % 256) as u8)?;
    Ok(())
}

/// Adds a number.
pub(crate) fn push_number(code: &mut Vec<u8>, number: u64) -> Result<(), AllocError>
    ensures { OnOk result (code.new.items ≡ code.old.items ++ number_code number) }
{
    push_triple(code, number / 0x1_0000_0000_0000)?;
    push_triple(code, number / 0x100_0000 % 0x100_0000)?;
    push_triple(code, number % 0x100_0000)
}

/// Adds a byte, or any number below 2^24.
#[tactic(auto, unfolding(crate::specs::Code::scalar_code))]
pub(crate) fn push_scalar(code: &mut Vec<u8>, number: u32) -> Result<(), AllocError>
    requires { number < 2 ^ 24 }
    ensures { OnOk result (code.new.items ≡ code.old.items ++ scalar_code number) }
{
    if number < 128 {
        code.push(number as u8 + 1)?;
        return Ok(());
    }
    code.push(200)?;
    push_triple(code, u64::from(number))
}

/// Adds bytes, and their end.
pub(crate) fn push_bytes(code: &mut Vec<u8>, bytes: &[u8]) -> Result<(), AllocError>
    ensures { OnOk result (code.new.items ≡ code.old.items ++ bytes_code bytes.now) }
{
    for byte in bytes {
        push_scalar(code, u32::from(*byte))?;
    }
    code.push(0)?;
    Ok(())
}

/// Adds bytes without an end, in front of others.
pub(crate) fn push_front(code: &mut Vec<u8>, bytes: &[u8]) -> Result<(), AllocError>
    ensures { (rest : List ℕ) → OnOk result (code.new.items ++ bytes_code rest ≡ code.old.items ++ bytes_code (bytes.now ++ rest)) }
{
    for byte in bytes {
        push_scalar(code, u32::from(*byte))?;
    }
    Ok(())
}
