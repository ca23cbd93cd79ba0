// The value of a block at a row.

#![tactic(auto)]

ghost use Rattle.std.specs.Prelude.{◌≡◌, ◌<◌, ◌≤◌};
ghost use Rattle.bits.specs.Bits.{row_of};
ghost use Rattle.block.specs.Code.{lut_of, block_of};
ghost use Rattle.block.specs.Value.{lut_value, block_value};
ghost use Rattle.block.specs.Answer.{answered};
ghost use Rattle.value.specs.Evaluate.{row_refusal, evaluated_of, Evaluates};

use block::{FourPin, Parts, Refusal};

// Row k of sixteen.
fn row_of(rows: u16, k: u8) -> u8
    requires { k < 16 }
    ensures { (result ≡ row_of 16 rows k) × (result < 2) }
{
    ((rows >> (15 - k)) & 1) as u8
}

fn lut_value(t: FourPin, row: u16) -> u8
    ensures { (result ≡ lut_value (lut_of t) row) × (result < 2) }
{
    let high = 8 * block::pin_value(t.a, row) + 4 * block::pin_value(t.b, row);
    let k = high + 2 * block::pin_value(t.c, row) + block::pin_value(t.d, row);
    row_of(t.rows, k)
}

fn block_value(x: Parts, row: u16) -> u8
    ensures { result ≡ block_value (block_of x) row }
{
    let outputs = 4 * lut_value(x.f, row) + 2 * lut_value(x.g, row);
    let k = outputs + block::pin_value(x.direct, row);
    (x.h >> (7 - k)) & 1
}

// The value's bit at a row of the block in ten bytes.
pub fn evaluate(n: u8, s: &[u8], row: u32) -> Result<u8, Refusal>
    ensures { Evaluates n s.now row result }
{
    let x = codec::unpack(n, s)?;
    if 1 << n <= row {
        return Err(Refusal::NoSuchRow);
    }
    Ok(block_value(x, row as u16))
}
