// Words and bytes of a text. What a call has written to `out` before it runs out of memory is left
// there, since the callers drop it.
ghost use Rattle.std.specs.Prelude.{◌≡◌, ◌∷◌, ◌++◌, OnOk};

use itoa::{Buffer, Integer};
use ma_geom::Memory;

pub(crate) fn put_bytes(out: &mut Vec<u8>, bytes: &[u8]) -> Result<(), Memory>
    ensures { OnOk result (out.new.items ≡ out.old.items ++ bytes.now) }
{
    out.extend_from_slice(bytes)?;
    Ok(())
}

pub(crate) fn put_number<I: Integer>(out: &mut Vec<u8>, number: I) -> Result<(), Memory>
    ensures { OnOk result (out.new.items ≡ out.old.items ++ I.text number) }
{
    let mut digits = Buffer::new();
    put_bytes(out, digits.format(number).as_bytes())
}

/// Writes a further word of a line.
pub(crate) fn put_word<I: Integer>(out: &mut Vec<u8>, number: I) -> Result<(), Memory>
    ensures { OnOk result (out.new.items ≡ out.old.items ++ 32 ∷ I.text number) }
{
    out.push(b' ')?;
    put_number(out, number)
}
