// Writes numbers.
ghost use Rattle.std.specs.Prelude.{◌≡◌, ◌++◌, OnOk, OnErr};
ghost use Rattle.std.specs.Fmt.{signed_decimal};

use itoa::Buffer;
use ma_geom::Memory;

/// Writes a number at the end of `out`.
pub fn put_number(out: &mut Vec<u8>, n: i64) -> Result<(), Memory>
    ensures ok { OnOk result (out.new.items ≡ out.old.items ++ signed_decimal n) }
    ensures err { OnErr result (out.new.items ≡ out.old.items) }
{
    let mut digits = Buffer::new();
    out.extend_from_slice(digits.format(n).as_bytes())?;
    Ok(())
}
