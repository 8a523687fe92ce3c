// Fields put behind bytes.
ghost use Rattle.std.specs.Prelude.{◌≡◌, ◌++◌, true, OnOk};
ghost use Rattle.std.specs.List.{flat_map, list_all};
ghost use Rattle.letters.specs.Fields.{place, signed};
ghost use Rattle.letters.specs.Grammar.{number};

use byteorder::{BigEndian, ByteOrder};
use ma_geom::{Memory, Place};

pub(crate) fn put_byte(out: &mut Vec<u8>, n: u8) -> Result<(), Memory>
    ensures text { OnOk result (out.new.items ≡ out.old.items ++ (number 1).spelling n) }
    ensures fits { (number 1).fits n ≡ true }
{
    out.push(n)?;
    Ok(())
}

pub(crate) fn put_word(out: &mut Vec<u8>, n: u32) -> Result<(), Memory>
    ensures text { OnOk result (out.new.items ≡ out.old.items ++ (number 4).spelling n) }
    ensures fits { (number 4).fits n ≡ true }
{
    let mut bytes = [0; 4];
    BigEndian::write_u32(&mut bytes, n);
    out.extend_from_slice(&bytes)?;
    Ok(())
}

pub(crate) fn put_long(out: &mut Vec<u8>, n: u64) -> Result<(), Memory>
    ensures text { OnOk result (out.new.items ≡ out.old.items ++ (number 8).spelling n) }
    ensures fits { (number 8).fits n ≡ true }
{
    let mut bytes = [0; 8];
    BigEndian::write_u64(&mut bytes, n);
    out.extend_from_slice(&bytes)?;
    Ok(())
}

pub(crate) fn put_signed(out: &mut Vec<u8>, n: i32) -> Result<(), Memory>
    ensures text { OnOk result (out.new.items ≡ out.old.items ++ signed.spelling n) }
    ensures fits { signed.fits n ≡ true }
{
    let mut bytes = [0; 4];
    BigEndian::write_i32(&mut bytes, n);
    out.extend_from_slice(&bytes)?;
    Ok(())
}

pub(crate) fn put_place(out: &mut Vec<u8>, p: Place) -> Result<(), Memory>
    ensures text { OnOk result (out.new.items ≡ out.old.items ++ place.spelling p) }
    ensures fits { OnOk result (place.fits p ≡ true) }
{
    put_signed(out, p.x())?;
    put_signed(out, p.y())?;
    put_signed(out, p.z())?;
    Ok(())
}

/// Places one after another.
pub(crate) fn put_places(out: &mut Vec<u8>, places: &[Place]) -> Result<(), Memory>
    ensures text { OnOk result (out.new.items ≡ out.old.items ++ flat_map place.spelling places.now) }
    ensures fits { OnOk result (list_all place.fits places.now ≡ true) }
{
    for p in places {
        put_place(out, *p)?;
    }
    Ok(())
}
