// A buffer that is written from its front: each function is told where the next byte goes, and answers where the one after goes, or None
// where there was no room. Buffer and place are two parameters: `Wrote`, which each promise is, speaks of the one and the other.
ghost use Rattle.std.specs.Prelude.{[], ◌∷◌};
ghost use Rattle.readout.specs.Buffers.{Wrote, WroteNumber};

pub fn put(out: &mut [u8], at: usize, byte: u8) -> Option<usize>
    ensures { Wrote out.old at (byte ∷ []) out.new result }
{
    if out.len() <= at {
        return None;
    }
    out[at] = byte;
    Some(at + 1)
}

pub fn put_text(out: &mut [u8], at: usize, text: &[u8]) -> Option<usize>
    ensures { Wrote out.old at text.now out.new result }
{
    let end = at.checked_add(text.len())?;
    if out.len() < end {
        return None;
    }
    out[at..end].copy_from_slice(text);
    Some(end)
}

// In decimal.
pub fn put_number(out: &mut [u8], at: usize, number: u64) -> Option<usize>
    ensures { WroteNumber out.old at number out.new result }
{
    let mut digits = [0; 20];
    let count = io::decimal(number, &mut digits);
    put_text(out, at, &digits[..count])
}
