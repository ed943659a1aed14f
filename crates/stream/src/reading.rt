// Reads little-endian numbers from a stream. Each function fails where the stream hasn't got the bytes.
use crate::broken::Broken;
use crate::words::Words;
use std::io::Read;

// What a stream holds as little-endian bytes.
pub trait Number: Copy + Drop {
    // Reads the next number.
    fn read<R: Read>(input: &mut R) -> Result<Self, Broken>;
}

impl Number for u32 {
    fn read<R: Read>(input: &mut R) -> Result<u32, Broken> {
        let mut bytes = [0; 4];
        input.read_exact(&mut bytes)?;
        Ok(u32::from_le_bytes(bytes))
    }
}

impl Number for u64 {
    fn read<R: Read>(input: &mut R) -> Result<u64, Broken> {
        let mut bytes = [0; 8];
        input.read_exact(&mut bytes)?;
        Ok(u64::from_le_bytes(bytes))
    }
}

impl Number for f32 {
    fn read<R: Read>(input: &mut R) -> Result<f32, Broken> {
        Ok(numeric::bits::from_bits(u32::read(input)?))
    }
}

// Reads the kind's number and the length of a record's payload in bytes, or nothing where no byte is left or the first can't be read.
pub fn next_head<R: Read>(input: &mut R) -> Result<Option<(u32, u32)>, Broken> {
    let mut kind = [0; 4];
    let n = input.read(&mut kind).unwrap_or(0);
    if n == 0 {
        return Ok(None);
    }
    input.read_exact(&mut kind[n..])?;
    let length = u32::read(input)?;
    Ok(Some((u32::from_le_bytes(kind), length)))
}

// Reads the next n numbers to the start of a slice. It fails where the slice has no room for them.
pub fn fill<T: Number, R: Read>(input: &mut R, out: &mut [T], n: usize) -> Result<(), Broken> {
    for x in out.get_mut(..n).ok_or(Broken)? {
        *x = T::read(input)?;
    }
    Ok(())
}

// Reads the next n bytes to the start of a slice. It fails where the slice has no room for them.
// Kept: `fill`, which would read byte after byte, makes replay take three times as long (0.43 seconds for 0.14).
pub fn fill_bytes<R: Read>(input: &mut R, out: &mut [u8], n: usize) -> Result<(), Broken> {
    input.read_exact(out.get_mut(..n).ok_or(Broken)?)?;
    Ok(())
}

// Reads the next n words; the others of the 13 are 0. It fails where more than 13 are asked for.
pub fn next_words<R: Read>(input: &mut R, n: usize) -> Result<Words, Broken> {
    let mut words = [0; 13];
    fill(input, &mut words, n)?;
    Ok(words)
}

// Reads past the next n bytes.
pub fn pass_over<R: Read>(input: &mut R, n: u64) -> Result<(), Broken> {
    let mut block = [0; 4096];
    for _ in 0..n / 4096 {
        input.read_exact(&mut block)?;
    }
    input.read_exact(&mut block[..(n % 4096) as usize])?;
    Ok(())
}
