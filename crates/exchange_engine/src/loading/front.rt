//! How texts begin. Texts are put in order faster where what they begin with lies side by side.

/// The first 24 bytes of a text as numbers, and how long it is. Fronts are ordered as their texts are, as far as they go. No
/// clause rests on it.
#[derive(Clone, Copy, Debug, PartialEq, Eq, PartialOrd, Ord)]
pub struct Front {
    first: u64,
    second: u64,
    third: u64,
    length: usize,
}

impl Front {
    /// How a text begins.
    pub fn of(text: &str) -> Front {
        let bytes = text.as_bytes();
        Front {
            first: word(bytes, 0),
            second: word(bytes, 1),
            third: word(bytes, 2),
            length: bytes.len(),
        }
    }

    /// The seat of texts that begin so, which is below `SEATS`.
    pub fn seat(&self) -> usize {
        let mixed = (self.first ^ self.second.rotate_left(32)).wrapping_mul(0x9E37_79B9_7F4A_7C15);
        (mixed >> 54) as usize
    }
}

/// How many seats there are for texts.
pub const SEATS: usize = 1024;

/// The seat of a text, which those of one beginning share. No clause rests on it.
pub fn seat_of(text: &str) -> usize {
    Front::of(text).seat()
}

/// The first eight bytes of a text as a number.
pub fn first_word(text: &str) -> u64 {
    word(text.as_bytes(), 0)
}

// The eight bytes with this number as a number, with zeros behind the last byte.
fn word(bytes: &[u8], number: u8) -> u64 {
    let Some((_, rest)) = bytes.split_at_checked(number as usize * 8) else {
        return 0;
    };
    match rest.first_chunk() {
        Some(eight) => u64::from_be_bytes(*eight),
        None => short_word(rest),
    }
}

// Fewer than eight bytes as a number.
fn short_word(bytes: &[u8]) -> u64 {
    let word = bytes.iter().fold(0, |word, byte| word << 8 | *byte as u64);
    let missing = 8_usize.saturating_sub(bytes.len()) as u32;
    word.checked_shl(8 * missing).unwrap_or(0)
}
