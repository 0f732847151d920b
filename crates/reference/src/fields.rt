// Bits of a card, and fields of several bits: "Bit-packed, most significant bit first" (document 01, "The rig card").

// Sets one bit, the most significant of a byte first, where it is to be 1.
fn put_bit(out: &mut [u8], k: u32, on: bool) {
    let at = (k / 8) as usize;
    if on && at < out.len() {
        out[at] |= 128u8 >> (k % 8);
    }
}

// Sets the bits of a field, into zeros; only the value's last bits, as many as the field has.
pub fn put_field(out: &mut [u8], from: u32, width: u32, value: u32) {
    for i in 0..width {
        let on = value >> ((width - 1 - i) % 32) & 1 == 1;
        put_bit(out, from.wrapping_add(i), on);
    }
}

// A bit of a card, 0 past its end.
fn bit(card: &[u8], k: u32) -> u32 {
    let at = (k / 8) as usize;
    if at < card.len() {
        return u32::from(card[at] >> (7 - k % 8) & 1);
    }
    0
}

pub fn field(card: &[u8], from: u32, width: u32) -> u32 {
    let mut value: u32 = 0;
    for i in 0..width {
        value = value
            .wrapping_add(value)
            .wrapping_add(bit(card, from.wrapping_add(i)));
    }
    value
}

// How many whole bytes so many bits take. "Zero bits fill the last byte."
pub fn whole_bytes(bits: u32) -> u32 {
    bits.wrapping_add(7) / 8
}
