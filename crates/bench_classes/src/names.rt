//! Names, in groups, and a different one for each number of a group.

/// The lowest digit of a number to the base 16, as one of sixteen letters.
fn letter(n: u16) -> u8 {
    (n % 16) as u8 + b'a'
}

/// The letters of the name with a number in one of 26 groups. All names have one length, and the most differ at the end.
pub fn letters(group: u8, number: u16) -> [u8; 5] {
    [
        group % 26 + b'a',
        letter(number / 4096),
        letter(number / 256),
        letter(number / 16),
        letter(number),
    ]
}

/// The name as units.
pub fn name(group: u8, number: u16) -> [u16; 5] {
    let [a, b, c, d, e] = letters(group, number);
    [
        u16::from(a),
        u16::from(b),
        u16::from(c),
        u16::from(d),
        u16::from(e),
    ]
}
