//! Numbers, single units, truth values and null as texts.

ghost use Rattle.std.specs.Prelude.{◌≡◌, ◌≤◌, ◌^◌, ◌∷◌, [], codes, decimal, drop, length, if◌then◌else◌};
ghost use Rattle.jk_model_heaps.specs.NumberTexts.{number_text};

const TRUE: [u16; 4] = [0x74, 0x72, 0x75, 0x65];

const FALSE: [u16; 5] = [0x66, 0x61, 0x6c, 0x73, 0x65];

const NULL: [u16; 4] = [0x6e, 0x75, 0x6c, 0x6c];

/// The longest number has 19 digits and a sign.
const LONGEST: usize = 20;

/// The units of a short text, in the last places.
#[derive(Clone, Copy)]
pub(crate) struct ShortText {
    pub(crate) units: [u16; 20],
    pub(crate) from: usize,
    ghost within: { from ≤ 20 },
}

impl ShortText {
    pub(crate) fn as_slice(&self) -> &[u16]
        ensures units { result.now ≡ drop self.now.from self.now.units }
        ensures few { length result.now ≤ 20 }
    {
        &self.units[self.from..]
    }
}

/// The digits of a number.
fn digits_of(n: u64) -> ShortText
    requires { n ≤ 2 ^ 63 }
    ensures digits { drop result.from result.units ≡ decimal n }
    ensures room { 1 ≤ result.from }
{
    let mut units = [0; LONGEST];
    let mut from = LONGEST;
    let mut rest = n;
    loop {
        from -= 1;
        units[from] = 0x30 + (rest % 10) as u16;
        rest /= 10;
        if rest == 0 {
            return ShortText { units, from };
        }
    }
}

/// A number in decimal digits, with a `-` in front where it is negative.
pub(crate) fn number_text(n: i64) -> ShortText
    ensures { drop result.from result.units ≡ number_text n }
{
    let text = digits_of(n.unsigned_abs());
    if n >= 0 {
        return text;
    }
    let from = text.from - 1;
    let mut units = text.units;
    units[from] = 0x2d;
    ShortText { units, from }
}

/// One unit as a text.
pub(crate) fn unit_text(unit: u16) -> ShortText
    ensures { drop result.from result.units ≡ unit ∷ [] }
{
    let mut units = [0; LONGEST];
    units[LONGEST - 1] = unit;
    ShortText {
        units,
        from: LONGEST - 1,
    }
}

/// A truth value as a text.
pub(crate) fn truth_text(truth: bool) -> ShortText
    ensures { drop result.from result.units ≡ (if truth then codes "true" else codes "false") }
{
    if truth {
        known_text(&TRUE)
    } else {
        known_text(&FALSE)
    }
}

/// How null reads.
pub(crate) fn null_text() -> ShortText
    ensures { drop result.from result.units ≡ codes "null" }
{
    known_text(&NULL)
}

/// No unit at all.
pub(crate) fn no_text() -> ShortText
    ensures { drop result.from result.units ≡ [] }
{
    known_text(&[])
}

/// A text of these units.
fn known_text(text: &[u16]) -> ShortText
    requires { length text.now ≤ 20 }
    ensures { drop result.from result.units ≡ text.now }
{
    let mut units = [0; LONGEST];
    let from = LONGEST - text.len();
    units[from..].copy_from_slice(text);
    ShortText { units, from }
}
