//! Fingerprints that another SHA-256 worked out (Python's hashlib), types that are the same and types that are not, and owners of one value.

use crate::class_rows::units;
use jk_model::{Base, FieldType, List, MethodType, OutOfMemory, Units};
use shared_values::*;
use std::alloc::Global;
use std::test::Fail;

/// Texts with their fingerprints. At 32 units a block of the hash function is full.
const TEXTS: &[(&str, u64)] = &[
    ("", 0xe3b0_c442_98fc_1c14),
    ("A", 0xc00b_4d3c_929c_b5cc),
    ("java/lang/Object", 0xf419_9017_8d1e_9508),
    ("aaaaaaaaaaaaaaaaaaaaaaaaaaaaaaa", 0xf7c5_3654_b855_5f4b),
    ("aaaaaaaaaaaaaaaaaaaaaaaaaaaaaaaa", 0x0e63_f43d_fa95_6c00),
    ("aaaaaaaaaaaaaaaaaaaaaaaaaaaaaaaaa", 0x8c74_b893_99e4_3e17),
    (
        "aaaaaaaaaaaaaaaaaaaaaaaaaaaaaaaaaaaaaaaaaaaaaaaaaaaaaaaaaaaaaaaa",
        0x8c31_041c_ae00_3604,
    ),
    (
        "aaaaaaaaaaaaaaaaaaaaaaaaaaaaaaaaaaaaaaaaaaaaaaaaaaaaaaaaaaaaaaaaa",
        0xc395_89a7_d416_bddc,
    ),
];

fn has_fingerprint(units: &[u16], wanted: u64) -> bool {
    fingerprint(units) == wanted
}

/// Seventy units, of which each is as much more than the one before.
fn many() -> [u16; 70] {
    let mut many = [0; 70];
    for i in 0..70 {
        many[i as usize] = 937 * i;
    }
    many
}

#[test]
fn texts(rt: HostRuntime) -> Result<(), Fail> {
    for (text, wanted) in TEXTS {
        let units = units(rt.alloc(), text)?;
        assert!(rt; has_fingerprint(units.as_slice(), *wanted), "of {text}");
    }
    assert!(rt; has_fingerprint(&many(), 0x95d5_5c85_3160_1517));
    assert!(rt; has_fingerprint(&[0xe9, 0, 0xffff, 0xd800, 0x0102], 0xaa72_5636_66cf_4312));
    Ok(())
}

/// A type of a field: its dimensions, and the letter of its base or the name of its class.
type Part = (u8, &'static str);

/// The parameters and the result of a method, and the fingerprint of its descriptor.
type Row = (&'static [Part], Option<Part>, u64);

/// The base of a letter, or else the class of a name.
fn base_of(alloc: Global, letter: &str) -> Result<Base, OutOfMemory> {
    match letter {
        "B" => Ok(Base::Byte),
        "C" => Ok(Base::Char),
        "D" => Ok(Base::Double),
        "F" => Ok(Base::Float),
        "I" => Ok(Base::Int),
        "J" => Ok(Base::Long),
        "S" => Ok(Base::Short),
        "Z" => Ok(Base::Bool),
        name => {
            let units = units(alloc, name)?;
            Ok(Base::Class(Units::from_slice(alloc, units.as_slice())?))
        }
    }
}

fn field_of(alloc: Global, (dims, letter): Part) -> Result<FieldType, OutOfMemory> {
    let base = base_of(alloc, letter)?;
    Ok(FieldType { dims, base })
}

fn kind_of(alloc: Global, parts: &[Part], part: Option<Part>) -> Result<MethodType, OutOfMemory> {
    let mut params = List::new(alloc);
    for part in parts {
        params.push(field_of(alloc, *part)?)?;
    }
    let result = match part {
        Some(part) => Some(field_of(alloc, part)?),
        None => None,
    };
    Ok(MethodType { params, result })
}

/// Each row's type differs from those of all others.
const KINDS: &[Row] = &[
    (&[], None, 0x3b2c_944b_7d8a_aef9),
    (&[], Some((0, "I")), 0xdb13_4241_2bcf_22e6),
    (&[(0, "I")], None, 0xbdfb_0931_d3e6_2cb3),
    (&[(0, "I")], Some((0, "I")), 0x1e75_361f_bd29_d14a),
    (&[(0, "I"), (0, "I")], None, 0xa398_c1c4_e3cb_c5a8),
    (&[(1, "I")], None, 0x4863_0450_3e8e_8e84),
    (&[(0, "a")], None, 0x52f8_3db2_e812_7cc4),
    (&[(0, "b")], None, 0x9094_c8dd_655b_57d4),
    (&[(0, "ab")], None, 0x2672_1313_698a_e074),
    (
        &[
            (0, "B"),
            (0, "C"),
            (0, "D"),
            (0, "F"),
            (0, "I"),
            (0, "J"),
            (0, "S"),
            (0, "Z"),
        ],
        None,
        0x4fc7_ff00_2916_ba77,
    ),
    (
        &[(2, "java/lang/String"), (0, "J")],
        Some((1, "I")),
        0xf135_fb11_116b_7eba,
    ),
    (&[], Some((3, "D")), 0xdf60_9731_47b0_8d4f),
];

/// The shared type of a row.
fn shared_kind(alloc: Global, row: &Row) -> Result<SharedKind, OutOfMemory> {
    let kind = kind_of(alloc, row.0, row.1)?;
    SharedKind::new(alloc, kind)
}

/// Whether the type of a row has its fingerprint, before it is shared and afterwards.
fn has_its_fingerprint(alloc: Global, row: &Row) -> Result<bool, OutOfMemory> {
    let kind = kind_of(alloc, row.0, row.1)?;
    Ok(kind_fingerprint(&kind) == row.2 && shared_kind(alloc, row)?.fingerprint() == row.2)
}

/// Whether two rows have the same type.
fn are_same(alloc: Global, one: &Row, other: &Row) -> Result<bool, OutOfMemory> {
    let kind = kind_of(alloc, other.0, other.1)?;
    Ok(shared_kind(alloc, one)?.is(&kind))
}

#[test]
fn kinds(rt: HostRuntime) -> Result<(), Fail> {
    for (i, one) in KINDS.iter().enumerate() {
        assert!(rt; has_its_fingerprint(rt.alloc(), one)?);
        for (j, other) in KINDS.iter().enumerate() {
            assert!(rt;
                are_same(rt.alloc(), one, other)? == (i == j),
                "{i} and {j}"
            );
        }
    }
    Ok(())
}

/// A second owner of the text `hi`, whose first is gone.
fn second_text(alloc: Global) -> Result<Text, OutOfMemory> {
    let text = Text::new(alloc, &[104, 105])?;
    text.share()
}

/// Other texts than `hi`.
const OTHERS: &[&[u16]] = &[&[104, 106], &[104], &[104, 105, 0]];

/// The same of a type of a method that takes an array of `long`, and of a number.
fn second_kind(alloc: Global) -> Result<SharedKind, OutOfMemory> {
    let kind = kind_of(alloc, &[(1, "J")], None)?;
    SharedKind::new(alloc, kind)?.share()
}

fn second_number(alloc: Global) -> Result<Shared<u32>, OutOfMemory> {
    let number: Shared<u32> = Shared::new(alloc, 7)?;
    number.share()
}

fn keeps_its_kind(alloc: Global) -> Result<bool, OutOfMemory> {
    let second = second_kind(alloc)?;
    let kind = kind_of(alloc, &[(1, "J")], None)?;
    Ok(second.is(&kind) && second.fingerprint() == kind_fingerprint(second.get()))
}

#[test]
fn owners(rt: HostRuntime) -> Result<(), Fail> {
    let text = second_text(rt.alloc())?;
    assert!(rt; text.is(&[104, 105]) && text.len() == 2);
    for other in OTHERS {
        assert!(rt; !text.is(other));
    }
    assert!(rt; has_fingerprint(text.as_slice(), text.fingerprint()));
    assert!(rt; keeps_its_kind(rt.alloc())?);
    assert!(rt; *second_number(rt.alloc())?.get() == 7);
    Ok(())
}
