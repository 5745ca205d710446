//! The order of the paths of class files, which is that of their bytes in UTF-8.

ghost use Rattle.std.specs.Prelude.{◌≡◌, ◌↔◌, IsTrue};
ghost use Rattle.jk_model_classes.specs.SharedRules.{IsBeforeInOrder, path_ranks, rank_of};

/// `.class`, with which the path of each class file ends.
const ENDING: [u16; 6] = [0x2e, 0x63, 0x6c, 0x61, 0x73, 0x73];

/// Where a unit stands in the order of characters. A surrogate is half of a character above 16 bits, and stands
/// above all other units.
fn rank(unit: u16) -> u32
    ensures { result ≡ rank_of unit }
{
    if (0xd800..0xe000).contains(&unit) {
        u32::from(unit) + 0x1_0000
    } else {
        u32::from(unit)
    }
}

/// Whether the path of the class of one name comes before that of the other. Names are UTF-16 code units with `/`
/// between the parts, and paths are in the order of their bytes in UTF-8. It takes no memory.
pub fn is_path_before(a: &[u16], b: &[u16]) -> bool
    ensures { IsTrue result ↔ IsBeforeInOrder (path_ranks a.now) (path_ranks b.now) }
{
    let of_a = a.iter().chain(&ENDING).map(|unit| rank(*unit));
    let of_b = b.iter().chain(&ENDING).map(|unit| rank(*unit));
    of_a.cmp(of_b).is_lt()
}
