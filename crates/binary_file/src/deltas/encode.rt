ghost use Rattle.std.specs.Prelude.{◌≡◌, ◌+◌, ◌<◌, ◌≤◌, ◌^◌, ◌++◌, length};
ghost use Rattle.binary_file.specs.Deltas.{delta_of};

use arrayvec::ArrayVec;

/// Appends the delta of a number, in as few bytes as can be: five at most. Takes no memory.
pub fn push_delta<const N: usize>(bytes: &mut ArrayVec<u8, N>, number: u32)
    requires { length bytes.old.items + 5 ≤ N }
    ensures items { bytes.new.items ≡ bytes.old.items ++ delta_of number }
    ensures few { length bytes.new.items ≤ length bytes.old.items + 5 }
{
    let mut rest = number;
    for _ in 0..4u32 {
        if rest < 128 {
            break;
        }
        bytes.push((rest % 128 + 128) as u8);
        rest /= 128;
    }
    bytes.push(rest as u8);
}
