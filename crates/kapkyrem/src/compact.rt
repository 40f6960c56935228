// Compact numbers, over lists of bytes.
ghost use Rattle.std.specs.Prelude.{◌≡◌};
ghost use Rattle.renumbering.specs.Bytes.{compact_bytes_outcome};
ghost use Rattle.kapkyrem.specs.Calls.{called_compact, called_renumbered};

use crate::packed::pack_renumbered;
use renumbering::bytes::compact_bytes;

// Each item of a result as its place in the kept list. For C each list is a pointer and a count of bytes.
pub fn kapkyrem_compact(kept: &[u8], primaries: u32, items: &[u8], out: &mut [u8]) -> u64
    ensures { called_compact result out.new ≡ called_renumbered (compact_bytes_outcome kept.now primaries items.now out.old) }
{
    pack_renumbered(compact_bytes(kept, primaries, items, &mut *out))
}
