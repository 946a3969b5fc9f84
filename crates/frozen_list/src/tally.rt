// How many cases of each call there were: as written or altered, and whether they differ from what the call gives.
ghost use Rattle.std.specs.Prelude.{◌≡◌, ◌+◌, ◌%◌, ◌^◌, ◌<◌, IfSome, slice_index, slice_set};
ghost use Rattle.frozen_list.specs.Cases.{kind_of};
ghost use Rattle.program_io.specs.Words.{word_at};

use crate::calls::CALLS;
use program_io::words::word_at;

// The kind of a case is a number below this one.
pub const KINDS: usize = 256;

// The kind of a case: twice its first word, and one more where it differs; none where there is no such call.
pub fn kind(case: &[u64], differs: bool) -> Option<usize>
    ensures kind { result ≡ kind_of (word_at case.now 0) differs }
    ensures below { IfSome result (λ k. k < 256) }
{
    let word = word_at(case, 0) as usize;
    if word >= 128 || word % 64 >= CALLS.len() {
        return None;
    }
    Some(2 * word + usize::from(differs))
}

// One case more of this kind.
pub fn add(counts: &mut [u64; KINDS], kind: usize)
    requires { kind < 256 }
    ensures { counts.new ≡ slice_set counts.old kind ((slice_index counts.old kind + 1) % 2 ^ 64) }
{
    counts[kind] = counts[kind].wrapping_add(1);
}
