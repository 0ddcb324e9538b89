ghost use Rattle.std.specs.Prelude.{◌≡◌, ◌+◌, ◌<◌, length, map, take, if◌then◌else◌};
ghost use Rattle.std.specs.Ordering.{nat_cmp};
ghost use Rattle.std.specs.Cmp.Lexicographic.{slice_cmp};
ghost use Rattle.std.specs.List.Sorted.{IsPermutation, IsSortedByKey};
ghost use Rattle.sd_model_shard.specs.Values.{distinct};

use sd_line::Member;

/// How many members differ. The slice is sorted.
pub fn distinct(members: &mut [Member]) -> u64
    ensures count { result ≡ distinct (map (λ m. m.items) members.old) }
    ensures permutation { IsPermutation members.old members.new }
    ensures order { IsSortedByKey (λ m. m.items) (slice_cmp nat_cmp) members.new }
{
    members.sort_unstable();
    count_runs(members)
}

/// How many members of a slice in order differ.
fn count_runs(members: &[Member]) -> u64
    requires { IsSortedByKey (λ m. m.items) (slice_cmp nat_cmp) members.now }
    ensures { result ≡ distinct (map (λ m. m.items) members.now) }
{
    let mut count = 0;
    for i in 0..members.len() {
        if is_new(members, i) {
            count += 1;
        }
    }
    count
}

/// Whether a member of a slice in order differs from each before it.
fn is_new(members: &[Member], i: usize) -> bool
    requires order { IsSortedByKey (λ m. m.items) (slice_cmp nat_cmp) members.now }
    requires within { i < length members.now }
    ensures { distinct (map (λ m. m.items) (take (i + 1) members.now))
        ≡ distinct (map (λ m. m.items) (take i members.now)) + (if result then 1 else 0) }
{
    if i == 0 {
        return true;
    }
    members[i] != members[i - 1]
}
