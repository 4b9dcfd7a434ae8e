//! The places of a number among numbers that never fall.
ghost use Rattle.std.specs.Prelude.{◌≡◌, ◌≤◌, ◌<◌, [], All, AllPairs, Contains, IfNone, IfSome, length};
ghost use Rattle.std.specs.List.Sorted.{IsPartitionPoint};

/// The first place of a number or of a greater one.
pub(crate) fn first_place(numbers: &[u32], number: u32) -> usize
    requires { AllPairs (λ a b. a ≤ b) numbers.now }
    ensures point { IsPartitionPoint (λ n. n < number) (λ n. number ≤ n) numbers.now result }
    ensures bound { result ≤ length numbers.now }
{
    numbers.partition_point(|other| *other < number)
}

/// The first place of a greater number.
pub(crate) fn place_behind(numbers: &[u32], number: u32) -> usize
    requires { AllPairs (λ a b. a ≤ b) numbers.now }
    ensures point { IsPartitionPoint (λ n. n ≤ number) (λ n. number < n) numbers.now result }
    ensures bound { result ≤ length numbers.now }
{
    numbers.partition_point(|other| *other <= number)
}

/// The last number, which none exceeds.
pub(crate) fn last_of(numbers: &[u32]) -> Option<u32>
    requires { AllPairs (λ a b. a ≤ b) numbers.now }
    ensures most { IfSome result (λ number. All (λ n. n ≤ number) numbers.now) }
    ensures last { IfSome result (λ number. Contains numbers.now number) }
    ensures none { IfNone result (numbers.now ≡ []) }
{
    numbers.last().copied()
}
