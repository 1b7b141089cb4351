// How many of some times, which never fall, a given time has passed.
ghost use Rattle.std.specs.Prelude.{◌≡◌, ◌≤◌, count_by, length, nat_le};
ghost use Rattle.mq_core.specs.Laws.{Rises};

// Returns how many of these times are at most `time`: at least `least` and at most `most` of them
// are.
fn passed_between(times: &[u64], least: usize, most: usize, time: u64) -> usize
    requires order { Rises (λ a b. a ≤ b) times.now }
    requires least { least ≤ count_by (λ t. nat_le t time) times.now }
    requires most { count_by (λ t. nat_le t time) times.now ≤ most }
    requires within { most ≤ length times.now }
    ensures { result ≡ count_by (λ t. nat_le t time) times.now }
{
    let (mut least, mut most) = (least, most);
    while least < most {
        let middle = least + (most - least) / 2;
        if times[middle] <= time {
            least = middle + 1;
        } else {
            most = middle;
        }
    }
    least
}

// Returns how many of these times are at most `time`: at least `least` are. It looks ahead in
// doubling steps.
fn passed_far(times: &[u64], least: usize, time: u64) -> usize
    requires order { Rises (λ a b. a ≤ b) times.now }
    requires least { least ≤ count_by (λ t. nat_le t time) times.now }
    ensures { result ≡ count_by (λ t. nat_le t time) times.now }
{
    let mut least = least;
    let mut step = 1;
    while step <= times.len() - least {
        if times[least + step - 1] > time {
            return passed_between(times, least, least + step - 1, time);
        }
        least += step;
        step += step;
    }
    passed_between(times, least, times.len(), time)
}

// The number of times compared one by one before steps double: usually few more have passed.
const NEAR: usize = 8;

/// Returns how many of these times are at most `time`, if at least `least` are. It is quick if few
/// more are, and takes few steps if many are.
#[inline]
pub fn passed_by(times: &[u64], least: usize, time: u64) -> usize
    requires order { Rises (λ a b. a ≤ b) times.now }
    requires least { least ≤ count_by (λ t. nat_le t time) times.now }
    ensures { result ≡ count_by (λ t. nat_le t time) times.now }
{
    let near = least + NEAR.min(times.len() - least);
    for index in least..near {
        if times[index] > time {
            return index;
        }
    }
    passed_far(times, near, time)
}
