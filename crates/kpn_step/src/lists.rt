//! Short lists that are copied and compared.
ghost use Rattle.std.specs.Prelude.{◌≡◌, length};
ghost use Rattle.std.specs.Cmp.Lexicographic.{pointwise};

use arrayvec::ArrayVec;

// This many elements of a list are copied and compared one by one.
const SHORT_LENGTH: usize = 4;

/// Makes a list equal to another. It writes only what is used.
// The list gets the other's length first, so that short ones are copied in a few moves. Most need one or two elements
// more or fewer, so no call clears or copies a range.
pub(crate) fn set_from<T: Copy + Default + Drop, const N: usize>(
    items: &mut ArrayVec<T, N>,
    other: &ArrayVec<T, N>,
)
    ensures { items.new.items ≡ other.now.items }
{
    let len = other.len();
    if items.len() != len {
        'less: while items.len() > len {
            let _last = items.pop();
        }
        'more: while items.len() < len {
            items.push(T::default());
        }
    }
    write_over(items.as_mut_slice(), other.as_slice());
}

/// Makes a slice equal to another of its length. Most are short.
// One by one, each after a test: a loop over as many as there are would be compiled to a call, which costs more.
#[inline(always)]
fn write_over<T: Copy>(items: &mut [T], other: &[T])
    requires { length items.old ≡ length other.now }
    ensures { items.new ≡ other.now }
{
    if other.len() > SHORT_LENGTH {
        items.copy_from_slice(other);
        return;
    }
    'items: for i in 0..SHORT_LENGTH {
        if i < other.len() {
            items[i] = other[i];
        }
    }
}

/// Whether two slices are equal. Most are short.
#[inline(always)]
pub(crate) fn are_same<T: PartialEq>(left: &[T], right: &[T]) -> bool
    ensures { result ≡ pointwise T.eq left.now right.now }
{
    if left.len() != right.len() || left.len() > SHORT_LENGTH {
        return *left == *right;
    }
    'items: for i in 0..SHORT_LENGTH {
        if i < left.len() && left[i] != right[i] {
            return false;
        }
    }
    true
}
