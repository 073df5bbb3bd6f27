//! Work that is dealt out in turn. Conditions that stand together are often alike in weight; where each half of a share gets
//! every second one, as cards are dealt, they go to different workers.

ghost use Rattle.std.specs.Prelude.{◌≡◌, ◌+◌, ◌-◌, ◌*◌, ◌/◌, ◌<◌, ◌≤◌, ◌^◌, drop, IfSome};
ghost use Rattle.discharge.specs.Dealt.{left_half, right_half, lesser_place};

/// Of a slice the first item and then each that stands a stride behind, so many of them; how many workers they are for, and the
/// number of the leftmost piece of that work.
#[derive(Clone, Copy)]
pub(crate) struct Share {
    pub first: usize,
    pub workers: u32,
    pub stride: usize,
    pub count: usize,
}

/// Both halves of a share: every second item, from the second on and from the first on. Strides stay small, since each half
/// has half of the workers.
pub(crate) fn halves(share: Share) -> (Share, Share)
    requires some { 2 ≤ share.workers }
    requires pieces { share.first + share.workers < 2 ^ 32 }
    requires strides { share.stride * (share.workers - 1) < 2 ^ 32 }
    ensures left { result.0 ≡ left_half share }
    ensures right { result.1 ≡ right_half share }
    ensures left_stride { result.0.stride * (result.0.workers - 1) < 2 ^ 32 }
    ensures right_stride { result.1.stride * (result.1.workers - 1) < 2 ^ 32 }
{
    let stride = share.stride + share.stride;
    let half = share.count / 2;
    let workers = share.workers / 2;
    let left = Share {
        first: share.first,
        workers,
        stride,
        count: half,
    };
    let right = Share {
        first: share.first + workers as usize,
        workers: share.workers - workers,
        stride,
        count: share.count - half,
    };
    (left, right)
}

/// The items from a stride on.
pub(crate) fn behind<T>(items: &[T], stride: usize) -> &[T]
    ensures { result.now ≡ drop stride items.now }
{
    if stride < items.len() {
        &items[stride..]
    } else {
        &[]
    }
}

/// The lesser of a place among the first half's items and one among the second's, as a place of the whole.
pub(crate) fn lesser_place(
    count: usize,
    first: Option<usize>,
    second: Option<usize>,
) -> Option<usize>
    requires first { IfSome first (λ i. i + i < count) }
    requires second { IfSome second (λ j. j + j + 1 < count) }
    ensures { result ≡ lesser_place first second }
{
    match (first, second) {
        (None, None) => None,
        (Some(i), None) => Some(i + i),
        (None, Some(j)) => Some(j + j + 1),
        (Some(i), Some(j)) => { if i <= j { Some(i + i) } else { Some(j + j + 1) } }
    }
}
